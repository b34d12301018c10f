ghost use Rattle.std.specs.Prelude.{◌≡◌, ◌∷◌, [], List, None, Some, count_by, true};
ghost use Rattle.std.specs.List.{AllByRecursion};
ghost use Rattle.pw_plan.specs.declared.plan.Plan.{Plan as plan};
ghost use Rattle.pw_plan.specs.declared.request.Request.{Request as request};
ghost use Rattle.pw_plan.specs.Requests.{Has};
ghost use Rattle.pw_model.specs.declared.entry.HistoryEntry.{HistoryEntry as entry};
ghost use Rattle.pw_model.specs.declared.reply.Reply.{Reply as reply};
ghost use Rattle.pw_model.specs.declared.state.State.{State as state};
ghost use Rattle.pw_model.specs.Refusals.{refusal};
ghost use Rattle.pw_model.specs.Answers.{answer};
ghost use Rattle.pw_model.specs.History.{Faultless, replay};
ghost use Rattle.pw_script.specs.Lawful.{Lawful};
ghost use Rattle.pw_generate.specs.Summary.{AddsUp, accepted_kind, script_summary, summary_text};
ghost use Rattle.pw_generate.specs.Summary.{is_entered, is_refused, is_running, is_stands};

/// Every history without a fault that a script allows leaves the same state and has the same summary,
/// whatever the order in which processors come to their lines: that of the lines made in their own
/// order.
pub fn histories_have_one_summary()
    ensures state { (P : plan) (asked : List request) (H G : List entry)
        → Lawful P asked None H → Faultless H → Lawful P asked None G → Faultless G
        → replay P H ≡ replay P G }
    ensures text { (P : plan) (asked : List request) (H G : List entry)
        → Lawful P asked None H → Faultless H → Lawful P asked None G → Faultless G
        → summary_text P H ≡ summary_text P G }
    ensures script { (P : plan) (asked : List request) (H : List entry)
        → AllByRecursion (Has P) asked → Lawful P asked None H → Faultless H
        → summary_text P H ≡ script_summary P asked }
{}

/// The four counts of the summary of a history without a fault add up to its lines.
#[tactic(auto, using(crate::proofs::Adding::adds_up))]
pub fn counts_add_up()
    ensures { (P : plan) (H : List entry) → Faultless H → AddsUp P H }
{}

/// A request counts as refused where it is refused; else an idle request as entered, a wake as running, and
/// one on a domain as standing; and each reply is of one of these kinds.
pub fn counts_are_of_requests()
    ensures refused { (P : plan) (S : state) (q : request) (r : reply) → refusal P S q ≡ Some r
        → is_refused (answer P S q) ≡ true }
    ensures accepted { (P : plan) (S : state) (q : request) → refusal P S q ≡ None
        → accepted_kind q (answer P S q) ≡ true }
    ensures one { (r : reply) → count_by (λ kind. kind r)
        (is_entered ∷ is_running ∷ is_stands ∷ is_refused ∷ []) ≡ 1 }
{}
