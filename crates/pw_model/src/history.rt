ghost use Rattle.std.specs.Prelude.{◌≡◌, ◌↔◌, ◌++◌, ℕ, List, [], ◌∷◌, None, Some};
ghost use Rattle.std.specs.List.{AllByRecursion};
ghost use Rattle.pw_plan.specs.declared.plan.Plan.{Plan as plan};
ghost use Rattle.pw_plan.specs.declared.request.Request.{Request as request};
ghost use Rattle.pw_plan.specs.Requests.{Has};
ghost use Rattle.pw_model.specs.declared.entry.HistoryEntry.{HistoryEntry as entry};
ghost use Rattle.pw_model.specs.declared.state.State.{State as state};
ghost use Rattle.pw_model.specs.States.{IsState, opening};
ghost use Rattle.pw_model.specs.Answers.{after};
ghost use Rattle.pw_model.specs.History.{Faultless, IsEntry, Legal, MayFollow, StatesRequest, StopsAt};
ghost use Rattle.pw_model.specs.History.{entry_of, fault_at, history_ops, ops_from, replay, replay_from};
ghost use Rattle.pw_model.specs.History.{replies, replies_from, request_of};

/// What is left by a request, and by each history, is a state of the plan.
pub fn histories_stay_states()
    ensures opens { (P : plan) → IsState P (opening P) }
    ensures steps { (P : plan) (S : state) (q : request) → IsState P S → Has P q
        → IsState P (after P S q) }
    ensures replays { (P : plan) (H : List entry) → AllByRecursion (StatesRequest P) H
        → IsState P (replay P H) }
{}

/// A request's entry states it, and is one that a history may have.
pub fn entries_state_requests()
    ensures request { (seat : ℕ) (q : request) → request_of (entry_of seat q) ≡ q }
    ensures entry { (P : plan) (seat : ℕ) (q : request) → Has P q → IsEntry P (entry_of seat q) }
{}

/// What one history leaves is where the next goes on from.
pub fn histories_join()
    ensures state { (P : plan) (H G : List entry) → replay P (H ++ G) ≡ replay_from P (replay P H) G }
    ensures replies { (P : plan) (H G : List entry)
        → replies P (H ++ G) ≡ replies P H ++ replies_from P (replay P H) G }
    ensures operations { (P : plan) (H G : List entry)
        → history_ops P (H ++ G) ≡ history_ops P H ++ ops_from P (replay P H) G }
{}

/// The empty history can come about, and one more entry exactly where it may follow; so can each
/// beginning of a history that can.
pub fn legal_histories_grow()
    ensures empty { (P : plan) → Legal P [] }
    ensures more { (P : plan) (H : List entry) (e : entry) → Legal P H
        → Legal P (H ++ e ∷ []) ↔ MayFollow P H e }
    ensures beginning { (P : plan) (H G : List entry) → Legal P (H ++ G) → Legal P H }
{}

/// A history that can come about has no fault, or stops at its fault.
pub fn histories_stop_at_faults()
    ensures none { (H : List entry) → fault_at H ≡ None ↔ Faultless H }
    ensures last { (P : plan) (H : List entry) (k : ℕ) → Legal P H → fault_at H ≡ Some k → StopsAt P H k }
{}
