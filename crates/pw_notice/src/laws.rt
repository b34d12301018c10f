ghost use Rattle.std.specs.Prelude.{◌≡◌, ℕ, List};
ghost use Rattle.pw_plan.specs.declared.domain.DomainKind.{DomainKind as kind};
ghost use Rattle.pw_plan.specs.declared.plan.Plan.{Plan as plan};
ghost use Rattle.pw_plan.specs.declared.request.Request.{Request as request};
ghost use Rattle.pw_model.specs.declared.entry.HistoryEntry.{HistoryEntry as entry};
ghost use Rattle.pw_model.specs.States.{limit_of};
ghost use Rattle.pw_model.specs.History.{Faultless, replay};
ghost use Rattle.pw_notice.specs.Limits.{limit_after, own_entries, own_limit, requests};

/// A processor's limits depend on its own requests alone: whatever others ask for in between, its limit is
/// its own one.
#[tactic(auto, using(crate::proofs::OwnLimits::limits_own))]
pub fn limits_are_own()
    ensures requests { (P : plan) (k : kind) (p : ℕ) (qs : List request)
        → limit_after P k p qs ≡ own_limit P k p qs }
    ensures entries { (P : plan) (k : kind) (p : ℕ) (H : List entry)
        → limit_of k (replay P H) p ≡ limit_of k (replay P (own_entries p H)) p }
    ensures histories { (P : plan) (k : kind) (p : ℕ) (H : List entry) → Faultless H
        → limit_of k (replay P H) p ≡ own_limit P k p (requests H) }
{}
