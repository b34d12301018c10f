ghost use Rattle.std.specs.Prelude.{◌≡◌, ◌↔◌, ℕ, None, Some};
ghost use Rattle.pw_plan.specs.declared.domain.DomainKind.TheVariants as kinds;
ghost use Rattle.pw_plan.specs.declared.plan.Plan.{Plan as plan};
ghost use Rattle.pw_plan.specs.declared.request.Request.{Request as request};
ghost use Rattle.pw_plan.specs.declared.request.Request.TheVariants as requests;
ghost use Rattle.pw_plan.specs.Requests.{Has};
ghost use Rattle.pw_model.specs.declared.reply.Reply.{Reply as reply};
ghost use Rattle.pw_model.specs.declared.state.State.{State as state};
ghost use Rattle.pw_model.specs.States.{IsState};
ghost use Rattle.pw_model.specs.Refusals.{fixed_refusal, refusal};
ghost use Rattle.pw_model.specs.Acceptance.{HasFitDomain, MayAskFor, MayIdleIn};

/// A request is accepted exactly where it may be made: an idle request where the state is one of
/// the processor's table, enabled, wakes within the request's tolerance, and the processor's idle
/// domains are fit; an ask where the state exists and is no faster than the own limit, and a limit
/// where there are such states at all, both in a fit domain; a wake always.
pub fn requests_are_accepted_where_they_may()
    ensures idle { (P : plan) (S : state) (p s t : ℕ)
        → refusal P S (requests.Idle p s t) ≡ None ↔ MayIdleIn P p s t }
    ensures wake { (P : plan) (S : state) (p : ℕ) → refusal P S (requests.Wake p) ≡ None }
    ensures perf { (P : plan) (S : state) (p i : ℕ)
        → refusal P S (requests.Perf p i) ≡ None ↔ MayAskFor P S kinds.Perf p i }
    ensures throttle { (P : plan) (S : state) (p i : ℕ)
        → refusal P S (requests.Throttle p i) ≡ None ↔ MayAskFor P S kinds.Throttle p i }
    ensures perf_limit { (P : plan) (S : state) (p n : ℕ)
        → refusal P S (requests.PerfLimit p n) ≡ None ↔ HasFitDomain P kinds.Perf p }
    ensures throttle_limit { (P : plan) (S : state) (p n : ℕ)
        → refusal P S (requests.ThrottleLimit p n) ≡ None ↔ HasFitDomain P kinds.Throttle p }
{}

/// The fixed refusals are those that come in every state of the plan.
pub fn fixed_refusals_come_always()
    ensures comes { (P : plan) (q : request) (r : reply) → Has P q
        → fixed_refusal P q ≡ Some r
        ↔ ((S : state) → IsState P S → refusal P S q ≡ Some r) }
    // What isn't refused so is accepted in some state.
    ensures accepted { (P : plan) (q : request) → Has P q → fixed_refusal P q ≡ None
        → (S : state) × IsState P S × (refusal P S q ≡ None) }
{}
