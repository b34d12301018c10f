ghost use Rattle.std.specs.Prelude.{◌≡◌, ℕ, None};
ghost use Rattle.pw_plan.specs.declared.domain.DomainKind.TheVariants as kinds;
ghost use Rattle.pw_plan.specs.declared.plan.Plan.{Plan as plan};
ghost use Rattle.pw_plan.specs.declared.request.Request.TheVariants as requests;
ghost use Rattle.pw_plan.specs.Places.{domain_of};
ghost use Rattle.pw_model.specs.declared.state.State.{State as state};
ghost use Rattle.pw_model.specs.Answers.{after};
ghost use Rattle.pw_model.specs.Operating.{EntersFirst, SetsNewStanding, StartsAll};
ghost use Rattle.pw_model.specs.Operations.{opening_ops, ops_of};
ghost use Rattle.pw_model.specs.Refusals.{refusal};

/// A request on a domain operates nothing where the domain stands as before; else the new state is
/// set on each member of a SW_ALL domain, in their order, and on the requester alone in another
/// (ACPI 6.5, 8.3, 8.4.5.1).
pub fn new_standings_are_set()
    ensures perf { (P : plan) (S : state) (p i : ℕ)
        → SetsNewStanding P S (after P S (requests.Perf p i)) kinds.Perf (domain_of P kinds.Perf p) p
        (ops_of P S (requests.Perf p i)) }
    ensures throttle { (P : plan) (S : state) (p i : ℕ)
        → SetsNewStanding P S (after P S (requests.Throttle p i)) kinds.Throttle
        (domain_of P kinds.Throttle p) p (ops_of P S (requests.Throttle p i)) }
    ensures perf_limit { (P : plan) (S : state) (p n : ℕ)
        → SetsNewStanding P S (after P S (requests.PerfLimit p n)) kinds.Perf (domain_of P kinds.Perf p) p
        (ops_of P S (requests.PerfLimit p n)) }
    ensures throttle_limit { (P : plan) (S : state) (p n : ℕ)
        → SetsNewStanding P S (after P S (requests.ThrottleLimit p n)) kinds.Throttle
        (domain_of P kinds.Throttle p) p (ops_of P S (requests.ThrottleLimit p n)) }
{}

/// The operations of an accepted idle request begin with the processor's own entry of its composite,
/// or have none of its own where it has C states and comes to none; who comes along enters after it,
/// by rising number, each once (ACPI 6.5, 8.3, 8.4.3.3).
pub fn idle_requests_enter_first()
    ensures { (P : plan) (S : state) (p s t : ℕ) → refusal P S (requests.Idle p s t) ≡ None
        → EntersFirst P (after P S (requests.Idle p s t)) p (ops_of P S (requests.Idle p s t)) }
{}

/// At the start each fit domain of performance and of throttling is set to where it stands, in the
/// order of the domains: a SW_ANY domain on its first member, another on each (ACPI 6.5, 8.3).
pub fn domains_are_set_at_the_start()
    ensures { (P : plan) → StartsAll P (opening_ops P) }
{}
