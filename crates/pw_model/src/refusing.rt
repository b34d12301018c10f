ghost use Rattle.std.specs.Prelude.{◌≡◌, ◌↔◌, ℕ, None, Some};
ghost use Rattle.acpi_values.specs.declared.idle.IdleKind.TheVariants.{Absent};
ghost use Rattle.pw_plan.specs.declared.domain.DomainKind.TheVariants as kinds;
ghost use Rattle.pw_plan.specs.declared.plan.Plan.{Plan as plan};
ghost use Rattle.pw_plan.specs.declared.request.Request.TheVariants as requests;
ghost use Rattle.pw_plan.specs.Parts.{scale_of};
ghost use Rattle.pw_plan.specs.Places.{cpu_at};
ghost use Rattle.pw_model.specs.declared.reply.Reply.TheVariants as replies;
ghost use Rattle.pw_model.specs.declared.state.State.{State as state};
ghost use Rattle.pw_model.specs.Reasons.{AsksAboveLimit, HasDisabled, HasNoState, HasNoSuchState};
ghost use Rattle.pw_model.specs.Reasons.{HasUnfitDomain, NamesUnfit, WakesTooSlowly};
ghost use Rattle.pw_model.specs.Refusals.{refusal};

/// An idle request is refused for the first of these that stands: the processor has no idle states;
/// an idle domain of its is unfit, of which the first is named; there is no such state; it isn't
/// enabled; it wakes slower than the request bears (ACPI 6.5, 8.3, 8.4.3.2).
pub fn idle_requests_are_refused_in_order()
    ensures no_table { (P : plan) (S : state) (p s t : ℕ)
        → refusal P S (requests.Idle p s t) ≡ Some replies.NoTable ↔ ((cpu_at P p).idle.kind ≡ Absent) }
    ensures unfit { (P : plan) (S : state) (p s t number why : ℕ)
        → refusal P S (requests.Idle p s t) ≡ Some (replies.Unfit number why) ↔ NamesUnfit P p number why }
    ensures no_state { (P : plan) (S : state) (p s t count : ℕ)
        → refusal P S (requests.Idle p s t) ≡ Some (replies.NoState count) ↔ HasNoState P p s count }
    ensures disabled { (P : plan) (S : state) (p s t : ℕ)
        → refusal P S (requests.Idle p s t) ≡ Some replies.Disabled ↔ HasDisabled P p s }
    ensures too_slow { (P : plan) (S : state) (p s t latency : ℕ)
        → refusal P S (requests.Idle p s t) ≡ Some (replies.TooSlow latency)
        ↔ WakesTooSlowly P p s t latency }
{}

/// A request for a performance or a throttling state is refused for the first of these that stands:
/// the processor has none; its domain is unfit; there is no such state; it is faster than the
/// processor's own limit (ACPI 6.5, 8.3, 8.4.4.3, 8.4.5.3).
pub fn asks_are_refused_in_order()
    ensures perf_table { (P : plan) (S : state) (p i : ℕ)
        → refusal P S (requests.Perf p i) ≡ Some replies.NoTable ↔ (scale_of kinds.Perf (cpu_at P p) ≡ None) }
    ensures perf_unfit { (P : plan) (S : state) (p i d why : ℕ)
        → refusal P S (requests.Perf p i) ≡ Some (replies.Unfit d why) ↔ HasUnfitDomain P kinds.Perf p d why }
    ensures perf_state { (P : plan) (S : state) (p i count : ℕ)
        → refusal P S (requests.Perf p i) ≡ Some (replies.NoState count)
        ↔ HasNoSuchState P kinds.Perf p i count }
    ensures perf_limit { (P : plan) (S : state) (p i limit : ℕ)
        → refusal P S (requests.Perf p i) ≡ Some (replies.AboveLimit limit)
        ↔ AsksAboveLimit P S kinds.Perf p i limit }
    ensures throttle_table { (P : plan) (S : state) (p i : ℕ)
        → refusal P S (requests.Throttle p i) ≡ Some replies.NoTable
        ↔ (scale_of kinds.Throttle (cpu_at P p) ≡ None) }
    ensures throttle_unfit { (P : plan) (S : state) (p i d why : ℕ)
        → refusal P S (requests.Throttle p i) ≡ Some (replies.Unfit d why)
        ↔ HasUnfitDomain P kinds.Throttle p d why }
    ensures throttle_state { (P : plan) (S : state) (p i count : ℕ)
        → refusal P S (requests.Throttle p i) ≡ Some (replies.NoState count)
        ↔ HasNoSuchState P kinds.Throttle p i count }
    ensures throttle_limit { (P : plan) (S : state) (p i limit : ℕ)
        → refusal P S (requests.Throttle p i) ≡ Some (replies.AboveLimit limit)
        ↔ AsksAboveLimit P S kinds.Throttle p i limit }
{}

/// A new limit is refused where the processor has no such states, and else where its domain is unfit
/// (ACPI 6.5, 8.3).
pub fn limits_are_refused_in_order()
    ensures perf_table { (P : plan) (S : state) (p n : ℕ)
        → refusal P S (requests.PerfLimit p n) ≡ Some replies.NoTable
        ↔ (scale_of kinds.Perf (cpu_at P p) ≡ None) }
    ensures perf_unfit { (P : plan) (S : state) (p n d why : ℕ)
        → refusal P S (requests.PerfLimit p n) ≡ Some (replies.Unfit d why)
        ↔ HasUnfitDomain P kinds.Perf p d why }
    ensures throttle_table { (P : plan) (S : state) (p n : ℕ)
        → refusal P S (requests.ThrottleLimit p n) ≡ Some replies.NoTable
        ↔ (scale_of kinds.Throttle (cpu_at P p) ≡ None) }
    ensures throttle_unfit { (P : plan) (S : state) (p n d why : ℕ)
        → refusal P S (requests.ThrottleLimit p n) ≡ Some (replies.Unfit d why)
        ↔ HasUnfitDomain P kinds.Throttle p d why }
{}
