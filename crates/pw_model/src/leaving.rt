ghost use Rattle.std.specs.Prelude.{◌≡◌, ◌-◌, ℕ, None, Some, length, min};
ghost use Rattle.pw_plan.specs.declared.domain.DomainKind.TheVariants as kinds;
ghost use Rattle.pw_plan.specs.declared.parts.Scale.{Scale as scale_part};
ghost use Rattle.pw_plan.specs.declared.plan.Plan.{Plan as plan};
ghost use Rattle.pw_plan.specs.declared.request.Request.TheVariants as requests;
ghost use Rattle.pw_plan.specs.Parts.{scale_of};
ghost use Rattle.pw_plan.specs.Places.{cpu_at};
ghost use Rattle.pw_plan.specs.Requests.{Has};
ghost use Rattle.pw_model.specs.declared.state.State.{State as state};
ghost use Rattle.pw_model.specs.States.{IsState, any_latency};
ghost use Rattle.pw_model.specs.Answers.{after};
ghost use Rattle.pw_model.specs.Changes.{MovesAsk, MovesLimit, MovesVote};
ghost use Rattle.pw_model.specs.Refusals.{refusal};

/// An accepted request changes one entry of its own processor and leaves all else: an idle request
/// the vote, to its state and its tolerance; a wake the vote, to none that bears any latency; an ask
/// the ask, and a limit the limit, which past the last state is the last one (ACPI 6.5, 8.4.5.3).
pub fn accepted_requests_change_one_entry()
    ensures idle { (P : plan) (S : state) (p s t : ℕ) → IsState P S → Has P (requests.Idle p s t)
        → refusal P S (requests.Idle p s t) ≡ None
        → MovesVote S (after P S (requests.Idle p s t)) p (record { state = s; tolerance = t }) }
    ensures wake { (P : plan) (S : state) (p : ℕ) → IsState P S → Has P (requests.Wake p)
        → MovesVote S (after P S (requests.Wake p)) p (record { state = 0; tolerance = any_latency }) }
    ensures perf { (P : plan) (S : state) (p i : ℕ) → IsState P S → Has P (requests.Perf p i)
        → refusal P S (requests.Perf p i) ≡ None
        → MovesAsk S (after P S (requests.Perf p i)) kinds.Perf p i }
    ensures throttle { (P : plan) (S : state) (p i : ℕ) → IsState P S → Has P (requests.Throttle p i)
        → refusal P S (requests.Throttle p i) ≡ None
        → MovesAsk S (after P S (requests.Throttle p i)) kinds.Throttle p i }
    ensures perf_limit { (P : plan) (S : state) (p n : ℕ) (scale : scale_part) → IsState P S
        → Has P (requests.PerfLimit p n) → refusal P S (requests.PerfLimit p n) ≡ None
        → scale_of kinds.Perf (cpu_at P p) ≡ Some scale
        → MovesLimit S (after P S (requests.PerfLimit p n)) kinds.Perf p (min n (length scale.controls - 1)) }
    ensures throttle_limit { (P : plan) (S : state) (p n : ℕ) (scale : scale_part) → IsState P S
        → Has P (requests.ThrottleLimit p n) → refusal P S (requests.ThrottleLimit p n) ≡ None
        → scale_of kinds.Throttle (cpu_at P p) ≡ Some scale
        → MovesLimit S (after P S (requests.ThrottleLimit p n)) kinds.Throttle p
        (min n (length scale.controls - 1)) }
{}
