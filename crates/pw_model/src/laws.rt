ghost use Rattle.std.specs.Prelude.{◌≡◌, ◌<◌, ◌≤◌, ◌++◌, ℕ, true, List, [], Some, length};
ghost use Rattle.std.specs.List.{AllByRecursion};
ghost use Rattle.acpi_values.specs.declared.dependency.Coord.TheVariants.{HwAll, SwAll, SwAny};
ghost use Rattle.pw_plan.specs.declared.plan.Plan.{Plan as plan};
ghost use Rattle.pw_plan.specs.declared.request.Request.{Request as request};
ghost use Rattle.pw_plan.specs.declared.request.Request.TheVariants.{Wake};
ghost use Rattle.pw_plan.specs.Groups.{has_member, is_software};
ghost use Rattle.pw_plan.specs.Places.{children_at, domain_at};
ghost use Rattle.pw_plan.specs.Requests.{Has, ops_bound, opening_bound};
ghost use Rattle.pw_model.specs.declared.entry.HistoryEntry.{HistoryEntry as entry};
ghost use Rattle.pw_model.specs.declared.reply.Reply.{Reply as reply};
ghost use Rattle.pw_model.specs.declared.state.State.{State as state};
ghost use Rattle.pw_model.specs.States.{any_latency, ask_of, vote_of};
ghost use Rattle.pw_model.specs.Containers.{child_vote, container_vote};
ghost use Rattle.pw_model.specs.Domains.{c_state, standing};
ghost use Rattle.pw_model.specs.Refusals.{refusal};
ghost use Rattle.pw_model.specs.Answers.{after, answer};
ghost use Rattle.pw_model.specs.Operations.{opening_ops, ops_of};
ghost use Rattle.pw_model.specs.History.{Faultless, Legal, history_ops, replay};
ghost use Rattle.pw_model.specs.Laws.{AsksFrom, HasOwnRegisters, IsBehindOwn, IsFitMember};
ghost use Rattle.pw_model.specs.Laws.{IsLastSetAmong, IsSetToStanding};
ghost use Rattle.pw_model.specs.Laws.{LimitsWithin, MayEnter, MayIdle};

/// A container is in the deepest enabled state that every child allows, and bears the wake latency
/// that each of them bears; where there is no such state it runs, and bears any
/// (ACPI 6.5, 8.4.3.2).
pub fn container_states_are_greatest()
    // It may be in the state that it is in.
    ensures allowed { (P : plan) (S : state) (n : ℕ) → 0 < (container_vote P S n).state
        → MayIdle P S n (container_vote P S n).state }
    // It may be in no deeper one.
    ensures greatest { (P : plan) (S : state) (n i : ℕ) → MayIdle P S n i
        → i ≤ (container_vote P S n).state }
    ensures bears { (P : plan) (S : state) (n : ℕ) → 0 < (container_vote P S n).state
        → AllByRecursion (λ c. (container_vote P S n).tolerance ≤ (child_vote P S c).tolerance)
        (children_at P n) }
    // It bears no less than what all of them bear.
    ensures least { (P : plan) (S : state) (n t : ℕ) → t ≤ any_latency
        → AllByRecursion (λ c. t ≤ (child_vote P S c).tolerance) (children_at P n)
        → t ≤ (container_vote P S n).tolerance }
    ensures runs { (P : plan) (S : state) (n : ℕ) → (container_vote P S n).state ≡ 0
        → (container_vote P S n).tolerance ≡ any_latency }
{}

/// A processor's C state is the deepest one up to its vote that its domains let it enter
/// (ACPI 6.5, 8.3).
pub fn c_states_are_greatest()
    ensures within { (P : plan) (S : state) (p : ℕ) → c_state P S p ≤ (vote_of S p).state }
    ensures entered { (P : plan) (S : state) (p : ℕ) → 0 < c_state P S p
        → MayEnter P S p (c_state P S p) }
    ensures greatest { (P : plan) (S : state) (p j : ℕ) → j ≤ (vote_of S p).state
        → MayEnter P S p j → j ≤ c_state P S p }
{}

/// A domain that software coordinates stands at the fastest state that a member asks for, or at the
/// slowest limit where that is slower (ACPI 6.5, 8.3).
pub fn domains_stand_within_limits()
    ensures limits { (P : plan) (S : state) (d p : ℕ) → is_software (domain_at P d).coord ≡ true
        → LimitsWithin P S d (standing P S d p) }
    // It stands no slower than a member asks, unless a limit is slower.
    ensures fastest { (P : plan) (S : state) (d p q t : ℕ)
        → is_software (domain_at P d).coord ≡ true
        → has_member (domain_at P d).members q ≡ true → ask_of (domain_at P d).kind S q ≤ t
        → LimitsWithin P S d t → standing P S d p ≤ t }
    // It stands no faster than every member asks.
    ensures asked { (P : plan) (S : state) (d p t : ℕ)
        → is_software (domain_at P d).coord ≡ true → t ≤ 255
        → AsksFrom P S d t → t ≤ standing P S d p }
{}

/// A member of a domain that hardware coordinates stands, whatever the others do, at the fastest state
/// that is no faster than its own limit and its own ask (ACPI 6.5, 8.3).
pub fn hardware_members_stand_alone()
    ensures behind { (P : plan) (S : state) (d p : ℕ) → (domain_at P d).coord ≡ HwAll
        → IsBehindOwn S (domain_at P d).kind p (standing P S d p) }
    ensures fastest { (P : plan) (S : state) (d p t : ℕ) → (domain_at P d).coord ≡ HwAll
        → IsBehindOwn S (domain_at P d).kind p t → standing P S d p ≤ t }
{}

/// A request that is refused changes nothing and operates nothing, and is answered why.
pub fn refusals_change_nothing()
    ensures state { (P : plan) (S : state) (q : request) (r : reply) → refusal P S q ≡ Some r
        → after P S q ≡ S }
    ensures operations { (P : plan) (S : state) (q : request) (r : reply) → refusal P S q ≡ Some r
        → ops_of P S q ≡ [] }
    ensures answer { (P : plan) (S : state) (q : request) (r : reply) → refusal P S q ≡ Some r
        → answer P S q ≡ r }
{}

/// A wake operates no register.
pub fn wakes_operate_nothing()
    ensures { (P : plan) (S : state) (p : ℕ) → ops_of P S (Wake p) ≡ [] }
{}

/// A request never has more operations than its bound, and there are as many at the start as
/// theirs says.
pub fn bounds_hold()
    ensures request { (P : plan) (S : state) (q : request) → Has P q
        → length (ops_of P S q) ≤ ops_bound P q }
    ensures opening { (P : plan) → length (opening_ops P) ≡ opening_bound P }
{}

/// After the opening operations and those of a history without a fault, the control register of
/// each member of a fit SW_ALL domain was last set to the state in which the domain stands, that of
/// each member of a fit HW_ALL domain to its own, and of the members of a fit SW_ANY domain the one
/// that was set last to where the domain stands, unless a member has one control register for both
/// performance and throttling.
pub fn registers_stand()
    ensures all { (P : plan) (H : List entry) (d p : ℕ) → Legal P H → Faultless H
        → IsFitMember P SwAll d p → HasOwnRegisters P p
        → IsSetToStanding P (replay P H) d p (opening_ops P ++ history_ops P H) }
    ensures each { (P : plan) (H : List entry) (d p : ℕ) → Legal P H → Faultless H
        → IsFitMember P HwAll d p → HasOwnRegisters P p
        → IsSetToStanding P (replay P H) d p (opening_ops P ++ history_ops P H) }
    ensures any { (P : plan) (H : List entry) (d p : ℕ) → Legal P H → Faultless H
        → IsFitMember P SwAny d p
        → ((q : ℕ) → has_member (domain_at P d).members q ≡ true → HasOwnRegisters P q)
        → IsLastSetAmong P (domain_at P d).kind (domain_at P d).members
        (standing P (replay P H) d p) (opening_ops P ++ history_ops P H) }
{}
