ghost use Rattle.std.specs.Prelude.{◌≡◌, ◌<◌, ◌≤◌, ◌⊎◌, ◌↔◌, ◌≢◌, ◌++◌, ℕ};
ghost use Rattle.std.specs.Prelude.{true, List, [], Some, length, None, Contains, is_some};
ghost use Rattle.std.specs.List.{AllByRecursion};
ghost use Rattle.acpi_values.specs.declared.dependency.Coord.TheVariants.{HwAll, SwAny};
ghost use Rattle.acpi_values.specs.declared.operation.Op.{Op as op};
ghost use Rattle.pw_plan.specs.Groups.{has_member, is_software};
ghost use Rattle.pw_cppc.specs.declared.plan.CppcPlan.{CppcPlan as plan};
ghost use Rattle.pw_cppc.specs.declared.request.CppcRequest.{CppcRequest as request};
ghost use Rattle.pw_cppc.specs.Planning.{domain_at, parts_at};
ghost use Rattle.pw_cppc.specs.Requests.{Has, cpu_of, opening_bound, ops_bound};
ghost use Rattle.pw_cppc.specs.declared.entry.CppcEntry.{CppcEntry as entry};
ghost use Rattle.pw_cppc.specs.declared.numbers.CppcNumbers.{CppcNumbers as numbers};
ghost use Rattle.pw_cppc.specs.declared.reply.CppcReply.{CppcReply as reply};
ghost use Rattle.pw_cppc.specs.declared.reply.CppcReply.TheVariants.{Stands};
ghost use Rattle.pw_cppc.specs.declared.parts.Control.{Control as control};
ghost use Rattle.pw_cppc.specs.declared.parts.Control.TheVariants.{Desired};
ghost use Rattle.pw_cppc.specs.States.{AreNumbers, any_performance, ask_of};
ghost use Rattle.pw_cppc.specs.States.{maximum_of, minimum_of, opening, standing};
ghost use Rattle.pw_cppc.specs.Answers.{after, answer, refusal};
ghost use Rattle.pw_cppc.specs.Operations.{opening_ops, ops_of};
ghost use Rattle.pw_cppc.specs.History.{Faultless, history_ops, replay};
ghost use Rattle.pw_cppc.specs.Laws.{IsAllowed, IsNearest, Leaves, Satisfies};
ghost use Rattle.pw_cppc.specs.Causes.{IsDue, MayAsk};
ghost use Rattle.pw_cppc.specs.Controls.{HasOwnRegisters, IsFitMember, IsLastSetOn};
ghost use Rattle.pw_cppc.specs.Controls.{IsSetBy, IsStart, said_by};
ghost use Rattle.pw_cppc.specs.Parts.{highest_of, lowest_of, register_of};

/// A domain that software coordinates stands no faster than each member allows, and as fast as each
/// asks and demands, unless one allows no more (ACPI 6.5, 8.3).
pub fn domains_stand_within_maxima()
    ensures allowed { (P : plan) (S : numbers) (d p : ℕ) → is_software (domain_at P d).coord ≡ true
        → IsAllowed P S d (standing P S d p) }
    // It stands no faster than what is asked and demanded.
    ensures least { (P : plan) (S : numbers) (d p v : ℕ) → is_software (domain_at P d).coord ≡ true
        → Satisfies P S d v → standing P S d p ≤ v }
    // It stands as fast as all allow, unless what is asked and demanded is satisfied.
    ensures fast { (P : plan) (S : numbers) (d p v : ℕ) → is_software (domain_at P d).coord ≡ true
        → v ≤ any_performance → IsAllowed P S d v
        → (v ≤ standing P S d p) ⊎ Satisfies P S d (standing P S d p) }
    // Where something that all allow satisfies what is asked and demanded, so does where it stands.
    ensures satisfied { (P : plan) (S : numbers) (d p v : ℕ)
        → is_software (domain_at P d).coord ≡ true → v ≤ any_performance → IsAllowed P S d v
        → Satisfies P S d v → Satisfies P S d (standing P S d p) }
{}

/// A request that is refused changes nothing and operates nothing, and is answered why.
pub fn refusals_change_nothing()
    ensures numbers { (P : plan) (S : numbers) (q : request) (r : reply) → refusal P S q ≡ Some r
        → after P S q ≡ S }
    ensures operations { (P : plan) (S : numbers) (q : request) (r : reply) → refusal P S q ≡ Some r
        → ops_of P S q ≡ [] }
    ensures answer { (P : plan) (S : numbers) (q : request) (r : reply) → refusal P S q ≡ Some r
        → answer P S q ≡ r }
{}

/// A request is accepted just where it may be made, and each refusal comes just where it is due
/// (ACPI 6.5, 8.4.6.1.2).
pub fn refusals_come_where_due()
    ensures accepted { (P : plan) (S : numbers) (q : request) → refusal P S q ≡ None ↔ MayAsk P S q }
    ensures refused { (P : plan) (S : numbers) (q : request) (r : reply)
        → refusal P S q ≡ Some r ↔ IsDue P S q r }
{}

/// A domain that software coordinates stands as one; in one that hardware coordinates each member
/// stands where it asks to, within its own bounds (ACPI 6.5, 8.3).
pub fn members_stand_by_coordination()
    ensures together { (P : plan) (S : numbers) (d p q : ℕ) → (domain_at P d).coord ≢ HwAll
        → standing P S d p ≡ standing P S d q }
    ensures alone { (P : plan) (S : numbers) (d p : ℕ) → (domain_at P d).coord ≡ HwAll
        → IsNearest (ask_of S p) (minimum_of S p) (maximum_of S p) (standing P S d p) }
{}

/// A request that is accepted changes the number that it names and no other, and is answered where
/// its processor then stands.
pub fn accepted_requests_change_one_number()
    ensures numbers { (P : plan) (S : numbers) (q : request) → AreNumbers P S
        → refusal P S q ≡ None → Leaves S q (after P S q) }
    ensures answer { (P : plan) (S : numbers) (q : request) (d : ℕ) → refusal P S q ≡ None
        → d < length P.domains → has_member (domain_at P d).members (cpu_of q) ≡ true
        → answer P S q ≡ Stands (standing P (after P S q) d (cpu_of q)) }
{}

/// A request never has more operations than its bound, and there are as many at the start as theirs
/// says.
pub fn bounds_hold()
    ensures request { (P : plan) (S : numbers) (q : request) → Has P q
        → length (ops_of P S q) ≤ ops_bound P q }
    ensures opening { (P : plan) → length (opening_ops P) ≡ opening_bound P }
{}

/// Whatever was asked, no member of a fit domain demands more than it allows.
pub fn minima_stay_below_maxima()
    ensures { (P : plan) (H : List entry) (d p : ℕ) → d < length P.domains
        → (domain_at P d).unfit ≡ 0 → has_member (domain_at P d).members p ≡ true
        → minimum_of (replay P H) p ≤ maximum_of (replay P H) p }
{}

/// At the start each processor asks for its highest performance, between its lowest and its highest,
/// and a fit domain stands there.
pub fn processors_open_at_their_highest()
    ensures asks { (P : plan) (p : ℕ) → p < length P.cpus
        → ask_of (opening P) p ≡ highest_of (parts_at P p) }
    ensures minima { (P : plan) (p : ℕ) → p < length P.cpus
        → minimum_of (opening P) p ≡ lowest_of (parts_at P p) }
    ensures maxima { (P : plan) (p : ℕ) → p < length P.cpus
        → maximum_of (opening P) p ≡ highest_of (parts_at P p) }
    ensures stands { (P : plan) (d p : ℕ) → IsFitMember P d p
        → highest_of (parts_at P p) ≤ any_performance
        → standing P (opening P) d p ≡ highest_of (parts_at P p) }
{}

/// The operations at the start are those that set each control of a fit domain's members.
pub fn openings_set_controls()
    ensures only { (P : plan) → AllByRecursion (IsStart P) (opening_ops P) }
    ensures all { (P : plan) (o : op) → IsStart P o → Contains (opening_ops P) o }
{}

/// After the operations of the start and those of a history without a fault, each control of a
/// member of a fit domain was last set to what it is to say, and of the members of a SW_ANY domain
/// the desired performance that was set last to where the domain stands, unless a processor has one
/// register for two controls.
pub fn controls_stand()
    ensures each { (P : plan) (H : List entry) (d p : ℕ) (c : control) → Faultless H
        → IsFitMember P d p → HasOwnRegisters P p
        → is_some (register_of c (parts_at P p)) ≡ true
        → (c ≡ Desired → (domain_at P d).coord ≢ SwAny)
        → IsLastSetOn P c (λ q. q ≡ p) (said_by c P (replay P H) d p)
        (opening_ops P ++ history_ops P H) }
    ensures any { (P : plan) (H : List entry) (d p : ℕ) → Faultless H → IsFitMember P d p
        → (domain_at P d).coord ≡ SwAny
        → ((q : ℕ) → has_member (domain_at P d).members q ≡ true → HasOwnRegisters P q)
        → IsLastSetOn P Desired (λ q. has_member (domain_at P d).members q ≡ true)
        (standing P (replay P H) d p) (opening_ops P ++ history_ops P H) }
{}

/// The operations of a request are those that set each control that it moves.
pub fn requests_set_controls()
    ensures only { (P : plan) (S : numbers) (q : request) → AreNumbers P S
        → AllByRecursion (IsSetBy P S q) (ops_of P S q) }
    ensures all { (P : plan) (S : numbers) (q : request) (o : op) → AreNumbers P S
        → IsSetBy P S q o → Contains (ops_of P S q) o }
{}
