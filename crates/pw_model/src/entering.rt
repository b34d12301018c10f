ghost use Rattle.std.specs.Prelude.{◌≡◌, ◌≢◌, ◌↔◌, ◌<◌, ◌+◌, ◌%◌, ◌^◌, ◌++◌, ℕ, true, List, ◌∷◌, length};
ghost use Rattle.std.specs.Prelude.{map, sum, Contains};
ghost use Rattle.acpi_values.specs.declared.lpi.EntryMethod.{EntryMethod as entry_method};
ghost use Rattle.acpi_values.specs.declared.lpi.EntryMethod.TheVariants as methods;
ghost use Rattle.acpi_values.specs.declared.operation.Composite.{Composite as composite};
ghost use Rattle.acpi_values.specs.declared.operation.Op.TheVariants.{Enter};
ghost use Rattle.acpi_values.specs.declared.register.Register.{Register as register};
ghost use Rattle.pw_plan.specs.declared.plan.Plan.{Plan as plan};
ghost use Rattle.pw_plan.specs.declared.request.Request.TheVariants.{Idle};
ghost use Rattle.pw_plan.specs.Groups.{has_member, is_idle};
ghost use Rattle.pw_plan.specs.Places.{domain_at};
ghost use Rattle.pw_model.specs.declared.state.State.{State as state};
ghost use Rattle.pw_model.specs.Answers.{after, states_of};
ghost use Rattle.pw_model.specs.Composites.{composite_of};
ghost use Rattle.pw_model.specs.Entering.{ComesAlong, IsAboutRow, entries_of, fixed_hardware};
ghost use Rattle.pw_model.specs.Operations.{ops_of};

/// What a processor enters in a chain of states is the outermost register among its entry methods,
/// with the integers above it added to the address modulo 2^64; where there is none, the register
/// of fixed hardware at the sum of its integers (ACPI 6.5, 8.4.3.3).
pub fn outermost_registers_are_entered()
    ensures register { (P : plan) (p : ℕ) (states : List ℕ) (below : List entry_method) (r : register)
        (above : List ℕ) → r.address < 2 ^ 64
        → entries_of P p states ≡ below ++ methods.Register r ∷ map (λ n. methods.Integer n) above
        → (composite_of P p states).register ≡ record r { address = (r.address + sum above) % 2 ^ 64 } }
    ensures integers { (P : plan) (p : ℕ) (states : List ℕ) (n : ℕ) (above : List ℕ) → n < 2 ^ 64
        → entries_of P p states ≡ methods.Integer n ∷ map (λ k. methods.Integer k) above
        → (composite_of P p states).register ≡ fixed_hardware ((n + sum above) % 2 ^ 64) }
{}

/// Who enters by the idle request of another is exactly who comes to a deeper C state by it that a
/// SW_ALL domain of its own is about; it enters that state (ACPI 6.5, 8.3).
pub fn others_enter_who_come_along()
    ensures { (P : plan) (S : state) (p s t q : ℕ) (x : composite) → q ≢ p
        → Contains (ops_of P S (Idle p s t)) (Enter q x)
        ↔ (ComesAlong P S (after P S (Idle p s t)) q
        × (x ≡ composite_of P q (states_of P (after P S (Idle p s t)) q))) }
{}

/// An idle domain is about the C state in the row of each member's own table at its index, counted
/// from 0, which an entry of the member's `_CSD` names (ACPI 6.5, 8.4.1.2).
pub fn idle_domains_are_about_rows()
    ensures { (P : plan) (d p : ℕ) → d < length P.domains → is_idle (domain_at P d).kind ≡ true
        → has_member (domain_at P d).members p ≡ true → IsAboutRow P d p }
{}
