//! What the machines and loads that are generated are to the planner.

ghost use Rattle.std.specs.Prelude.{◌≡◌, ◌≤◌, ℕ, List, [], ◌∷◌, Ok, length};
ghost use Rattle.std.specs.List.{AllByRecursion};
ghost use Rattle.acpi_space.specs.Distinct.{IsDistinct};
ghost use Rattle.acpi_space.specs.Namespace.{entries_in, places_of};
ghost use Rattle.pw_text.specs.declared.script.TheConstants.{MOST_LINES, MOST_OPERATIONS};
ghost use Rattle.acpi_build.specs.declared.fault.BuildFault.{BuildFault as fault};
ghost use Rattle.acpi_build.specs.declared.fault.BuildFault.TheVariants.{Memory};
ghost use Rattle.acpi_build.specs.declared.note.Note.{Note as note};
ghost use Rattle.acpi_build.specs.Building.{IsFault};
ghost use Rattle.acpi_build.specs.Machine.{Parts};
ghost use Rattle.acpi_build.specs.Planning.{IsPlanFrom, parts_within};
ghost use Rattle.pw_plan.specs.declared.plan.Plan.{Plan as plan};
ghost use Rattle.pw_plan.specs.Requests.{Has};
ghost use Rattle.pw_script.specs.Reading.{operations};
ghost use Rattle.pw_generate.specs.declared.tables.TheConstants.{MOST_CONTAINERS};
ghost use Rattle.pw_generate.specs.Loads.{machine_load};
ghost use Rattle.pw_generate.specs.Machines.{machine_block};
ghost use Rattle.pw_generate.specs.Planned.{machine_containers, machine_cpus};

/// The objects of a machine that is generated tell of its containers and processors, and of nothing to
/// note: so its plan has them, and fails for want of memory alone (ACPI 6.5, 8.4).
pub fn generated_machines_have_plans()
    // No place is given twice.
    ensures distinct { (n : ℕ) → n ≤ MOST_CONTAINERS
        → IsDistinct (places_of (entries_in (machine_block n ∷ []))) }
    // No table is without a meaning, and no limit is passed.
    ensures planned { (n : ℕ) → n ≤ MOST_CONTAINERS
        → parts_within (entries_in (machine_block n ∷ [])) []
        ≡ Ok (record { containers = machine_containers n; cpus = machine_cpus n }, []) }
    ensures memory { (n : ℕ) (f : fault) → n ≤ MOST_CONTAINERS
        → IsFault f (parts_within (entries_in (machine_block n ∷ [])) []) → f ≡ Memory }
    // Each domain can be coordinated.
    ensures plan { (n : ℕ) (P : plan) (notes : List note) → n ≤ MOST_CONTAINERS
        → IsPlanFrom (entries_in (machine_block n ∷ [])) P notes
        → (P.containers ≡ machine_containers n) × (P.cpus ≡ machine_cpus n) × (notes ≡ []) }
{}

/// The load that is generated asks for processors that each plan with the machine's processors has, and
/// has no more lines and operations than a script may have.
pub fn generated_loads_fit()
    ensures fit { (n : ℕ) (P : plan) → P.cpus ≡ machine_cpus n
        → AllByRecursion (λ l. Has P l.request) (machine_load n).lines }
    ensures lines { (n : ℕ) → n ≤ MOST_CONTAINERS → length (machine_load n).lines ≤ MOST_LINES }
    ensures operations { (n : ℕ) (P : plan) → n ≤ MOST_CONTAINERS → P.cpus ≡ machine_cpus n
        → operations P (machine_load n).lines ≤ MOST_OPERATIONS }
{}
