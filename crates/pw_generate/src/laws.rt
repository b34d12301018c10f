//! What the definitions say of the machines and loads that are generated.

ghost use Rattle.std.specs.Prelude.{◌≡◌, ◌≤◌, ◌<◌, ◌*◌, ℕ, List, map, length};
ghost use Rattle.std.specs.List.{range_with_len};
ghost use Rattle.aml_data.specs.Segment.{IsSegment};
ghost use Rattle.aml_block.specs.Written.{IsInRange, IsWritableBlock};
ghost use Rattle.pw_plan.specs.declared.plan.Plan.{Plan};
ghost use Rattle.pw_script.specs.Asking.{CanBeAsked};
ghost use Rattle.pw_script.specs.Reading.{requests_of};
ghost use Rattle.pw_generate.specs.declared.tables.TheConstants.{MOST_CONTAINERS};
ghost use Rattle.pw_generate.specs.Loads.{load_lines};
ghost use Rattle.pw_generate.specs.Machines.{machine_block};
ghost use Rattle.pw_generate.specs.Names.{container_name, cpu_name};
ghost use Rattle.pw_generate.specs.Tables.{machine_header};

/// The names of containers and processors are segments, and tell their numbers (ACPI 6.5, 20.2.2).
pub fn names_tell_numbers()
    ensures container { (c : ℕ) → IsSegment (container_name c) }
    ensures cpu { (p : ℕ) → IsSegment (cpu_name p) }
    ensures one_container { (c d : ℕ) → c < 256 → d < 256 → container_name c ≡ container_name d → c ≡ d }
    ensures one_cpu { (p q : ℕ) → p < 4096 → q < 4096 → cpu_name p ≡ cpu_name q → p ≡ q }
{}

/// The block of at most 32 containers can be written, and the fields of its header are in their ranges
/// (ACPI 6.5, 5.2.6 and 20.2).
pub fn machines_are_writable()
    ensures block { (n : ℕ) → n ≤ MOST_CONTAINERS → IsWritableBlock (machine_block n) }
    ensures header { IsInRange machine_header }
{}

/// The lines of a load are numbered from 1, as many as the square of the processors, and can be asked of
/// a machine of so many processors.
pub fn loads_can_be_asked()
    ensures numbers { (cpus : ℕ) → map (λ l. l.number) (load_lines cpus) ≡ range_with_len 1 (cpus * cpus) }
    ensures asked { (P : Plan) → CanBeAsked P (requests_of (load_lines (length P.cpus))) }
{}
