ghost use Rattle.std.specs.Prelude.{◌≡◌, map, List, IfOk};
ghost use Rattle.acpi_build.specs.declared.note.Note.{Note};
ghost use Rattle.acpi_build.specs.Planning.{IsPlanFrom};
ghost use Rattle.pw_plan.specs.declared.parts.CpuParts.{CpuParts as cpu};
ghost use Rattle.pw_cppc.specs.Machine.{AreCppcParts};

use crate::CppcPlan;
use crate::reading::cppc_parts;
use acpi_space::Space;
use aml_data::{FullPath, copy_full_path};
use pw_base::Memory;
use pw_plan::Plan;
use std::alloc::Global;

/// The paths of a machine's processors.
fn paths_of(alloc: Global, machine: &Plan) -> Result<Vec<FullPath>, Memory>
    ensures { IfOk result (λ paths. paths.items ≡ map (λ (c : cpu). c.path) machine.now.cpus) }
{
    let mut paths = Vec::new(alloc);
    for cpu in machine.cpus.as_slice() {
        paths.push(copy_full_path(alloc, &cpu.path)?)?;
    }
    Ok(paths)
}

/// The plan of the performance of a machine's processors (ACPI 6.5, 8.4.6.1). The machine is that of
/// these objects.
pub fn cppc_plan(alloc: Global, space: &Space<'_>, machine: &Plan) -> Result<CppcPlan, Memory>
    requires planned { (notes : List Note) × IsPlanFrom space.now machine.now notes }
    ensures paths { IfOk result (λ plan. plan.paths ≡ map (λ (c : cpu). c.path) machine.now.cpus) }
    ensures parts { IfOk result (λ plan. AreCppcParts space.now machine.now plan.cpus) }
{
    let paths = paths_of(alloc, machine)?;
    let cpus = cppc_parts(alloc, space, machine)?;
    CppcPlan::new(alloc, paths, cpus)
}
