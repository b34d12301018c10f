ghost use Rattle.std.specs.Prelude.{◌≡◌, List, IfOk};
ghost use Rattle.acpi_space.specs.Things.{thing};
ghost use Rattle.acpi_perf.specs.Meaning.{DomainMeans};
ghost use Rattle.acpi_build.specs.declared.note.Note.{Note};
ghost use Rattle.acpi_build.specs.Planning.{IsPlanFrom};
ghost use Rattle.acpi_build.specs.Sources.{IsTable};
ghost use Rattle.pw_cppc.specs.Machine.{dependency_place, AreCppcParts, IsCppcOf};
ghost use Rattle.pw_cppc.specs.inner.Reading.{dependency_in, IsRead};

use crate::CppcParts;
use acpi_build::tables_are_meant;
use acpi_perf::read_dependency;
use acpi_space::{Object, Space};
use acpi_values::{Cpc, Dependency};
use aml_data::{Seg, Width};
use pw_base::{List, Memory};
use pw_plan::{CpuParts, Plan};
use std::alloc::Global;

/// `_CPC` equal to this one.
fn copied(alloc: Global, cpc: &Cpc) -> Result<Cpc, Memory>
    ensures { IfOk result (λ copy. copy ≡ cpc.now) }
{
    let entries = Vec::from_slice(alloc, cpc.entries.as_slice())?;
    Ok(Cpc {
        revision: cpc.revision,
        entries: List::from_vec(entries),
    })
}

/// `_CPC` equal to this one, where there is one.
fn copied_where_given(alloc: Global, cpc: &Option<Cpc>) -> Result<Option<Cpc>, Memory>
    ensures { IfOk result (λ copy. copy ≡ cpc.now) }
{
    match cpc {
        None => Ok(None),
        Some(cpc) => Ok(Some(copied(alloc, cpc)?)),
    }
}

/// What a data object means as `_PSD`; none of any other object.
fn dependency_in(object: Object, width: Width) -> Option<Dependency>
    ensures { result ≡ dependency_in width (thing object.entry) }
{
    match object {
        Object::Data(data) => read_dependency(data, width).ok(),
        Object::Device | Object::Processor | Object::Method | Object::Alias(_) => None,
    }
}

/// What `_PSD` of a processor means, where a data object stands there. It takes no memory.
fn dependency_of(space: &Space<'_>, cpu: &CpuParts) -> Option<Dependency>
    requires { IsRead space.now cpu.now }
    ensures { IsTable DomainMeans space.now (dependency_place cpu.now) result }
{
    let _objects = space.placed();
    let processor = space.find(&cpu.path)?;
    let placed = space.find_below(processor.index, Seg::of_segment(*b"_PSD"))?;
    dependency_in(placed.object, placed.width)
}

/// The parts of a processor.
fn parts_of(alloc: Global, space: &Space<'_>, cpu: &CpuParts) -> Result<CppcParts, Memory>
    requires { IsRead space.now cpu.now }
    ensures { IfOk result (IsCppcOf space.now cpu.now) }
{
    let cpc = copied_where_given(alloc, &cpu.cpc)?;
    let dependency = dependency_of(space, cpu);
    Ok(CppcParts { cpc, dependency })
}

/// What the objects say of the continuous performance of the plan's processors, in their order: `_CPC`
/// as the plan has it, and `_PSD`, whether they have performance states or not (ACPI 6.5, 8.4.6.1 and
/// 8.4.5.5). The plan is that of these objects.
pub fn cppc_parts(alloc: Global, space: &Space<'_>, plan: &Plan) -> Result<Vec<CppcParts>, Memory>
    requires planned { (notes : List Note) × IsPlanFrom space.now plan.now notes }
    ensures { IfOk result (λ parts. AreCppcParts space.now plan.now parts.items) }
{
    let _objects = space.placed();
    tables_are_meant();
    let mut parts = Vec::new(alloc);
    for cpu in plan.cpus.as_slice() {
        parts.push(parts_of(alloc, space, cpu)?)?;
    }
    Ok(parts)
}
