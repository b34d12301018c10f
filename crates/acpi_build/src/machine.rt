//! The parts of the plan: containers and processors with their tables.

ghost use Rattle.std.specs.Prelude.{◌≡◌, ◌<◌, [], List, length, map, IfOk};
ghost use Rattle.std.specs.List.{All};
ghost use Rattle.acpi_space.specs.Lookup.{path_in};
ghost use Rattle.acpi_build.specs.Building.{each};
ghost use Rattle.acpi_build.specs.inner.Answers.{Builds};
ghost use Rattle.acpi_build.specs.Finding.{containers_of, parent_of, processors_of};
ghost use Rattle.acpi_build.specs.Tables.{AreCountable};
ghost use Rattle.acpi_build.specs.Machine.{container_parts, cpu_parts, parts_of};
ghost use Rattle.pw_plan.specs.Parts.{PartsFit};
ghost use Rattle.acpi_build.specs.inner.Fitting.{AreContainers, AreCpus, AreParents, FitsAlone};

use crate::finding::{containers, parents, processors};
use crate::idle::{idle_states, read_idle};
use crate::said::Said;
use crate::scales::{read_perf, read_throttle};
use crate::tables::{find_cpc, find_lpi};
use acpi_space::Space;
use pw_base::Memory;
use pw_plan::{ContainerParts, CpuParts};
use std::alloc::Global;

/// What is read of a container.
#[tactic(auto, unfolding(crate::specs::Machine::container_parts))]
fn read_container(
    alloc: Global,
    space: &Space,
    index: usize,
    parent: Option<u32>,
    said: &mut Said,
) -> Result<ContainerParts, Memory>
    requires within { index < length space.now }
    requires countable { AreCountable space.now }
    requires parent { parent ≡ parent_of space.now index }
    ensures value { Builds (λ c. c) result said.old said.new (container_parts space.now index) }
    ensures parent { IfOk result (λ c. c.parent ≡ parent) }
{
    let lpi = find_lpi(alloc, space, index, said)?;
    let path = space.path(alloc, index)?;
    let idle = idle_states(alloc, &lpi, &None)?;
    Ok(ContainerParts { path, parent, idle })
}

/// What is read of a processor.
#[tactic(auto, unfolding(crate::specs::Machine::cpu_parts))]
fn read_cpu(
    alloc: Global,
    space: &Space,
    index: usize,
    parent: Option<u32>,
    said: &mut Said,
) -> Result<CpuParts, Memory>
    requires within { index < length space.now }
    requires countable { AreCountable space.now }
    requires parent { parent ≡ parent_of space.now index }
    ensures value { Builds (λ c. c) result said.old said.new (cpu_parts space.now index) }
    ensures path { IfOk result (λ c. c.path ≡ record { segs = path_in space.now index }) }
    ensures parent { IfOk result (λ c. c.parent ≡ parent) }
    ensures fit { IfOk result FitsAlone }
{
    let (idle, csd) = read_idle(alloc, space, index, said)?;
    let perf = read_perf(alloc, space, index, said)?;
    let throttle = read_throttle(alloc, space, index, said)?;
    let cpc = find_cpc(alloc, space, index, said)?;
    let path = space.path(alloc, index)?;
    Ok(CpuParts {
        path,
        parent,
        idle,
        csd,
        perf,
        throttle,
        cpc,
    })
}

/// The containers, in their order.
fn read_containers(
    alloc: Global,
    space: &Space,
    order: &[usize],
    parents: &[Option<u32>],
    said: &mut Said,
) -> Result<Vec<ContainerParts>, Memory>
    requires countable { AreCountable space.now }
    requires within { All (λ k. k < length space.now) order.now }
    requires parents { AreParents space.now parents.now }
    ensures value { Builds (λ v. v.items) result said.old said.new
        (each (container_parts space.now) order.now) }
    ensures parts { IfOk result (λ v. AreContainers space.now order.now v.items) }
{
    let mut containers = Vec::new(alloc);
    for index in order {
        let container = read_container(alloc, space, *index, parents[*index], said)?;
        containers.push(container)?;
    }
    Ok(containers)
}

/// The processors, in their order.
fn read_cpus(
    alloc: Global,
    space: &Space,
    order: &[usize],
    parents: &[Option<u32>],
    said: &mut Said,
) -> Result<Vec<CpuParts>, Memory>
    requires countable { AreCountable space.now }
    requires within { All (λ k. k < length space.now) order.now }
    requires parents { AreParents space.now parents.now }
    ensures value { Builds (λ v. v.items) result said.old said.new
        (each (cpu_parts space.now) order.now) }
    ensures parts { IfOk result (λ v. AreCpus space.now order.now v.items) }
{
    let mut cpus = Vec::new(alloc);
    for index in order {
        let cpu = read_cpu(alloc, space, *index, parents[*index], said)?;
        cpus.push(cpu)?;
    }
    Ok(cpus)
}

/// What is read of the containers, and then of the processors. These parts fit together.
#[tactic(auto, unfolding(crate::specs::Machine::parts_of))]
pub(crate) fn read_parts(
    alloc: Global,
    space: &Space,
    said: &mut Said,
) -> Result<(Vec<ContainerParts>, Vec<CpuParts>), Memory>
    requires countable { AreCountable space.now }
    ensures value { Builds (λ r. record { containers = r.0.items; cpus = r.1.items })
        result said.old said.new (parts_of space.now) }
    ensures fit { IfOk result (λ r. PartsFit r.0.items r.1.items) }
{
    let _objects = space.placed();
    let outer = containers(alloc, space)?;
    let order = outer.as_slice();
    let around = parents(alloc, space, order)?;
    let parents = around.as_slice();
    let declared = processors(alloc, space)?;
    let numbers = declared.as_slice();
    let containers = read_containers(alloc, space, order, parents, said)?;
    let cpus = read_cpus(alloc, space, numbers, parents, said)?;
    Ok((containers, cpus))
}
