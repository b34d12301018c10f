ghost use Rattle.std.specs.Prelude.{◌≡◌, ◌<◌, ◌≤◌, ◌^◌, length, map, IfOk};
ghost use Rattle.std.specs.List.{range_with_len};
ghost use Rattle.pw_plan.specs.Parts.{container_in, cpu_in};
ghost use Rattle.pw_plan.specs.Tree.{all_children, children_of};
ghost use Rattle.pw_plan.specs.Tree.{is_number, places_from};

use crate::domain::Child;
use crate::parts::{ContainerParts, CpuParts};
use pw_base::{List, Memory};
use std::alloc::Global;

/// The container of this number.
pub fn container_in(containers: &[ContainerParts], node: u32) -> &ContainerParts
    requires { node < length containers.now }
    ensures { result.now ≡ container_in containers.now node }
{
    &containers[node as usize]
}

/// The processor of this number.
pub fn cpu_in(cpus: &[CpuParts], cpu: u32) -> &CpuParts
    requires { cpu < length cpus.now }
    ensures { result.now ≡ cpu_in cpus.now cpu }
{
    &cpus[cpu as usize]
}

/// Whether a parent is the container of this number.
pub fn is_number(number: u32, parent: Option<u32>) -> bool
    ensures { result ≡ is_number number parent }
{
    match parent {
        None => false,
        Some(found) => found == number,
    }
}

/// The children of a container: its containers, then its processors.
fn children_of(
    alloc: Global,
    containers: &[ContainerParts],
    cpus: &[CpuParts],
    node: u32,
) -> Result<List<Child>, Memory>
    requires containers { length containers.now < 2 ^ 32 }
    requires cpus { length cpus.now < 2 ^ 32 }
    ensures { IfOk result (λ children. children ≡ children_of containers.now cpus.now node) }
{
    let mut children = Vec::new(alloc);
    'containers: for (number, container) in containers.iter().enumerate() {
        if is_number(node, container.parent) {
            children.push(Child::Container(number as u32))?;
        }
    }
    'cpus: for (number, cpu) in cpus.iter().enumerate() {
        if is_number(node, cpu.parent) {
            children.push(Child::Cpu(number as u32))?;
        }
    }
    Ok(List::from_vec(children))
}

/// The children of each container.
#[tactic(auto, using(crate::proofs::Ranges::range_next))]
pub fn all_children(
    alloc: Global,
    containers: &[ContainerParts],
    cpus: &[CpuParts],
) -> Result<List<List<Child>>, Memory>
    requires containers { length containers.now < 2 ^ 32 }
    requires cpus { length cpus.now < 2 ^ 32 }
    ensures { IfOk result (λ lists. lists ≡ all_children containers.now cpus.now) }
{
    let mut lists = Vec::new(alloc);
    for node in 0..containers.len() {
        lists.push(children_of(alloc, containers, cpus, node as u32)?)?;
    }
    Ok(List::from_vec(lists))
}
