ghost use Rattle.std.specs.Prelude.{◌≡◌, ◌<◌, ◌≤◌, ◌∷◌, [], length};
ghost use Rattle.pw_plan.specs.Parts.{ParentsFall};
ghost use Rattle.pw_plan.specs.Limits.{in_32_bits, child_counts, depths, first_above};
ghost use Rattle.pw_plan.specs.Limits.{limit_passed, table_counts};
ghost use Rattle.pw_plan.specs.Tree.{children_of, depth_of};

use crate::domain::DomainKind;
use crate::fault::PlanFault;
use crate::parts::{ContainerParts, CpuParts};
use crate::tree::{container_in, is_number};

/// A count in 32 bits. One that is greater stands at their end.
pub fn in_32_bits(count: usize) -> u32
    ensures { result ≡ in_32_bits count }
{
    if count < u32::MAX as usize {
        count as u32
    } else {
        u32::MAX
    }
}

/// A count, where it is above a bound.
fn above(bound: usize, count: usize) -> Option<u32>
    ensures { result ≡ first_above bound (count ∷ []) }
{
    if bound < count {
        Some(in_32_bits(count))
    } else {
        None
    }
}

/// How deep a container stands, 1 being outermost.
fn depth_of(containers: &[ContainerParts], node: u32) -> usize
    requires node { node < length containers.now }
    requires fall { ParentsFall containers.now }
    ensures { result ≡ depth_of containers.now node }
{
    let mut depth = 0;
    let mut next = Some(node);
    while let Some(number) = next {
        depth += 1;
        next = container_in(containers, number).parent;
    }
    depth
}

/// The first depth of a container that is above 8.
#[tactic(auto, using(crate::proofs::Ranges::range_next))]
fn deep(containers: &[ContainerParts]) -> Option<u32>
    requires few { length containers.now ≤ 256 }
    requires fall { ParentsFall containers.now }
    ensures { result ≡ first_above 8 (depths containers.now) }
{
    for node in 0..containers.len() {
        let depth = depth_of(containers, node as u32);
        if depth > 8 {
            return Some(in_32_bits(depth));
        }
    }
    None
}

/// How many children a container has.
fn child_count(containers: &[ContainerParts], cpus: &[CpuParts], node: u32) -> usize
    requires containers { length containers.now ≤ 256 }
    requires cpus { length cpus.now ≤ 256 }
    ensures { result ≡ length (children_of containers.now cpus.now node) }
{
    let mut count = 0;
    for container in containers {
        if is_number(node, container.parent) {
            count += 1;
        }
    }
    for cpu in cpus {
        if is_number(node, cpu.parent) {
            count += 1;
        }
    }
    count
}

/// The first count of a container's children that is above 255.
#[tactic(auto, using(crate::proofs::Ranges::range_next))]
fn crowded(containers: &[ContainerParts], cpus: &[CpuParts]) -> Option<u32>
    requires containers { length containers.now ≤ 256 }
    requires cpus { length cpus.now ≤ 256 }
    ensures { result ≡ first_above 255 (child_counts containers.now cpus.now) }
{
    for node in 0..containers.len() {
        let count = child_count(containers, cpus, node as u32);
        if count > 255 {
            return Some(in_32_bits(count));
        }
    }
    None
}

/// The first count of a table's states that is above 255.
fn long(containers: &[ContainerParts], cpus: &[CpuParts]) -> Option<u32>
    ensures { result ≡ first_above 255 (table_counts containers.now cpus.now) }
{
    for container in containers {
        let count = container.idle.states().len();
        if count > 255 {
            return Some(in_32_bits(count));
        }
    }
    for cpu in cpus {
        let idle = cpu.idle.states().len();
        if idle > 255 {
            return Some(in_32_bits(idle));
        }
        let perf = cpu.state_count(DomainKind::Perf);
        if perf > 255 {
            return Some(in_32_bits(perf));
        }
        let throttle = cpu.state_count(DomainKind::Throttle);
        if throttle > 255 {
            return Some(in_32_bits(throttle));
        }
    }
    None
}

/// The limit that the parts pass, the least one first.
pub fn limit_passed(containers: &[ContainerParts], cpus: &[CpuParts]) -> Option<PlanFault>
    requires { ParentsFall containers.now }
    ensures { result ≡ limit_passed containers.now cpus.now }
{
    if let Some(number) = above(256, containers.len()) {
        return Some(PlanFault::Limit { which: 1, number });
    }
    if let Some(number) = above(256, cpus.len()) {
        return Some(PlanFault::Limit { which: 2, number });
    }
    if let Some(number) = deep(containers) {
        return Some(PlanFault::Limit { which: 3, number });
    }
    if let Some(number) = crowded(containers, cpus) {
        return Some(PlanFault::Limit { which: 4, number });
    }
    if let Some(number) = long(containers, cpus) {
        return Some(PlanFault::Limit { which: 5, number });
    }
    None
}
