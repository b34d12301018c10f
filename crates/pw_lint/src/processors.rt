//! What is found of containers and processors.

ghost use Rattle.std.specs.Prelude.{◌≡◌, ◌++◌, option_copied, IfOk, OnOk};
ghost use Rattle.std.specs.List.{flat_map};
ghost use Rattle.acpi_build.specs.Tables.{AreCountable};
ghost use Rattle.pw_plan.specs.declared.domain.DomainKind.TheVariants.{Perf, Throttle};
ghost use Rattle.pw_findings.specs.Scales.{latency_findings, rate_findings};
ghost use Rattle.pw_states.specs.CStates.{cst_findings};
ghost use Rattle.pw_lint.specs.Tables.{frequencies, p_states, percentages, t_states};
ghost use Rattle.pw_lint.specs.Machine.{container_findings, cpu_findings, cpu_idle_findings, device_findings};
ghost use Rattle.pw_lint.specs.Machine.{known_of, perf_findings, stateless};
ghost use Rattle.pw_lint.specs.Machine.{throttle_findings, unlimited, unused_perf, unused_throttle};
ghost use Rattle.pw_lint.specs.Machine.{used_c_states};

use crate::devices::{find_status, find_unnamed};
use crate::reading::{
    c_states, frequencies, is_known, p_states, path_below, percentages, registers, stands, t_states,
};
use acpi_space::Space;
use acpi_values::{CState, PState, TState};
use aml_data::{FullPath, Seg};
use pw_base::Memory;
use pw_findings::{
    Finding, FindingKind, Known, OfLimit, OfObject, Unused, add_when, find_in_scale, find_shared,
    find_two_spaces, first_declaring,
};
use pw_plan::{ContainerParts, CpuParts, DomainKind};
use pw_states::{
    around, find_beside_parent, find_counted, find_hasty, find_in_cpc, find_in_cst, find_in_idle,
    find_in_rates, find_integers, first_with_cst, has_cst,
};
use std::alloc::Global;

/// Adds what is found of a container.
#[tactic(auto, unfolding(crate::specs::Machine::container_findings))]
fn find_in_container(
    alloc: Global,
    space: &Space<'_>,
    containers: &[ContainerParts],
    container: &ContainerParts,
    found: &mut Vec<Finding>,
) -> Result<(), Memory>
    requires { AreCountable space.now }
    ensures { OnOk result (found.new.items ≡ found.old.items
        ++ container_findings space.now containers.now container.now) }
{
    let path = &container.path;
    let parent = around(containers, container.parent);
    let known = is_known(alloc, space, path, Seg::of_segment(*b"_LPI"))?;
    find_status(alloc, space, path, found)?;
    find_in_idle(alloc, path, &container.idle, found)?;
    find_beside_parent(alloc, path, known, parent, &container.idle, found)
}

/// Adds what is found of containers.
pub(crate) fn find_in_containers(
    alloc: Global,
    space: &Space<'_>,
    containers: &[ContainerParts],
    found: &mut Vec<Finding>,
) -> Result<(), Memory>
    requires { AreCountable space.now }
    ensures { OnOk result (found.new.items ≡ found.old.items
        ++ flat_map (container_findings space.now containers.now) containers.now) }
{
    for container in containers {
        find_in_container(alloc, space, containers, container, found)?;
    }
    Ok(())
}

/// The C states that a processor idles in, none where it has others.
fn used_c_states(alloc: Global, space: &Space<'_>, cpu: &CpuParts) -> Result<Vec<CState>, Memory>
    requires { AreCountable space.now }
    ensures { IfOk result (λ r. r.items ≡ used_c_states space.now cpu.now) }
{
    if has_cst(cpu) {
        return c_states(alloc, space, &cpu.path);
    }
    Ok(Vec::new(alloc))
}

/// Adds what is found of the C states that a processor idles in.
fn find_in_c_states(
    alloc: Global,
    space: &Space<'_>,
    cpu: &CpuParts,
    found: &mut Vec<Finding>,
) -> Result<(), Memory>
    requires { AreCountable space.now }
    ensures { OnOk result (found.new.items ≡ found.old.items
        ++ cst_findings cpu.now.path (used_c_states space.now cpu.now)) }
{
    let states = used_c_states(alloc, space, cpu)?;
    find_in_cst(alloc, &cpu.path, &states, found)
}

/// Adds what is found of a processor's idle states, beside the first that has C states.
#[tactic(auto, unfolding(crate::specs::Machine::cpu_idle_findings))]
fn find_in_cpu_idle(
    alloc: Global,
    space: &Space<'_>,
    containers: &[ContainerParts],
    first: Option<&CpuParts>,
    cpu: &CpuParts,
    found: &mut Vec<Finding>,
) -> Result<(), Memory>
    requires { AreCountable space.now }
    ensures { OnOk result (found.new.items ≡ found.old.items
        ++ cpu_idle_findings space.now containers.now (option_copied first.entry) cpu.now) }
{
    let parent = around(containers, cpu.parent);
    let known = is_known(alloc, space, &cpu.path, Seg::of_segment(*b"_LPI"))?;
    find_in_idle(alloc, &cpu.path, &cpu.idle, found)?;
    find_counted(alloc, cpu, first, found)?;
    find_in_c_states(alloc, space, cpu, found)?;
    find_integers(alloc, &cpu.path, &cpu.idle, found)?;
    find_beside_parent(alloc, &cpu.path, known, parent, &cpu.idle, found)
}

/// Adds that an object speaks of states, where there is no use for it.
fn find_stateless(
    alloc: Global,
    space: &Space<'_>,
    path: &FullPath,
    kind: DomainKind,
    used: bool,
    seg: Seg,
    found: &mut Vec<Finding>,
) -> Result<(), Memory>
    ensures { OnOk result (found.new.items ≡ found.old.items ++ stateless space.now path.now kind used seg) }
{
    let unused = stands(alloc, space, path, seg)? && !used;
    let table = path_below(alloc, path, seg)?;
    let amiss = OfObject::Unused(Unused::NoStates(kind));
    add_when(alloc, unused, &table, FindingKind::Object(amiss), found)
}

/// Adds that `_PCT` or `_PSD` stands without a `_PSS`, and `_PSD` without a `_CPC`.
#[tactic(auto, unfolding(crate::specs::Machine::unused_perf))]
fn find_unused_perf(
    alloc: Global,
    space: &Space<'_>,
    path: &FullPath,
    found: &mut Vec<Finding>,
) -> Result<(), Memory>
    ensures { OnOk result (found.new.items ≡ found.old.items ++ unused_perf space.now path.now) }
{
    let kind = DomainKind::Perf;
    let pss = stands(alloc, space, path, Seg::of_segment(*b"_PSS"))?;
    let cpc = stands(alloc, space, path, Seg::of_segment(*b"_CPC"))?;
    let pct = Seg::of_segment(*b"_PCT");
    let psd = Seg::of_segment(*b"_PSD");
    find_stateless(alloc, space, path, kind, pss, pct, found)?;
    find_stateless(alloc, space, path, kind, pss || cpc, psd, found)
}

/// Adds that `_PTC` or `_TSD` stands without a `_TSS`.
#[tactic(auto, unfolding(crate::specs::Machine::unused_throttle))]
fn find_unused_throttle(
    alloc: Global,
    space: &Space<'_>,
    path: &FullPath,
    found: &mut Vec<Finding>,
) -> Result<(), Memory>
    ensures { OnOk result (found.new.items ≡ found.old.items ++ unused_throttle space.now path.now) }
{
    let kind = DomainKind::Throttle;
    let tss = stands(alloc, space, path, Seg::of_segment(*b"_TSS"))?;
    let ptc = Seg::of_segment(*b"_PTC");
    let tsd = Seg::of_segment(*b"_TSD");
    find_stateless(alloc, space, path, kind, tss, ptc, found)?;
    find_stateless(alloc, space, path, kind, tss, tsd, found)
}

/// Adds that throttling states have no `_TPC`.
#[tactic(auto, unfolding(crate::specs::Machine::unlimited))]
fn find_unlimited(
    alloc: Global,
    space: &Space<'_>,
    cpu: &CpuParts,
    found: &mut Vec<Finding>,
) -> Result<(), Memory>
    ensures { OnOk result (found.new.items ≡ found.old.items ++ unlimited space.now cpu.now) }
{
    let limited = stands(alloc, space, &cpu.path, Seg::of_segment(*b"_TPC"))?;
    let absent = cpu.throttle.is_some() && !limited;
    let kind = FindingKind::Limit {
        kind: DomainKind::Throttle,
        of: OfLimit::Absent,
    };
    add_when(alloc, absent, &cpu.path, kind, found)
}

/// Whether it is known what stands for a control register and for a domain, by these names.
fn known_of(
    alloc: Global,
    space: &Space<'_>,
    path: &FullPath,
    register: Seg,
    domain: Seg,
) -> Result<Known, Memory>
    ensures { IfOk result (λ k. k ≡ known_of space.now path.now register domain) }
{
    Ok(Known {
        register: is_known(alloc, space, path, register)?,
        domain: is_known(alloc, space, path, domain)?,
    })
}

/// Adds what is found of how fast performance states are, and how fast one changes to them.
fn find_of_p_states(
    alloc: Global,
    path: &FullPath,
    states: &[PState],
    found: &mut Vec<Finding>,
) -> Result<(), Memory>
    ensures { OnOk result (found.new.items ≡ found.old.items
        ++ (rate_findings Perf path.now (frequencies states.now) ++ latency_findings path.now states.now)) }
{
    let rates = frequencies(alloc, states)?;
    find_in_rates(alloc, DomainKind::Perf, path, &rates, found)?;
    find_hasty(alloc, path, states, found)
}

/// Adds what is found of those of `_PSS` below a path.
fn find_in_p_states(
    alloc: Global,
    space: &Space<'_>,
    path: &FullPath,
    found: &mut Vec<Finding>,
) -> Result<(), Memory>
    requires { AreCountable space.now }
    ensures { OnOk result (found.new.items ≡ found.old.items
        ++ (rate_findings Perf path.now (frequencies (p_states space.now path.now))
        ++ latency_findings path.now (p_states space.now path.now))) }
{
    let states = p_states(alloc, space, path)?;
    find_of_p_states(alloc, path, &states, found)
}

/// Adds what is found of a processor's performance states.
#[tactic(auto, unfolding(crate::specs::Machine::perf_findings))]
fn find_in_perf(
    alloc: Global,
    space: &Space<'_>,
    cpu: &CpuParts,
    declaring: Option<&CpuParts>,
    found: &mut Vec<Finding>,
) -> Result<(), Memory>
    requires { AreCountable space.now }
    ensures { OnOk result (found.new.items ≡ found.old.items
        ++ perf_findings space.now (option_copied declaring.entry) cpu.now) }
{
    let pct = Seg::of_segment(*b"_PCT");
    let psd = Seg::of_segment(*b"_PSD");
    let known = known_of(alloc, space, &cpu.path, pct, psd)?;
    let pair = registers(alloc, space, &cpu.path)?;
    find_in_scale(alloc, DomainKind::Perf, cpu, known, declaring, found)?;
    find_two_spaces(alloc, &cpu.path, pair, found)?;
    find_in_p_states(alloc, space, &cpu.path, found)?;
    find_unused_perf(alloc, space, &cpu.path, found)
}

/// Adds what is found of how fast throttling states are.
fn find_of_t_states(
    alloc: Global,
    path: &FullPath,
    states: &[TState],
    found: &mut Vec<Finding>,
) -> Result<(), Memory>
    ensures { OnOk result (found.new.items ≡ found.old.items
        ++ rate_findings Throttle path.now (percentages states.now)) }
{
    let rates = percentages(alloc, states)?;
    find_in_rates(alloc, DomainKind::Throttle, path, &rates, found)
}

/// Adds what is found of those of `_TSS` below a path.
fn find_in_t_states(
    alloc: Global,
    space: &Space<'_>,
    path: &FullPath,
    found: &mut Vec<Finding>,
) -> Result<(), Memory>
    requires { AreCountable space.now }
    ensures { OnOk result (found.new.items ≡ found.old.items
        ++ rate_findings Throttle path.now (percentages (t_states space.now path.now))) }
{
    let states = t_states(alloc, space, path)?;
    find_of_t_states(alloc, path, &states, found)
}

/// Adds what is found of a processor's throttling states.
#[tactic(auto, unfolding(crate::specs::Machine::throttle_findings))]
fn find_in_throttle(
    alloc: Global,
    space: &Space<'_>,
    cpu: &CpuParts,
    declaring: Option<&CpuParts>,
    found: &mut Vec<Finding>,
) -> Result<(), Memory>
    requires { AreCountable space.now }
    ensures { OnOk result (found.new.items ≡ found.old.items
        ++ throttle_findings space.now (option_copied declaring.entry) cpu.now) }
{
    let ptc = Seg::of_segment(*b"_PTC");
    let tsd = Seg::of_segment(*b"_TSD");
    let known = known_of(alloc, space, &cpu.path, ptc, tsd)?;
    find_in_scale(alloc, DomainKind::Throttle, cpu, known, declaring, found)?;
    find_shared(alloc, cpu, found)?;
    find_unlimited(alloc, space, cpu, found)?;
    find_in_t_states(alloc, space, &cpu.path, found)?;
    find_unused_throttle(alloc, space, &cpu.path, found)
}

/// Adds what is found of a processor as a device.
fn find_in_device(
    alloc: Global,
    space: &Space<'_>,
    path: &FullPath,
    found: &mut Vec<Finding>,
) -> Result<(), Memory>
    requires { AreCountable space.now }
    ensures { OnOk result (found.new.items ≡ found.old.items ++ device_findings space.now path.now) }
{
    find_status(alloc, space, path, found)?;
    find_unnamed(alloc, space, path, found)
}

/// Adds what is found of a processor.
#[tactic(auto, unfolding(crate::specs::Machine::cpu_findings))]
fn find_in_cpu(
    alloc: Global,
    space: &Space<'_>,
    containers: &[ContainerParts],
    cpus: &[CpuParts],
    cpu: &CpuParts,
    found: &mut Vec<Finding>,
) -> Result<(), Memory>
    requires { AreCountable space.now }
    ensures { OnOk result (found.new.items ≡ found.old.items
        ++ cpu_findings space.now containers.now cpus.now cpu.now) }
{
    let perf = first_declaring(DomainKind::Perf, cpus);
    let throttle = first_declaring(DomainKind::Throttle, cpus);
    let first = first_with_cst(cpus);
    find_in_device(alloc, space, &cpu.path, found)?;
    find_in_cpu_idle(alloc, space, containers, first, cpu, found)?;
    find_in_perf(alloc, space, cpu, perf, found)?;
    find_in_throttle(alloc, space, cpu, throttle, found)?;
    find_in_cpc(alloc, &cpu.path, &cpu.cpc, found)
}

/// Adds what is found of processors.
pub(crate) fn find_in_cpus(
    alloc: Global,
    space: &Space<'_>,
    containers: &[ContainerParts],
    cpus: &[CpuParts],
    found: &mut Vec<Finding>,
) -> Result<(), Memory>
    requires { AreCountable space.now }
    ensures { OnOk result (found.new.items ≡ found.old.items
        ++ flat_map (cpu_findings space.now containers.now cpus.now) cpus.now) }
{
    for cpu in cpus {
        find_in_cpu(alloc, space, containers, cpus, cpu, found)?;
    }
    Ok(())
}
