ghost use Rattle.std.specs.Prelude.{◌≡◌, ◌↔◌, ◌<◌, ◌≢◌, ℕ, Some, length, true, false, IsTrue, if◌then◌else◌};
ghost use Rattle.pw_plan.specs.inner.DomainList.{is_before};
ghost use Rattle.pw_plan.specs.inner.EntryTables.{name_from};
ghost use Rattle.pw_plan.specs.inner.Paths.{is_path_before};
ghost use Rattle.std.specs.List.{list_any};
ghost use Rattle.acpi_values.specs.declared.idle.IdleKind.TheVariants.{Cst};
ghost use Rattle.pw_plan.specs.Parts.{FitsCsd, ParentsFall, PartsFit, container_in};
ghost use Rattle.pw_plan.specs.Parts.{cpu_in, entry_in, has_states};
ghost use Rattle.pw_plan.specs.Parts.{is_below, is_entry};

use crate::domains::{DomainName, is_entry};
use crate::parts::{ContainerParts, CpuParts, Scale};
use acpi_values::{CDependency, IdleKind};
use aml_data::Seg;
use std::cmp::Ordering;

/// Whether a parent's number is below this one.
fn is_below(bound: usize, parent: Option<u32>) -> bool
    ensures { result ≡ is_below bound parent }
{
    match parent {
        None => true,
        Some(number) => (number as usize) < bound,
    }
}

/// Whether each container's parent stands before it.
fn parents_fall(containers: &[ContainerParts]) -> bool
    ensures { IsTrue result ↔ ParentsFall containers.now }
{
    for (number, container) in containers.iter().enumerate() {
        if !is_below(number, container.parent) {
            return false;
        }
    }
    true
}

/// Whether there is no scale, or one with a state.
fn has_states(scale: &Option<Scale>) -> bool
    ensures { result ≡ has_states scale.now }
{
    match scale {
        None => true,
        Some(found) => !found.controls.as_slice().is_empty(),
    }
}

/// Whether two processors have the same path.
fn same_path(one: &CpuParts, other: &CpuParts) -> bool
    ensures { IsTrue result ↔ (one.now.path ≡ other.now.path) }
{
    one.path.segs.as_slice() == other.path.segs.as_slice()
}

/// Whether an entry of `_CSD` stands among these.
fn is_repeated(entry: CDependency, others: &[CDependency]) -> bool
    ensures { result ≡ list_any (is_entry entry.domain entry.index) others.now }
{
    for other in others {
        if is_entry(
            DomainName {
                number: entry.domain,
                index: entry.index,
            },
            other,
        ) {
            return true;
        }
    }
    false
}

/// An entry of `_CSD`.
fn entry_in(csd: &[CDependency], number: usize) -> CDependency
    requires { number < length csd.now }
    ensures { result ≡ entry_in csd.now number }
{
    csd[number]
}

/// Whether an entry of `_CSD` is about a C state that the processor has.
fn is_state(cpu: &CpuParts, entry: CDependency) -> bool
    ensures { IsTrue result ↔ ((cpu.now.idle.kind ≡ Cst) × (entry.index < length cpu.now.idle.rows)) }
{
    matches!(cpu.idle.kind, IdleKind::Cst)
        && (entry.index as usize) < cpu.idle.rows.as_slice().len()
}

/// What an entry of `_CSD` is about.
fn name_from(entry: CDependency) -> DomainName
    ensures { result ≡ name_from entry }
{
    DomainName {
        number: entry.domain,
        index: entry.index,
    }
}

/// Whether a name comes before another.
fn is_before(one: DomainName, other: DomainName) -> bool
    ensures { result ≡ is_before one other }
{
    one.number < other.number || (one.number == other.number && one.index < other.index)
}

/// Whether an entry of `_CSD` repeats none before it. None of those comes after `greatest`: an entry
/// that does is new, and no other need be looked at.
fn is_new(csd: &[CDependency], number: usize, greatest: DomainName) -> bool
    requires number { number < length csd.now }
    requires greatest { (k : ℕ) → k < number
        → is_before greatest (name_from (entry_in csd.now k)) ≡ false }
    ensures { IsTrue result ↔ ((j : ℕ) → j < number
        → is_entry (entry_in csd.now j).domain (entry_in csd.now j).index (entry_in csd.now number) ≡ false) }
{
    let entry = entry_in(csd, number);
    if is_before(greatest, name_from(entry)) {
        return true;
    }
    !is_repeated(entry, &csd[..number])
}

/// The later of two names.
fn later(one: DomainName, other: DomainName) -> DomainName
    ensures { result ≡ (if is_before one other then other else one) }
{
    if is_before(one, other) { other } else { one }
}

/// Whether the entries of `_CSD` are about states that the processor has, and no two about the same.
fn fits_csd(cpu: &CpuParts) -> bool
    ensures { IsTrue result ↔ FitsCsd cpu.now }
{
    let csd = cpu.csd.as_slice();
    let mut greatest = DomainName {
        number: 0,
        index: 0,
    };
    for number in 0..csd.len() {
        let entry = entry_in(csd, number);
        if !is_state(cpu, entry) {
            return false;
        }
        if !is_new(csd, number, greatest) {
            return false;
        }
        greatest = later(greatest, name_from(entry));
    }
    true
}

/// Whether a path comes before another, by their segments in order.
fn is_path_before(one: &[Seg], other: &[Seg]) -> bool
    ensures { result ≡ is_path_before one.now other.now }
{
    one.cmp(other) == Ordering::Less
}

/// Whether no processor before this one has its path.
fn is_path_new(cpus: &[CpuParts], number: usize) -> bool
    requires { number < length cpus.now }
    ensures { IsTrue result ↔ ((p : ℕ) → p < number
        → (cpu_in cpus.now p).path ≢ (cpu_in cpus.now number).path) }
{
    for other in 0..number {
        if same_path(&cpus[other], &cpus[number]) {
            return false;
        }
    }
    true
}

/// Whether no two processors have one path. None of the paths before one comes after `greatest`: a
/// path that does is new, and no other need be looked at.
fn paths_differ(cpus: &[CpuParts]) -> bool
    ensures { IsTrue result ↔ ((p q : ℕ) → p < q → q < length cpus.now
        → (cpu_in cpus.now p).path ≢ (cpu_in cpus.now q).path) }
{
    let mut greatest: &[Seg] = &[];
    for (number, cpu) in cpus.iter().enumerate() {
        let path = cpu.path.segs.as_slice();
        if is_path_before(greatest, path) {
            greatest = path;
        } else if !is_path_new(cpus, number) {
            return false;
        }
    }
    true
}

/// Whether parts fit together to a plan: each parent is the number of a container, and less than a
/// container's own; no two processors have one path; no scale is without a state; each entry of `_CSD`
/// is about a C state of its processor, and no two of one are about the same domain and state.
pub fn parts_ok(containers: &[ContainerParts], cpus: &[CpuParts]) -> bool
    ensures { IsTrue result ↔ PartsFit containers.now cpus.now }
{
    if !parents_fall(containers) {
        return false;
    }
    for cpu in cpus {
        if !is_below(containers.len(), cpu.parent)
            || !has_states(&cpu.perf)
            || !has_states(&cpu.throttle)
            || !fits_csd(cpu)
        {
            return false;
        }
    }
    paths_differ(cpus)
}
