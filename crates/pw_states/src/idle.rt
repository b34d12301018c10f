ghost use Rattle.std.specs.Prelude.{◌≡◌, ◌<◌, ◌++◌, find, length, option_copied, OnOk};
ghost use Rattle.pw_states.specs.Idle.{counted, falling, has_cst, has_integer, has_null, idle_findings};
ghost use Rattle.pw_states.specs.Idle.{integer_findings, is_cst, shrinking, state_count, state_findings};
ghost use Rattle.pw_states.specs.Idle.{summed, unentered};

use acpi_values::{EntryMethod, IdleKind, IdleRow, IdleTable};
use aml_data::{FullPath, copy_full_path};
use pw_base::Memory;
use pw_findings::{Finding, FindingKind, OfEntry, OfIdle, add};
use pw_plan::CpuParts;
use std::alloc::Global;

/// Whether states are C states.
fn is_cst(kind: IdleKind) -> bool
    ensures { result ≡ is_cst kind }
{
    match kind {
        IdleKind::Lpi => false,
        IdleKind::Cst => true,
        IdleKind::Absent => false,
    }
}

/// Whether a state is entered by the null register.
fn has_null(entry: &EntryMethod) -> bool
    ensures { result ≡ has_null entry.now }
{
    match entry {
        EntryMethod::Register(register) => register.is_null(),
        EntryMethod::Integer(_) => false,
    }
}

/// Adds that row k is of a C state with the null register.
fn find_unentered(
    alloc: Global,
    path: &FullPath,
    kind: IdleKind,
    rows: &[IdleRow],
    k: usize,
    found: &mut Vec<Finding>,
) -> Result<(), Memory>
    requires { k < length rows.now }
    ensures { OnOk result (found.new.items ≡ found.old.items ++ unentered path.now kind rows.now k) }
{
    if is_cst(kind) && has_null(&rows[k].entry) {
        let amiss = OfEntry::NullState { state: k + 1 };
        return add(alloc, path, FindingKind::Entry(amiss), found);
    }
    Ok(())
}

/// Adds that the state behind row k wakes sooner than that of row k.
fn find_falling(
    alloc: Global,
    path: &FullPath,
    rows: &[IdleRow],
    k: usize,
    found: &mut Vec<Finding>,
) -> Result<(), Memory>
    requires { k < length rows.now }
    ensures { OnOk result (found.new.items ≡ found.old.items ++ falling path.now rows.now k) }
{
    if k + 1 < rows.len() && rows[k + 1].latency < rows[k].latency {
        let amiss = OfIdle::LatencyFalls {
            state: k + 2,
            latency: rows[k + 1].latency,
            before: rows[k].latency,
        };
        return add(alloc, path, FindingKind::Idle(amiss), found);
    }
    Ok(())
}

/// Adds that the state behind row k is worth its cost sooner than that of row k.
fn find_shrinking(
    alloc: Global,
    path: &FullPath,
    rows: &[IdleRow],
    k: usize,
    found: &mut Vec<Finding>,
) -> Result<(), Memory>
    requires { k < length rows.now }
    ensures { OnOk result (found.new.items ≡ found.old.items ++ shrinking path.now rows.now k) }
{
    if k + 1 < rows.len() && rows[k + 1].residency < rows[k].residency {
        let amiss = OfIdle::ResidencyFalls {
            state: k + 2,
            residency: rows[k + 1].residency,
            before: rows[k].residency,
        };
        return add(alloc, path, FindingKind::Idle(amiss), found);
    }
    Ok(())
}

/// Adds what is found of row k.
fn find_in_state(
    alloc: Global,
    path: &FullPath,
    kind: IdleKind,
    rows: &[IdleRow],
    k: usize,
    found: &mut Vec<Finding>,
) -> Result<(), Memory>
    requires { k < length rows.now }
    ensures { OnOk result (found.new.items ≡ found.old.items ++ state_findings path.now kind rows.now k) }
{
    find_unentered(alloc, path, kind, rows, k, found)?;
    find_falling(alloc, path, rows, k, found)?;
    find_shrinking(alloc, path, rows, k, found)
}

/// Adds what is found of idle states.
#[tactic(auto, unfolding(crate::specs::Idle::idle_findings))]
pub fn find_in_idle(
    alloc: Global,
    path: &FullPath,
    table: &IdleTable,
    found: &mut Vec<Finding>,
) -> Result<(), Memory>
    ensures { OnOk result (found.new.items ≡ found.old.items ++ idle_findings path.now table.now) }
{
    let rows = table.states();
    for k in 0..rows.len() {
        find_in_state(alloc, path, table.kind, rows, k, found)?;
    }
    Ok(())
}

/// Whether a processor's idle states are C states.
pub fn has_cst(cpu: &CpuParts) -> bool
    ensures { result ≡ has_cst cpu.now }
{
    is_cst(cpu.idle.kind)
}

/// How many idle states a processor has.
fn state_count(cpu: &CpuParts) -> usize
    ensures { result ≡ state_count cpu.now }
{
    cpu.idle.states().len()
}

/// The first processor with C states.
pub fn first_with_cst(cpus: &[CpuParts]) -> Option<&CpuParts>
    ensures { option_copied result ≡ find has_cst cpus.now }
{
    cpus.iter().find(|cpu| has_cst(cpu))
}

/// Adds that a processor has another number of C states than the first that has any.
pub fn find_counted(
    alloc: Global,
    cpu: &CpuParts,
    first: Option<&CpuParts>,
    found: &mut Vec<Finding>,
) -> Result<(), Memory>
    ensures { OnOk result (found.new.items ≡ found.old.items ++ counted cpu.now (option_copied first.entry)) }
{
    let Some(first) = first else {
        return Ok(());
    };
    let count = state_count(cpu);
    let there = state_count(first);
    if !has_cst(cpu) || count == there {
        return Ok(());
    }
    let amiss = OfEntry::OtherCount {
        count,
        first: copy_full_path(alloc, &first.path)?,
        there,
    };
    add(alloc, &cpu.path, FindingKind::Entry(amiss), found)
}

/// Whether a state has an integer for its entry.
fn has_integer(entry: &EntryMethod) -> bool
    ensures { result ≡ has_integer entry.now }
{
    match entry {
        EntryMethod::Register(_) => false,
        EntryMethod::Integer(_) => true,
    }
}

/// Adds that row k, of a processor, has an integer for its entry.
fn find_summed(
    alloc: Global,
    path: &FullPath,
    rows: &[IdleRow],
    k: usize,
    found: &mut Vec<Finding>,
) -> Result<(), Memory>
    requires { k < length rows.now }
    ensures { OnOk result (found.new.items ≡ found.old.items ++ summed path.now rows.now k) }
{
    if has_integer(&rows[k].entry) {
        let amiss = OfEntry::IntegerState { state: k + 1 };
        return add(alloc, path, FindingKind::Entry(amiss), found);
    }
    Ok(())
}

/// Adds which of a processor's idle states have integers for their entries.
#[tactic(auto, unfolding(crate::specs::Idle::integer_findings))]
pub fn find_integers(
    alloc: Global,
    path: &FullPath,
    table: &IdleTable,
    found: &mut Vec<Finding>,
) -> Result<(), Memory>
    ensures { OnOk result (found.new.items ≡ found.old.items ++ integer_findings path.now table.now) }
{
    let rows = table.states();
    for k in 0..rows.len() {
        find_summed(alloc, path, rows, k, found)?;
    }
    Ok(())
}
