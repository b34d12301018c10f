//! What is found between idle states and those of the container around them.

ghost use Rattle.std.specs.Prelude.{◌≡◌, ◌<◌, ◌+◌, ◌^◌, ◌++◌, length, option_copied, IfSome, OnOk};
ghost use Rattle.std.specs.List.{list_any};
ghost use Rattle.pw_findings.specs.Findings.{of_each};
ghost use Rattle.pw_states.specs.Parents.{around, count_in, enables, nowhere, parent_findings, past};
ghost use Rattle.pw_states.specs.Parents.{first_over, number_of, overflowing, overflows};
ghost use Rattle.pw_states.specs.Parents.{past_findings, sum_at, sum_findings, unreached};
ghost use Rattle.pw_states.specs.Idle.{row_in};
ghost use Rattle.acpi_values.specs.Idle.{rows_of};

use acpi_values::{EntryMethod, IdleRow, IdleTable};
use aml_data::{FullPath, copy_full_path};
use pw_base::Memory;
use pw_findings::{Finding, FindingKind, OfParent, add, add_when};
use pw_plan::ContainerParts;
use std::alloc::Global;

/// The container of this number.
pub fn around(containers: &[ContainerParts], number: Option<u32>) -> Option<&ContainerParts>
    ensures { option_copied result ≡ around containers.now number }
{
    match number {
        None => None,
        Some(n) => containers.get(n as usize),
    }
}

/// How many states a container has.
fn count_in(container: &ContainerParts) -> usize
    ensures { result ≡ count_in container.now }
{
    container.idle.states().len()
}

/// Adds that row k enables a state of a container, where there is none around.
fn find_nowhere(
    alloc: Global,
    path: &FullPath,
    rows: &[IdleRow],
    k: usize,
    found: &mut Vec<Finding>,
) -> Result<(), Memory>
    requires { k < length rows.now }
    ensures { OnOk result (found.new.items ≡ found.old.items ++ nowhere path.now rows.now k) }
{
    let enables = rows[k].parent;
    let state = k + 1;
    let amiss = OfParent::Absent { state, enables };
    add_when(alloc, enables > 0, path, FindingKind::Parent(amiss), found)
}

/// Adds which rows do, where there is none around.
fn find_all_nowhere(
    alloc: Global,
    path: &FullPath,
    rows: &[IdleRow],
    found: &mut Vec<Finding>,
) -> Result<(), Memory>
    ensures { OnOk result (found.new.items ≡ found.old.items
        ++ of_each (length rows.now) (nowhere path.now rows.now)) }
{
    for k in 0..rows.len() {
        find_nowhere(alloc, path, rows, k, found)?;
    }
    Ok(())
}

/// Adds that row k enables a state that the container around doesn't have.
fn find_past(
    alloc: Global,
    path: &FullPath,
    container: &ContainerParts,
    rows: &[IdleRow],
    k: usize,
    found: &mut Vec<Finding>,
) -> Result<(), Memory>
    requires { k < length rows.now }
    ensures { OnOk result (found.new.items ≡ found.old.items ++ past path.now container.now rows.now k) }
{
    let count = count_in(container);
    let enables = rows[k].parent;
    if enables as usize <= count {
        return Ok(());
    }
    let amiss = OfParent::Past {
        state: k + 1,
        enables,
        parent: copy_full_path(alloc, &container.path)?,
        count,
    };
    add(alloc, path, FindingKind::Parent(amiss), found)
}

/// Adds which rows do.
fn find_all_past(
    alloc: Global,
    path: &FullPath,
    container: &ContainerParts,
    rows: &[IdleRow],
    found: &mut Vec<Finding>,
) -> Result<(), Memory>
    ensures { OnOk result (found.new.items ≡ found.old.items
        ++ of_each (length rows.now) (past path.now container.now rows.now)) }
{
    for k in 0..rows.len() {
        find_past(alloc, path, container, rows, k, found)?;
    }
    Ok(())
}

/// Whether a state may be entered, and enables state n of the container.
fn enables(n: usize, row: &IdleRow) -> bool
    ensures { result ≡ enables n row.now }
{
    row.enabled && n <= row.parent as usize
}

/// Whether one of these does.
fn any_enables(n: usize, rows: &[IdleRow]) -> bool
    ensures { result ≡ list_any (enables n) rows.now }
{
    rows.iter().any(|row| enables(n, row))
}

/// Adds that no state enables the deepest one of the container.
fn find_unreached(
    alloc: Global,
    path: &FullPath,
    parent: Option<&ContainerParts>,
    rows: &[IdleRow],
    found: &mut Vec<Finding>,
) -> Result<(), Memory>
    ensures { OnOk result (found.new.items ≡ found.old.items
        ++ unreached path.now (option_copied parent.entry) rows.now) }
{
    let Some(container) = parent else {
        return Ok(());
    };
    let count = count_in(container);
    if count == 0 || any_enables(count, rows) {
        return Ok(());
    }
    let amiss = OfParent::Unreached {
        parent: copy_full_path(alloc, &container.path)?,
        count,
    };
    add(alloc, path, FindingKind::Parent(amiss), found)
}

/// Adds which rows enable states of a container that aren't there.
fn find_past_parents(
    alloc: Global,
    path: &FullPath,
    parent: Option<&ContainerParts>,
    rows: &[IdleRow],
    found: &mut Vec<Finding>,
) -> Result<(), Memory>
    ensures { OnOk result (found.new.items ≡ found.old.items
        ++ past_findings path.now (option_copied parent.entry) rows.now) }
{
    match parent {
        None => find_all_nowhere(alloc, path, rows, found),
        Some(container) => find_all_past(alloc, path, container, rows, found),
    }
}

/// The number by which a state is entered: the address of its register, or what it adds to that of a state
/// below.
fn number_of(entry: &EntryMethod) -> u64
    ensures { result ≡ number_of entry.now }
{
    match entry {
        EntryMethod::Register(register) => register.address,
        EntryMethod::Integer(number) => *number,
    }
}

/// Whether a state adds so much to a number that the sum has more than 64 bits.
fn overflows(number: u64, entry: &EntryMethod) -> bool
    ensures { result ≡ overflows number entry.now }
{
    match entry {
        EntryMethod::Register(_) => false,
        EntryMethod::Integer(added) => u64::MAX - number < *added,
    }
}

/// The first of the first n states of a container that does.
fn first_over(container: &ContainerParts, number: u64, n: u32) -> Option<usize>
    ensures { result ≡ first_over container.now number n }
{
    let states = container.idle.states();
    states
        .iter()
        .take(n as usize)
        .position(|above| overflows(number, &above.entry))
}

/// The first state of a container that a row enables and that does.
fn overflowing(container: &ContainerParts, row: &IdleRow) -> Option<usize>
    ensures value { result ≡ overflowing container.now row.now }
    ensures small { IfSome result (λ j. j + 1 < 2 ^ 64) }
{
    first_over(container, number_of(&row.entry), row.parent)
}

/// The number by which state k of a container is entered.
#[tactic(auto, unfolding(pw_plan::specs::Parts::no_row))]
fn number_in(container: &ContainerParts, k: usize) -> u64
    ensures { result ≡ number_of (row_in (rows_of container.now.idle) k).entry }
{
    match container.idle.states().get(k) {
        None => 0,
        Some(row) => number_of(&row.entry),
    }
}

/// Adds that row k enables a state of the container that adds too much to its number.
fn find_overflow(
    alloc: Global,
    path: &FullPath,
    container: &ContainerParts,
    rows: &[IdleRow],
    k: usize,
    found: &mut Vec<Finding>,
) -> Result<(), Memory>
    requires { k < length rows.now }
    ensures { OnOk result (found.new.items ≡ found.old.items ++ sum_at path.now container.now rows.now k) }
{
    let row = &rows[k];
    let Some(above) = overflowing(container, row) else {
        return Ok(());
    };
    let amiss = OfParent::Overflows {
        state: k + 1,
        number: number_of(&row.entry),
        enables: above + 1,
        parent: copy_full_path(alloc, &container.path)?,
        added: number_in(container, above),
    };
    add(alloc, path, FindingKind::Parent(amiss), found)
}

/// Adds which rows do.
fn find_all_overflows(
    alloc: Global,
    path: &FullPath,
    container: &ContainerParts,
    rows: &[IdleRow],
    found: &mut Vec<Finding>,
) -> Result<(), Memory>
    ensures { OnOk result (found.new.items ≡ found.old.items
        ++ of_each (length rows.now) (sum_at path.now container.now rows.now)) }
{
    for k in 0..rows.len() {
        find_overflow(alloc, path, container, rows, k, found)?;
    }
    Ok(())
}

/// Adds which rows do, where there is a container around.
fn find_overflows(
    alloc: Global,
    path: &FullPath,
    parent: Option<&ContainerParts>,
    rows: &[IdleRow],
    found: &mut Vec<Finding>,
) -> Result<(), Memory>
    ensures { OnOk result (found.new.items ≡ found.old.items
        ++ sum_findings path.now (option_copied parent.entry) rows.now) }
{
    match parent {
        None => Ok(()),
        Some(container) => find_all_overflows(alloc, path, container, rows, found),
    }
}

/// Adds what is found of idle states, which are known or not, beside the container around them.
#[tactic(auto, unfolding(crate::specs::Parents::parent_findings))]
pub fn find_beside_parent(
    alloc: Global,
    path: &FullPath,
    known: bool,
    parent: Option<&ContainerParts>,
    table: &IdleTable,
    found: &mut Vec<Finding>,
) -> Result<(), Memory>
    ensures { OnOk result (found.new.items ≡ found.old.items
        ++ parent_findings path.now known (option_copied parent.entry) table.now) }
{
    let rows = table.states();
    find_past_parents(alloc, path, parent, rows, found)?;
    if known {
        find_unreached(alloc, path, parent, rows, found)?;
    }
    find_overflows(alloc, path, parent, rows, found)
}
