//! What is found of continuous performance control.

ghost use Rattle.std.specs.Prelude.{◌≡◌, ◌++◌, option_copied, slice_get, OnOk};
ghost use Rattle.pw_states.specs.Cpcs.{are_apart, cpc_findings, crossed, disorder, is_no_register};
ghost use Rattle.pw_states.specs.Cpcs.{is_open, level, number_of, of_cpc, range_between, range_of};

use acpi_values::{Cpc, CpcEntry};
use aml_data::FullPath;
use pw_base::Memory;
use pw_findings::{Finding, FindingKind, OfCpc, add_when};
use std::alloc::Global;

/// From the lowest to the highest performance.
#[derive(Clone, Copy)]
pub struct Range {
    pub lowest: u64,
    pub highest: u64,
}

/// The number of an element, where it is one.
fn number_of(element: Option<&CpcEntry>) -> Option<u64>
    ensures { result ≡ number_of (option_copied element.entry) }
{
    match element {
        None => None,
        Some(CpcEntry::Number(number)) => Some(*number),
        Some(CpcEntry::Register(_)) => None,
    }
}

/// A level of performance, by its place behind the first two elements.
fn level(cpc: &Cpc, k: usize) -> Option<u64>
    ensures { result ≡ level cpc.now k }
{
    number_of(cpc.entries.as_slice().get(k))
}

/// Between two levels, where both are numbers.
fn range_between(lowest: Option<u64>, highest: Option<u64>) -> Option<Range>
    ensures { result ≡ range_between lowest highest }
{
    match (lowest, highest) {
        (Some(lowest), Some(highest)) => Some(Range { lowest, highest }),
        _ => None,
    }
}

/// From the lowest to the highest performance of `_CPC`.
pub fn range_of(cpc: &Cpc) -> Option<Range>
    ensures { result ≡ range_of cpc.now }
{
    range_between(level(cpc, 3), level(cpc, 0))
}

/// Whether one goes from or to another level.
pub fn are_apart(one: Option<Range>, other: Option<Range>) -> bool
    ensures { result ≡ are_apart one other }
{
    match (one, other) {
        (Some(one), Some(other)) => {
            !(one.lowest == other.lowest && one.highest == other.highest)
        }
        _ => false,
    }
}

/// Adds that the lower of two levels has the greater number.
fn find_disorder(
    alloc: Global,
    path: &FullPath,
    cpc: &Cpc,
    upper: usize,
    lower: usize,
    found: &mut Vec<Finding>,
) -> Result<(), Memory>
    ensures { OnOk result (found.new.items ≡ found.old.items ++ disorder path.now cpc.now upper lower) }
{
    let Some(number) = level(cpc, upper) else {
        return Ok(());
    };
    let Some(there) = level(cpc, lower) else {
        return Ok(());
    };
    let amiss = OfCpc::Disorder {
        upper,
        number,
        lower,
        there,
    };
    add_when(alloc, number < there, path, FindingKind::Cpc(amiss), found)
}

/// Whether the highest or the lowest level is no number.
fn is_open(cpc: &Cpc) -> bool
    ensures { result ≡ is_open cpc.now }
{
    level(cpc, 0).is_none() || level(cpc, 3).is_none()
}

/// Whether an element is no register, or the null register.
fn is_no_register(element: Option<&CpcEntry>) -> bool
    ensures { result ≡ is_no_register (option_copied element.entry) }
{
    match element {
        None => true,
        Some(CpcEntry::Number(_)) => true,
        Some(CpcEntry::Register(register)) => register.is_null(),
    }
}

/// Whether there is no register for desired performance.
fn lacks_desired(cpc: &Cpc) -> bool
    ensures { result ≡ is_no_register (slice_get cpc.now.entries 5) }
{
    is_no_register(cpc.entries.as_slice().get(5))
}

/// Adds what is found of `_CPC`.
fn find_of_cpc(
    alloc: Global,
    path: &FullPath,
    cpc: &Cpc,
    found: &mut Vec<Finding>,
) -> Result<(), Memory>
    ensures { OnOk result (found.new.items ≡ found.old.items ++ of_cpc path.now cpc.now) }
{
    find_disorder(alloc, path, cpc, 0, 1, found)?;
    find_disorder(alloc, path, cpc, 1, 2, found)?;
    find_disorder(alloc, path, cpc, 2, 3, found)?;
    find_disorder(alloc, path, cpc, 0, 3, found)?;
    add_when(
        alloc,
        is_open(cpc),
        path,
        FindingKind::Cpc(OfCpc::NoRange),
        found,
    )?;
    add_when(
        alloc,
        lacks_desired(cpc),
        path,
        FindingKind::Cpc(OfCpc::NoDesired),
        found,
    )
}

/// Adds what is found of continuous performance control, where there is any.
#[tactic(auto, unfolding(crate::specs::Cpcs::cpc_findings))]
pub fn find_in_cpc(
    alloc: Global,
    path: &FullPath,
    cpc: &Option<Cpc>,
    found: &mut Vec<Finding>,
) -> Result<(), Memory>
    ensures { OnOk result (found.new.items ≡ found.old.items ++ cpc_findings path.now cpc.now) }
{
    match cpc {
        None => Ok(()),
        Some(cpc) => find_of_cpc(alloc, path, cpc, found),
    }
}
