//! Idle states: `_LPI`, `_CST` and `_CSD`.

ghost use Rattle.std.specs.Prelude.{◌≡◌, ◌<◌, ◌^◌, [], List, length, map, IfOk, IfSome, ℕ, false};
ghost use Rattle.std.specs.List.{list_any};
ghost use Rattle.std.specs.Option.{option_map};
ghost use Rattle.acpi_fields.specs.Reading.{Gives};
ghost use Rattle.acpi_build.specs.inner.Answers.{Builds};
ghost use Rattle.acpi_build.specs.Finding.{place_below};
ghost use Rattle.acpi_build.specs.Tables.{AreCountable};
ghost use Rattle.acpi_build.specs.Machine.{dropped, idle_of, idle_table, kept_from, kept_of};
ghost use Rattle.acpi_build.specs.Machine.{lpi_row, cst_row};
ghost use Rattle.acpi_build.specs.inner.Fitting.{FitsIdle, FitEntries};
ghost use Rattle.acpi_build.specs.declared.names.Name.TheVariants.{Csd};
ghost use Rattle.pw_plan.specs.Parts.{is_entry};

use crate::names::Name;
use crate::note::NoteKind;
use crate::said::Said;
use crate::tables::{find_csd, find_cst, find_lpi, note, tell};
use acpi_space::Space;
use acpi_values::{
    CDependency, CState, EntryMethod, IdleKind, IdleRow, IdleTable, Lpi, LpiState, Place,
    ReadFault, Why,
};
use pw_base::{List, Memory};
use std::alloc::Global;
use std::collections::BTreeSet;

fn row_of_lpi(state: &LpiState) -> IdleRow
    ensures { result ≡ lpi_row state.now }
{
    IdleRow {
        enabled: state.flags % 2 == 1,
        latency: state.wake_latency,
        residency: state.min_residency,
        parent: state.parent,
        entry: state.entry,
    }
}

fn row_of_cst(state: &CState) -> IdleRow
    ensures { result ≡ cst_row state.now }
{
    IdleRow {
        enabled: true,
        latency: state.latency,
        residency: 0,
        parent: 0,
        entry: EntryMethod::Register(state.register),
    }
}

fn lpi_rows(alloc: Global, states: &[LpiState]) -> Result<List<IdleRow>, Memory>
    ensures { IfOk result (λ rows. rows ≡ map lpi_row states.now) }
{
    let mut rows = Vec::new(alloc);
    for state in states {
        rows.push(row_of_lpi(state))?;
    }
    Ok(List::from_vec(rows))
}

fn cst_rows(alloc: Global, states: &[CState]) -> Result<List<IdleRow>, Memory>
    ensures { IfOk result (λ rows. rows ≡ map cst_row states.now) }
{
    let mut rows = Vec::new(alloc);
    for state in states {
        rows.push(row_of_cst(state))?;
    }
    Ok(List::from_vec(rows))
}

/// The states of `_LPI`; where there are none, those of `_CST`.
pub(crate) fn idle_states(
    alloc: Global,
    lpi: &Option<Lpi>,
    cst: &Option<Vec<CState>>,
) -> Result<IdleTable, Memory>
    ensures { IfOk result (λ t. t ≡ idle_table lpi.now (option_map (λ v. v.items) cst.now)) }
{
    match lpi {
        Some(lpi) => {
            let rows = lpi_rows(alloc, lpi.states.as_slice())?;
            Ok(IdleTable {
                kind: IdleKind::Lpi,
                rows,
            })
        }
        None => match cst {
            Some(states) => {
                let rows = cst_rows(alloc, states.as_slice())?;
                Ok(IdleTable {
                    kind: IdleKind::Cst,
                    rows,
                })
            }
            None => {
                let rows = List::from_vec(Vec::new(alloc));
                Ok(IdleTable {
                    kind: IdleKind::Absent,
                    rows,
                })
            }
        },
    }
}

/// The entries of `_CSD` about C states that are there, unless one of them repeats another.
fn kept(
    alloc: Global,
    states: usize,
    entries: &[CDependency],
) -> Result<Vec<CDependency>, ReadFault>
    requires { length entries.now < 2 ^ 32 }
    ensures value { Gives (λ v. v.items) result (kept_from states 1 [] entries.now) }
    ensures fit { IfOk result (λ v. FitEntries states v.items) }
{
    let mut kept = Vec::new(alloc);
    let mut seen = BTreeSet::new(alloc);
    let mut outer = 0;
    for entry in entries {
        outer += 1;
        if (entry.index as usize) < states {
            let fresh = seen.insert((entry.domain, entry.index))?;
            if !fresh {
                return Err(ReadFault::Shape {
                    place: Place { outer, inner: 3 },
                    why: Why::Range,
                });
            }
            kept.push(*entry)?;
        }
    }
    Ok(kept)
}

/// Notes each entry of `_CSD` about a C state that isn't there.
fn note_dropped(
    alloc: Global,
    space: &Space,
    index: usize,
    states: usize,
    entries: &[CDependency],
    said: &mut Said,
) -> Result<(), Memory>
    requires { index < length space.now }
    ensures { Builds (λ _. tt {0}) result said.old said.new
        (dropped (place_below space.now index Csd) states entries.now) }
{
    for entry in entries {
        if (entry.index as usize) >= states {
            note(alloc, space, index, Name::Csd, NoteKind::NoSuchState, said)?;
        }
    }
    Ok(())
}

/// The entries of `_CSD` that are used: none beside an `_LPI`, or where one repeats another.
fn used(
    alloc: Global,
    space: &Space,
    index: usize,
    lpi: &Option<Lpi>,
    cst: &Option<Vec<CState>>,
    csd: &Option<Vec<CDependency>>,
    said: &mut Said,
) -> Result<Vec<CDependency>, Memory>
    requires within { index < length space.now }
    requires count { IfSome csd.now (λ v. length v.items < 2 ^ 32) }
    ensures value { Builds (λ v. v.items) result said.old said.new
        (kept_of (place_below space.now index Csd) lpi.now (option_map (λ v. v.items) cst.now)
        (option_map (λ v. v.items) csd.now)) }
    ensures fit { IfOk result
        (λ v. FitsIdle (idle_table lpi.now (option_map (λ v. v.items) cst.now)) v.items) }
{
    if lpi.is_some() {
        return Ok(Vec::new(alloc));
    }
    let Some(entries) = csd else {
        return Ok(Vec::new(alloc));
    };
    let states = match cst {
        Some(states) => states.len(),
        None => 0,
    };
    let read = kept(alloc, states, entries.as_slice());
    let Some(kept) = tell(alloc, space, index, Name::Csd, read, said)? else {
        return Ok(Vec::new(alloc));
    };
    note_dropped(alloc, space, index, states, entries.as_slice(), said)?;
    Ok(kept)
}

/// The idle states of a processor, and what it declares of their domains.
#[tactic(auto, unfolding(crate::specs::Machine::idle_of))]
pub(crate) fn read_idle(
    alloc: Global,
    space: &Space,
    index: usize,
    said: &mut Said,
) -> Result<(IdleTable, List<CDependency>), Memory>
    requires within { index < length space.now }
    requires countable { AreCountable space.now }
    ensures value { Builds (λ r. r) result said.old said.new (idle_of space.now index) }
    ensures fit { IfOk result (λ r. FitsIdle r.0 r.1) }
{
    let lpi = find_lpi(alloc, space, index, said)?;
    let cst = find_cst(alloc, space, index, said)?;
    if lpi.is_some() && cst.is_some() {
        note(alloc, space, index, Name::Cst, NoteKind::Ignored, said)?;
    }
    let csd = find_csd(alloc, space, index, said)?;
    let kept = used(alloc, space, index, &lpi, &cst, &csd, said)?;
    let idle = idle_states(alloc, &lpi, &cst)?;
    let csd = List::from_vec(kept);
    Ok((idle, csd))
}
