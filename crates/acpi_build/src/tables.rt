//! What stands at a name of an object, and what is read there.

ghost use Rattle.std.specs.Prelude.{◌≡◌, ◌<◌, ◌^◌, ◌++◌, ◌∷◌, [], List, length, IfOk, IfSome, Result, Ok, Err};
ghost use Rattle.std.specs.Option.{option_map};
ghost use Rattle.aml_data.specs.Countable.{IsCountable};
ghost use Rattle.acpi_build.specs.Building.{noted, refused};
ghost use Rattle.acpi_build.specs.inner.Answers.{Builds, IsTold};
ghost use Rattle.acpi_build.specs.Finding.{place_below};
ghost use Rattle.acpi_build.specs.Tables.{AreCountable, looked_at};
ghost use Rattle.acpi_build.specs.Tables.{lpi_at, cst_at, csd_at};
ghost use Rattle.acpi_build.specs.Tables.{pss_at, tss_at, cpc_at};
ghost use Rattle.acpi_build.specs.Tables.{control_at, limit_at, dependency_at};

use crate::fault::ObjectFault;
use crate::finding::object_below;
use crate::names::Name;
use crate::note::{Note, NoteKind};
use crate::said::Said;
use acpi_cpc::read_cpc;
use acpi_idle::{read_csd, read_cst, read_lpi};
use acpi_perf::{read_control, read_dependency, read_limit, read_pss, read_tss};
use acpi_space::{Object, Space};
use acpi_values::{
    CDependency, CState, ControlPair, Cpc, Dependency, Lpi, PState, ReadFault, Shape, TState,
};
use aml_data::{Data, FullPath, Width};
use pw_base::{List, Memory};
use std::alloc::Global;

/// A data object, and the width of its integers.
#[derive(Clone, Copy)]
pub(crate) struct Found<'a> {
    pub(crate) data: &'a Data,
    pub(crate) width: Width,
}

/// The path of a name below an object.
pub(crate) fn path_below(
    alloc: Global,
    space: &Space,
    index: usize,
    name: Name,
) -> Result<FullPath, Memory>
    requires { index < length space.now }
    ensures { IfOk result (λ p. p.segs ≡ place_below space.now index name) }
{
    let path = space.path(alloc, index)?;
    let mut segs = path.segs.into_vec();
    segs.push(name.segment())?;
    Ok(FullPath {
        segs: List::from_vec(segs),
    })
}

/// Notes something of the object at a name.
pub(crate) fn note(
    alloc: Global,
    space: &Space,
    index: usize,
    name: Name,
    kind: NoteKind,
    said: &mut Said,
) -> Result<(), Memory>
    requires { index < length space.now }
    ensures { Builds (λ _. tt {0}) result said.old said.new
        (noted (place_below space.now index name) kind (tt {0})) }
{
    let path = path_below(alloc, space, index, name)?;
    said.notes.push(Note { path, kind })?;
    Ok(())
}

/// Says that the object at a name means nothing.
fn refuse(
    alloc: Global,
    space: &Space,
    index: usize,
    name: Name,
    shape: Shape,
    said: &mut Said,
) -> Result<(), Memory>
    requires { index < length space.now }
    ensures { Builds (λ _. tt {0}) result said.old said.new
        (refused (place_below space.now index name) shape.place shape.why (tt {0})) }
{
    let Shape { place, why } = shape;
    let path = path_below(alloc, space, index, name)?;
    said.faults.push(ObjectFault { path, place, why })?;
    Ok(())
}

/// What was read of the object at a name. Where it means nothing, that is said.
pub(crate) fn tell<T>(
    alloc: Global,
    space: &Space,
    index: usize,
    name: Name,
    read: Result<T, ReadFault>,
    said: &mut Said,
) -> Result<Option<T>, Memory>
    requires { index < length space.now }
    ensures { IsTold (place_below space.now index name) read result said.old said.new }
{
    match read {
        Ok(value) => Ok(Some(value)),
        Err(ReadFault::Shape { place, why }) => {
            refuse(alloc, space, index, name, Shape { place, why }, said)?;
            Ok(None)
        }
        Err(ReadFault::Memory) => Err(Memory),
    }
}

/// The data object at a name.
#[tactic(auto, unfolding(crate::specs::Tables::looked_at))]
pub(crate) fn look<'a>(
    alloc: Global,
    space: &Space<'a>,
    index: usize,
    name: Name,
    said: &mut Said,
) -> Result<Option<Found<'a>>, Memory>
    requires within { index < length space.now }
    requires countable { AreCountable space.now }
    ensures value { Builds (λ o. option_map (λ f. record { object = f.data.now; width = f.width }) o)
        result said.old said.new (looked_at space.now (place_below space.now index name)) }
    ensures countable { IfOk result (λ o. IfSome o (λ f. IsCountable f.data.now)) }
{
    let Some(placed) = object_below(space, index, name) else {
        return Ok(None);
    };
    match placed.object {
        Object::Data(data) => Ok(Some(Found {
            data,
            width: placed.width,
        })),
        Object::Device | Object::Processor => Ok(None),
        Object::Method => {
            note(alloc, space, index, name, NoteKind::ByMethod, said)?;
            Ok(None)
        }
        Object::Alias(_) => {
            note(alloc, space, index, name, NoteKind::ByAlias, said)?;
            Ok(None)
        }
    }
}

/// `_LPI`.
#[tactic(auto, unfolding(crate::specs::Tables::lpi_at))]
pub(crate) fn find_lpi(
    alloc: Global,
    space: &Space,
    index: usize,
    said: &mut Said,
) -> Result<Option<Lpi>, Memory>
    requires within { index < length space.now }
    requires countable { AreCountable space.now }
    ensures { Builds (λ o. o) result said.old said.new (lpi_at space.now index) }
{
    let Some(found) = look(alloc, space, index, Name::Lpi, said)? else {
        return Ok(None);
    };
    let read = read_lpi(alloc, found.data, found.width);
    let Some(lpi) = tell(alloc, space, index, Name::Lpi, read, said)? else {
        return Ok(None);
    };
    if lpi.states.as_slice().is_empty() {
        note(alloc, space, index, Name::Lpi, NoteKind::Empty, said)?;
        return Ok(None);
    }
    Ok(Some(lpi))
}

/// `_CST`.
#[tactic(auto, unfolding(crate::specs::Tables::cst_at))]
pub(crate) fn find_cst(
    alloc: Global,
    space: &Space,
    index: usize,
    said: &mut Said,
) -> Result<Option<Vec<CState>>, Memory>
    requires within { index < length space.now }
    requires countable { AreCountable space.now }
    ensures { Builds (λ o. option_map (λ v. v.items) o) result said.old said.new
        (cst_at space.now index) }
{
    let Some(found) = look(alloc, space, index, Name::Cst, said)? else {
        return Ok(None);
    };
    let read = read_cst(alloc, found.data, found.width);
    let Some(states) = tell(alloc, space, index, Name::Cst, read, said)? else {
        return Ok(None);
    };
    if states.is_empty() {
        note(alloc, space, index, Name::Cst, NoteKind::Empty, said)?;
        return Ok(None);
    }
    Ok(Some(states))
}

/// `_CSD`.
#[tactic(auto, unfolding(crate::specs::Tables::csd_at))]
pub(crate) fn find_csd(
    alloc: Global,
    space: &Space,
    index: usize,
    said: &mut Said,
) -> Result<Option<Vec<CDependency>>, Memory>
    requires within { index < length space.now }
    requires countable { AreCountable space.now }
    ensures value { Builds (λ o. option_map (λ v. v.items) o) result said.old said.new
        (csd_at space.now index) }
    ensures count { IfOk result (λ o. IfSome o (λ v. length v.items < 2 ^ 32)) }
{
    let Some(found) = look(alloc, space, index, Name::Csd, said)? else {
        return Ok(None);
    };
    tell(
        alloc,
        space,
        index,
        Name::Csd,
        read_csd(alloc, found.data, found.width),
        said,
    )
}

/// `_PSS`.
#[tactic(auto, unfolding(crate::specs::Tables::pss_at))]
pub(crate) fn find_pss(
    alloc: Global,
    space: &Space,
    index: usize,
    said: &mut Said,
) -> Result<Option<Vec<PState>>, Memory>
    requires within { index < length space.now }
    requires countable { AreCountable space.now }
    ensures value { Builds (λ o. option_map (λ v. v.items) o) result said.old said.new
        (pss_at space.now index) }
    ensures some { IfOk result (λ o. IfSome o (λ v. 0 < length v.items)) }
{
    let Some(found) = look(alloc, space, index, Name::Pss, said)? else {
        return Ok(None);
    };
    let read = read_pss(alloc, found.data, found.width);
    let Some(states) = tell(alloc, space, index, Name::Pss, read, said)? else {
        return Ok(None);
    };
    if states.is_empty() {
        note(alloc, space, index, Name::Pss, NoteKind::Empty, said)?;
        return Ok(None);
    }
    Ok(Some(states))
}

/// `_TSS`.
#[tactic(auto, unfolding(crate::specs::Tables::tss_at))]
pub(crate) fn find_tss(
    alloc: Global,
    space: &Space,
    index: usize,
    said: &mut Said,
) -> Result<Option<Vec<TState>>, Memory>
    requires within { index < length space.now }
    requires countable { AreCountable space.now }
    ensures value { Builds (λ o. option_map (λ v. v.items) o) result said.old said.new
        (tss_at space.now index) }
    ensures some { IfOk result (λ o. IfSome o (λ v. 0 < length v.items)) }
{
    let Some(found) = look(alloc, space, index, Name::Tss, said)? else {
        return Ok(None);
    };
    let read = read_tss(alloc, found.data, found.width);
    let Some(states) = tell(alloc, space, index, Name::Tss, read, said)? else {
        return Ok(None);
    };
    if states.is_empty() {
        note(alloc, space, index, Name::Tss, NoteKind::Empty, said)?;
        return Ok(None);
    }
    Ok(Some(states))
}

/// `_PCT` or `_PTC`.
#[tactic(auto, unfolding(crate::specs::Tables::control_at))]
pub(crate) fn find_control(
    alloc: Global,
    space: &Space,
    index: usize,
    name: Name,
    said: &mut Said,
) -> Result<Option<ControlPair>, Memory>
    requires within { index < length space.now }
    requires countable { AreCountable space.now }
    ensures { Builds (λ o. o) result said.old said.new (control_at space.now index name) }
{
    let Some(found) = look(alloc, space, index, name, said)? else {
        return Ok(None);
    };
    match read_control(found.data) {
        Ok(pair) => Ok(Some(pair)),
        Err(shape) => {
            refuse(alloc, space, index, name, shape, said)?;
            Ok(None)
        }
    }
}

/// `_PPC` or `_TPC`.
#[tactic(auto, unfolding(crate::specs::Tables::limit_at))]
pub(crate) fn find_limit(
    alloc: Global,
    space: &Space,
    index: usize,
    name: Name,
    said: &mut Said,
) -> Result<Option<u32>, Memory>
    requires within { index < length space.now }
    requires countable { AreCountable space.now }
    ensures { Builds (λ o. o) result said.old said.new (limit_at space.now index name) }
{
    let Some(found) = look(alloc, space, index, name, said)? else {
        return Ok(None);
    };
    match read_limit(found.data, found.width) {
        Ok(limit) => Ok(Some(limit)),
        Err(shape) => {
            refuse(alloc, space, index, name, shape, said)?;
            Ok(None)
        }
    }
}

/// `_PSD` or `_TSD`.
#[tactic(auto, unfolding(crate::specs::Tables::dependency_at))]
pub(crate) fn find_dependency(
    alloc: Global,
    space: &Space,
    index: usize,
    name: Name,
    said: &mut Said,
) -> Result<Option<Dependency>, Memory>
    requires within { index < length space.now }
    requires countable { AreCountable space.now }
    ensures { Builds (λ o. o) result said.old said.new (dependency_at space.now index name) }
{
    let Some(found) = look(alloc, space, index, name, said)? else {
        return Ok(None);
    };
    match read_dependency(found.data, found.width) {
        Ok(dependency) => Ok(Some(dependency)),
        Err(shape) => {
            refuse(alloc, space, index, name, shape, said)?;
            Ok(None)
        }
    }
}

/// `_CPC`.
#[tactic(auto, unfolding(crate::specs::Tables::cpc_at))]
pub(crate) fn find_cpc(
    alloc: Global,
    space: &Space,
    index: usize,
    said: &mut Said,
) -> Result<Option<Cpc>, Memory>
    requires within { index < length space.now }
    requires countable { AreCountable space.now }
    ensures { Builds (λ o. o) result said.old said.new (cpc_at space.now index) }
{
    let Some(found) = look(alloc, space, index, Name::Cpc, said)? else {
        return Ok(None);
    };
    tell(
        alloc,
        space,
        index,
        Name::Cpc,
        read_cpc(alloc, found.data, found.width),
        said,
    )
}
