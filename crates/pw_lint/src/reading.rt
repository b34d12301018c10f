//! What is read of objects again, of which a plan keeps a part alone.

ghost use Rattle.std.specs.Prelude.{◌≡◌, ◌∷◌, ◌++◌, [], map, IfOk, IfSome};
ghost use Rattle.std.specs.Prelude.{List as list_type};
ghost use Rattle.std.specs.Option.{option_map};
ghost use Rattle.aml_data.specs.Countable.{IsCountable};
ghost use Rattle.acpi_fields.specs.Reading.{Gives, Read};
ghost use Rattle.acpi_space.specs.Things.{thing};
ghost use Rattle.acpi_build.specs.Tables.{AreCountable};
ghost use Rattle.pw_lint.specs.Tables.{below, c_states, dependency, dependency_read, frequencies, given_at};
ghost use Rattle.pw_lint.specs.Tables.{integer_at};
ghost use Rattle.pw_lint.specs.Tables.{is_known, is_veiled, p_states, pair_read};
ghost use Rattle.pw_lint.specs.Tables.{percentages, registers, stands, states_read, t_states};

use acpi_idle::read_cst;
use acpi_perf::{read_control, read_dependency, read_pss, read_tss};
use acpi_space::{Object, Space};
use acpi_values::{CState, ControlPair, Dependency, PState, ReadFault, Shape, TState};
use aml_data::{Data, FullPath, Seg, Width, integer};
use pw_base::{List, Memory};
use std::alloc::Global;

/// A data object, and the width of its integers.
#[derive(Clone, Copy)]
struct Given<'a> {
    object: &'a Data,
    width: Width,
}

/// The path of a segment below a path.
pub(crate) fn path_below(alloc: Global, path: &FullPath, seg: Seg) -> Result<FullPath, Memory>
    ensures { IfOk result (λ p. p ≡ below path.now seg) }
{
    let mut segs = Vec::from_slice(alloc, path.segs.as_slice())?;
    segs.push(seg)?;
    Ok(FullPath {
        segs: List::from_vec(segs),
    })
}

/// Whether an object stands at a segment below a path, of whatever sort.
#[tactic(auto, unfolding(crate::specs::Tables::stands))]
pub(crate) fn stands(
    alloc: Global,
    space: &Space<'_>,
    path: &FullPath,
    seg: Seg,
) -> Result<bool, Memory>
    ensures { IfOk result (λ b. b ≡ stands space.now path.now seg) }
{
    let _objects = space.placed();
    let place = path_below(alloc, path, seg)?;
    let Some(_placed) = space.find(&place) else {
        return Ok(false);
    };
    Ok(true)
}

/// The data object at a segment below a path.
#[tactic(auto, unfolding(crate::specs::Tables::given_at))]
fn given_below<'a>(
    alloc: Global,
    space: &Space<'a>,
    path: &FullPath,
    seg: Seg,
) -> Result<Option<Given<'a>>, Memory>
    requires { AreCountable space.now }
    ensures value { IfOk result (λ o. option_map (λ g. record { object = g.object.now; width = g.width }) o
        ≡ given_at space.now (below path.now seg).segs) }
    ensures countable { IfOk result (λ o. IfSome o (λ g. IsCountable g.object.now)) }
{
    let _objects = space.placed();
    let table = path_below(alloc, path, seg)?;
    let Some(placed) = space.find(&table) else {
        return Ok(None);
    };
    match placed.object {
        Object::Data(object) => Ok(Some(Given {
            object,
            width: placed.width,
        })),
        Object::Device | Object::Processor | Object::Method | Object::Alias(_) => Ok(None),
    }
}

/// Whether what an object means isn't known: it is a method or an alias.
fn is_veiled(object: Object<'_>) -> bool
    ensures { result ≡ is_veiled (thing object.entry) }
{
    match object {
        Object::Method | Object::Alias(_) => true,
        Object::Data(_) | Object::Device | Object::Processor => false,
    }
}

/// Whether it is known what stands at a segment below a path, if anything.
#[tactic(auto, unfolding(crate::specs::Tables::is_known))]
pub(crate) fn is_known(
    alloc: Global,
    space: &Space<'_>,
    path: &FullPath,
    seg: Seg,
) -> Result<bool, Memory>
    ensures { IfOk result (λ b. b ≡ is_known space.now path.now seg) }
{
    let _objects = space.placed();
    let place = path_below(alloc, path, seg)?;
    let Some(placed) = space.find(&place) else {
        return Ok(true);
    };
    Ok(!is_veiled(placed.object))
}

/// The integer at a segment below a path, where one stands there.
#[tactic(auto, unfolding(crate::specs::Tables::integer_at))]
pub(crate) fn integer_below(
    alloc: Global,
    space: &Space<'_>,
    path: &FullPath,
    seg: Seg,
) -> Result<Option<u64>, Memory>
    requires { AreCountable space.now }
    ensures { IfOk result (λ n. n ≡ integer_at space.now path.now seg) }
{
    match given_below(alloc, space, path, seg)? {
        None => Ok(None),
        Some(given) => Ok(integer(given.object, given.width)),
    }
}

/// The states that were read of an object, none where it means nothing.
fn states_read<S: Drop>(alloc: Global, read: Result<Vec<S>, ReadFault>) -> Result<Vec<S>, Memory>
    ensures { (states : Read (list_type S)) → Gives (λ r. r.items) read states
        → IfOk result (λ r. r.items ≡ states_read states) }
{
    match read {
        Ok(states) => Ok(states),
        Err(ReadFault::Shape { place: _, why: _ }) => Ok(Vec::new(alloc)),
        Err(ReadFault::Memory) => Err(Memory),
    }
}

/// The C states of `_CST` below a path.
#[tactic(auto, unfolding(crate::specs::Tables::c_states))]
pub(crate) fn c_states(
    alloc: Global,
    space: &Space<'_>,
    path: &FullPath,
) -> Result<Vec<CState>, Memory>
    requires { AreCountable space.now }
    ensures { IfOk result (λ r. r.items ≡ c_states space.now path.now) }
{
    match given_below(alloc, space, path, Seg::of_segment(*b"_CST"))? {
        None => Ok(Vec::new(alloc)),
        Some(given) => states_read(alloc, read_cst(alloc, given.object, given.width)),
    }
}

/// The performance states of `_PSS` below a path.
#[tactic(auto, unfolding(crate::specs::Tables::p_states))]
pub(crate) fn p_states(
    alloc: Global,
    space: &Space<'_>,
    path: &FullPath,
) -> Result<Vec<PState>, Memory>
    requires { AreCountable space.now }
    ensures { IfOk result (λ r. r.items ≡ p_states space.now path.now) }
{
    match given_below(alloc, space, path, Seg::of_segment(*b"_PSS"))? {
        None => Ok(Vec::new(alloc)),
        Some(given) => states_read(alloc, read_pss(alloc, given.object, given.width)),
    }
}

/// The throttling states of `_TSS` below a path.
#[tactic(auto, unfolding(crate::specs::Tables::t_states))]
pub(crate) fn t_states(
    alloc: Global,
    space: &Space<'_>,
    path: &FullPath,
) -> Result<Vec<TState>, Memory>
    requires { AreCountable space.now }
    ensures { IfOk result (λ r. r.items ≡ t_states space.now path.now) }
{
    match given_below(alloc, space, path, Seg::of_segment(*b"_TSS"))? {
        None => Ok(Vec::new(alloc)),
        Some(given) => states_read(alloc, read_tss(alloc, given.object, given.width)),
    }
}

/// How fast performance states are, in MHz.
pub(crate) fn frequencies(alloc: Global, states: &[PState]) -> Result<Vec<u32>, Memory>
    ensures { IfOk result (λ r. r.items ≡ frequencies states.now) }
{
    Ok(states.iter().map(|state| state.frequency).collect(alloc)?)
}

/// How fast throttling states are, in percent.
pub(crate) fn percentages(alloc: Global, states: &[TState]) -> Result<Vec<u32>, Memory>
    ensures { IfOk result (λ r. r.items ≡ percentages states.now) }
{
    Ok(states.iter().map(|state| state.percent).collect(alloc)?)
}

/// The registers that an object means.
fn pair_read(read: Result<ControlPair, Shape>) -> Option<ControlPair>
    ensures { result ≡ pair_read read }
{
    match read {
        Ok(pair) => Some(pair),
        Err(_) => None,
    }
}

/// The registers of `_PCT` below a path.
#[tactic(auto, unfolding(crate::specs::Tables::registers))]
pub(crate) fn registers(
    alloc: Global,
    space: &Space<'_>,
    path: &FullPath,
) -> Result<Option<ControlPair>, Memory>
    requires { AreCountable space.now }
    ensures { IfOk result (λ o. o ≡ registers space.now path.now) }
{
    match given_below(alloc, space, path, Seg::of_segment(*b"_PCT"))? {
        None => Ok(None),
        Some(given) => Ok(pair_read(read_control(given.object))),
    }
}

/// What an object declares of a domain.
fn dependency_read(read: Result<Dependency, Shape>) -> Option<Dependency>
    ensures { result ≡ dependency_read read }
{
    match read {
        Ok(declared) => Some(declared),
        Err(_) => None,
    }
}

/// What `_PSD` below a path declares.
#[tactic(auto, unfolding(crate::specs::Tables::dependency))]
pub(crate) fn dependency(
    alloc: Global,
    space: &Space<'_>,
    path: &FullPath,
) -> Result<Option<Dependency>, Memory>
    requires { AreCountable space.now }
    ensures { IfOk result (λ d. d ≡ dependency space.now path.now) }
{
    match given_below(alloc, space, path, Seg::of_segment(*b"_PSD"))? {
        None => Ok(None),
        Some(given) => Ok(dependency_read(read_dependency(given.object, given.width))),
    }
}
