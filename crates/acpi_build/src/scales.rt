//! Performance and throttling states: `_PSS`, `_PCT`, `_PPC` and `_PSD`, `_TSS`, `_PTC`, `_TPC` and `_TSD`.

ghost use Rattle.std.specs.Prelude.{◌≡◌, ◌<◌, ◌^◌, [], List, length, map, IfOk, IfSome, true};
ghost use Rattle.std.specs.Option.{option_map};
ghost use Rattle.acpi_values.specs.declared.performance.PState.{PState as p_state};
ghost use Rattle.acpi_values.specs.declared.performance.TState.{TState as t_state};
ghost use Rattle.pw_plan.specs.Parts.{has_states};
ghost use Rattle.acpi_build.specs.inner.Answers.{Builds};
ghost use Rattle.acpi_build.specs.Tables.{AreCountable};
ghost use Rattle.acpi_build.specs.Machine.{perf_of, register_in};
ghost use Rattle.acpi_build.specs.Machine.{scale_of, throttle_of};

use crate::names::Name;
use crate::said::Said;
use crate::tables::{find_control, find_dependency, find_limit, find_pss, find_tss};
use acpi_space::Space;
use acpi_values::{ControlPair, PState, Register, TState};
use pw_base::{List, Memory};
use pw_plan::Scale;
use std::alloc::Global;

/// The control register, unless it is absent or null.
fn control_register(pair: Option<ControlPair>) -> Option<Register>
    ensures { result ≡ register_in pair }
{
    match pair {
        None => None,
        Some(pair) => {
            if pair.control.is_null() {
                None
            } else {
                Some(pair.control)
            }
        }
    }
}

/// The scale with these control values, if there are any.
#[tactic(auto, unfolding(crate::specs::Machine::scale_of))]
fn scale(
    alloc: Global,
    space: &Space,
    index: usize,
    names: (Name, Name, Name),
    controls: Option<List<u32>>,
    said: &mut Said,
) -> Result<Option<Scale>, Memory>
    requires within { index < length space.now }
    requires countable { AreCountable space.now }
    ensures value { Builds (λ o. o) result said.old said.new
        (scale_of space.now index names.0 names.1 names.2 controls) }
    ensures fit { IfSome controls (λ l. 0 < length l) → IfOk result (λ o. has_states o ≡ true) }
{
    let (control, limit, domain) = names;
    let pair = find_control(alloc, space, index, control, said)?;
    let first = find_limit(alloc, space, index, limit, said)?;
    let dependency = find_dependency(alloc, space, index, domain, said)?;
    match controls {
        None => Ok(None),
        Some(controls) => Ok(Some(Scale {
            controls,
            register: control_register(pair),
            limit: first.unwrap_or(0),
            dependency,
        })),
    }
}

fn perf_controls(alloc: Global, states: &[PState]) -> Result<List<u32>, Memory>
    ensures { IfOk result (λ l. l ≡ map (λ (s : p_state). s.control) states.now) }
{
    let mut controls = Vec::new(alloc);
    for state in states {
        controls.push(state.control)?;
    }
    Ok(List::from_vec(controls))
}

fn throttle_controls(alloc: Global, states: &[TState]) -> Result<List<u32>, Memory>
    ensures { IfOk result (λ l. l ≡ map (λ (s : t_state). s.control) states.now) }
{
    let mut controls = Vec::new(alloc);
    for state in states {
        controls.push(state.control)?;
    }
    Ok(List::from_vec(controls))
}

/// The performance states of a processor.
#[tactic(auto, unfolding(crate::specs::Machine::perf_of))]
pub(crate) fn read_perf(
    alloc: Global,
    space: &Space,
    index: usize,
    said: &mut Said,
) -> Result<Option<Scale>, Memory>
    requires within { index < length space.now }
    requires countable { AreCountable space.now }
    ensures value { Builds (λ o. o) result said.old said.new (perf_of space.now index) }
    ensures fit { IfOk result (λ o. has_states o ≡ true) }
{
    let controls = match find_pss(alloc, space, index, said)? {
        Some(states) => Some(perf_controls(alloc, states.as_slice())?),
        None => None,
    };
    scale(
        alloc,
        space,
        index,
        (Name::Pct, Name::Ppc, Name::Psd),
        controls,
        said,
    )
}

/// The throttling states of a processor.
#[tactic(auto, unfolding(crate::specs::Machine::throttle_of))]
pub(crate) fn read_throttle(
    alloc: Global,
    space: &Space,
    index: usize,
    said: &mut Said,
) -> Result<Option<Scale>, Memory>
    requires within { index < length space.now }
    requires countable { AreCountable space.now }
    ensures value { Builds (λ o. o) result said.old said.new (throttle_of space.now index) }
    ensures fit { IfOk result (λ o. has_states o ≡ true) }
{
    let controls = match find_tss(alloc, space, index, said)? {
        Some(states) => Some(throttle_controls(alloc, states.as_slice())?),
        None => None,
    };
    scale(
        alloc,
        space,
        index,
        (Name::Ptc, Name::Tpc, Name::Tsd),
        controls,
        said,
    )
}
