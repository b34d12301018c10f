//! What is found of C states.

ghost use Rattle.std.specs.Prelude.{◌≡◌, ◌<◌, ◌++◌, length, OnOk};
ghost use Rattle.pw_states.specs.CStates.{c_state_findings, costlier, cst_findings, lowered, rootless};

use acpi_values::CState;
use aml_data::FullPath;
use pw_base::Memory;
use pw_findings::{Finding, FindingKind, OfCst, add};
use std::alloc::Global;

/// Adds that the first state is of another type than C1.
fn find_rootless(
    alloc: Global,
    path: &FullPath,
    states: &[CState],
    k: usize,
    found: &mut Vec<Finding>,
) -> Result<(), Memory>
    requires { k < length states.now }
    ensures { OnOk result (found.new.items ≡ found.old.items ++ rootless path.now states.now k) }
{
    let kind = states[k].kind;
    if k == 0 && kind != 1 {
        let amiss = OfCst::NoC1 { kind };
        return add(alloc, path, FindingKind::Cst(amiss), found);
    }
    Ok(())
}

/// Adds that the state behind state k is of a lower type.
fn find_lowered(
    alloc: Global,
    path: &FullPath,
    states: &[CState],
    k: usize,
    found: &mut Vec<Finding>,
) -> Result<(), Memory>
    requires { k < length states.now }
    ensures { OnOk result (found.new.items ≡ found.old.items ++ lowered path.now states.now k) }
{
    if k + 1 < states.len() && states[k + 1].kind < states[k].kind {
        let amiss = OfCst::TypeFalls {
            state: k + 2,
            kind: states[k + 1].kind,
            before: states[k].kind,
        };
        return add(alloc, path, FindingKind::Cst(amiss), found);
    }
    Ok(())
}

/// Adds that the state behind state k takes more power.
fn find_costlier(
    alloc: Global,
    path: &FullPath,
    states: &[CState],
    k: usize,
    found: &mut Vec<Finding>,
) -> Result<(), Memory>
    requires { k < length states.now }
    ensures { OnOk result (found.new.items ≡ found.old.items ++ costlier path.now states.now k) }
{
    if k + 1 < states.len() && states[k].power < states[k + 1].power {
        let amiss = OfCst::PowerRises {
            state: k + 2,
            power: states[k + 1].power,
            before: states[k].power,
        };
        return add(alloc, path, FindingKind::Cst(amiss), found);
    }
    Ok(())
}

/// Adds what is found of state k.
fn find_in_c_state(
    alloc: Global,
    path: &FullPath,
    states: &[CState],
    k: usize,
    found: &mut Vec<Finding>,
) -> Result<(), Memory>
    requires { k < length states.now }
    ensures { OnOk result (found.new.items ≡ found.old.items ++ c_state_findings path.now states.now k) }
{
    find_rootless(alloc, path, states, k, found)?;
    find_lowered(alloc, path, states, k, found)?;
    find_costlier(alloc, path, states, k, found)
}

/// Adds what is found of C states.
#[tactic(auto, unfolding(crate::specs::CStates::cst_findings))]
pub fn find_in_cst(
    alloc: Global,
    path: &FullPath,
    states: &[CState],
    found: &mut Vec<Finding>,
) -> Result<(), Memory>
    ensures { OnOk result (found.new.items ≡ found.old.items ++ cst_findings path.now states.now) }
{
    for k in 0..states.len() {
        find_in_c_state(alloc, path, states, k, found)?;
    }
    Ok(())
}
