//! What is found of how fast performance and throttling states are, and how fast one changes to them.

ghost use Rattle.std.specs.Prelude.{◌≡◌, ◌<◌, ◌==◌, ◌++◌, length, position, OnOk};
ghost use Rattle.acpi_values.specs.declared.performance.PState.{PState as p_state};
ghost use Rattle.pw_findings.specs.declared.finding.FindingKind.TheVariants as kinds;
ghost use Rattle.pw_findings.specs.declared.finding.OfRate.TheVariants.{Repeats};
ghost use Rattle.pw_findings.specs.Findings.{of_each};
ghost use Rattle.pw_findings.specs.Firsts.{first_repeat};
ghost use Rattle.pw_findings.specs.Scales.{latency_findings, rate_at, rate_findings, repeated};

use acpi_values::PState;
use aml_data::FullPath;
use pw_base::Memory;
use pw_findings::{Finding, FindingKind, OfRate, OfScale, add, add_when, first_repeat};
use pw_plan::DomainKind;
use std::alloc::Global;

/// Adds what is found of the rate of state k.
fn find_at_rate(
    alloc: Global,
    kind: DomainKind,
    path: &FullPath,
    rates: &[u32],
    k: usize,
    found: &mut Vec<Finding>,
) -> Result<(), Memory>
    requires { k < length rates.now }
    ensures { OnOk result (found.new.items ≡ found.old.items ++ rate_at kind path.now rates.now k) }
{
    let before = rates[k];
    let of = OfRate::Zero { state: k };
    add_when(
        alloc,
        before == 0,
        path,
        FindingKind::Rate { kind, of },
        found,
    )?;
    let Some(next) = rates.get(k + 1) else {
        return Ok(());
    };
    let rate = *next;
    let of = OfRate::Rises {
        state: k + 1,
        rate,
        before,
    };
    add_when(
        alloc,
        before < rate,
        path,
        FindingKind::Rate { kind, of },
        found,
    )
}

/// Adds what is found of rates one after the other.
fn find_at_rates(
    alloc: Global,
    kind: DomainKind,
    path: &FullPath,
    rates: &[u32],
    found: &mut Vec<Finding>,
) -> Result<(), Memory>
    ensures { OnOk result (found.new.items ≡ found.old.items
        ++ of_each (length rates.now) (rate_at kind path.now rates.now)) }
{
    for k in 0..rates.len() {
        find_at_rate(alloc, kind, path, rates, k, found)?;
    }
    Ok(())
}

/// Adds that two states are as fast.
fn find_repeated(
    alloc: Global,
    kind: DomainKind,
    path: &FullPath,
    rates: &[u32],
    found: &mut Vec<Finding>,
) -> Result<(), Memory>
    ensures { OnOk result (found.new.items ≡ found.old.items
        ++ repeated path.now (λ r. kinds.Rate kind (Repeats r)) (first_repeat rates.now)) }
{
    let Some(repeat) = first_repeat(rates) else {
        return Ok(());
    };
    let of = OfRate::Repeats(repeat);
    add(alloc, path, FindingKind::Rate { kind, of }, found)
}

/// Adds what is found of the rates of states, in MHz or percent.
#[tactic(auto, unfolding(pw_findings::specs::Scales::rate_findings))]
pub fn find_in_rates(
    alloc: Global,
    kind: DomainKind,
    path: &FullPath,
    rates: &[u32],
    found: &mut Vec<Finding>,
) -> Result<(), Memory>
    ensures { OnOk result (found.new.items ≡ found.old.items ++ rate_findings kind path.now rates.now) }
{
    find_at_rates(alloc, kind, path, rates, found)?;
    find_repeated(alloc, kind, path, rates, found)
}

/// The first state that is changed to in no time.
fn first_hasty(states: &[PState]) -> Option<usize>
    ensures { result ≡ position (λ (s : p_state). s.latency == 0) states.now }
{
    states.iter().position(|state| state.latency == 0)
}

/// Adds that a performance state is changed to in no time.
pub fn find_hasty(
    alloc: Global,
    path: &FullPath,
    states: &[PState],
    found: &mut Vec<Finding>,
) -> Result<(), Memory>
    ensures { OnOk result (found.new.items ≡ found.old.items ++ latency_findings path.now states.now) }
{
    let Some(state) = first_hasty(states) else {
        return Ok(());
    };
    let kind = FindingKind::Scale {
        kind: DomainKind::Perf,
        of: OfScale::NoLatency { state },
    };
    add(alloc, path, kind, found)
}
