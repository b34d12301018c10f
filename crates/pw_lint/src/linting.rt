ghost use Rattle.std.specs.Prelude.{◌≡◌, ◌++◌, IfOk, OnOk};
ghost use Rattle.acpi_build.specs.Tables.{AreCountable};
ghost use Rattle.std.specs.List.{flat_map};
ghost use Rattle.pw_lint.specs.Machine.{findings, object_findings, outcome_findings, AreFindings};
ghost use Rattle.pw_lint.specs.Passed.{passed_findings};

use crate::cpc_domains::find_in_cpc_domains;
use crate::devices::find_twins;
use crate::notes::{find_in_faults, find_in_notes, find_past_limit};
use crate::passed::find_passed;
use crate::processors::{find_in_containers, find_in_cpus};
use acpi_build::{Note, Outcome, Survey, survey_objects};
use acpi_space::{PassedOver, Space};
use pw_base::Memory;
use pw_findings::{Finding, find_in_domains};
use pw_plan::Plan;
use std::alloc::Global;

/// Adds what is found of a plan and its notes.
#[tactic(auto, unfolding(crate::specs::Machine::findings))]
fn find_in_plan(
    alloc: Global,
    space: &Space<'_>,
    plan: &Plan,
    notes: &[Note],
    found: &mut Vec<Finding>,
) -> Result<(), Memory>
    requires { AreCountable space.now }
    ensures { OnOk result (found.new.items ≡ found.old.items
        ++ findings space.now plan.now.containers plan.now.cpus plan.now.domains notes.now) }
{
    let containers = plan.containers.as_slice();
    let cpus = plan.cpus.as_slice();
    find_in_notes(alloc, notes, found)?;
    find_in_containers(alloc, space, containers, found)?;
    find_in_cpus(alloc, space, containers, cpus, found)?;
    find_twins(alloc, space, cpus, found)?;
    find_in_domains(alloc, cpus, plan.domains.as_slice(), found)?;
    find_in_cpc_domains(alloc, space, cpus, found)
}

/// Adds what is found of what objects make, and of the notes then.
fn find_in_outcome(
    alloc: Global,
    space: &Space<'_>,
    outcome: &Outcome,
    notes: &[Note],
    found: &mut Vec<Finding>,
) -> Result<(), Memory>
    requires { AreCountable space.now }
    ensures { OnOk result (found.new.items ≡ found.old.items
        ++ outcome_findings space.now outcome.now notes.now) }
{
    match outcome {
        Outcome::Planned(plan) => find_in_plan(alloc, space, plan, notes, found),
        Outcome::PastLimit { which, number } => {
            find_in_notes(alloc, notes, found)?;
            find_past_limit(alloc, *which, *number, found)
        }
    }
}

/// What is found of terms that were passed over, of objects that mean nothing, and of what the others make.
fn find_in_survey(
    alloc: Global,
    space: &Space<'_>,
    passed: &[PassedOver],
    survey: &Survey,
) -> Result<Vec<Finding>, Memory>
    requires { AreCountable space.now }
    ensures { IfOk result (λ found. found.items ≡ flat_map passed_findings passed.now
        ++ object_findings space.now survey.now.faults survey.now.outcome survey.now.notes) }
{
    let mut found = Vec::new(alloc);
    find_passed(alloc, passed, &mut found)?;
    find_in_faults(alloc, survey.faults.as_slice(), &mut found)?;
    let notes = survey.notes.as_slice();
    find_in_outcome(alloc, space, &survey.outcome, notes, &mut found)?;
    Ok(found)
}

/// What is found of the objects of a namespace (ACPI 6.5, 8.4), beside the terms that were passed over: of
/// each of these, then of each object that means nothing, and then of the plan that the others tell of, in
/// the order of its notes, containers, processors and domains.
pub fn find_all(
    alloc: Global,
    space: &Space<'_>,
    passed: &[PassedOver],
) -> Result<Vec<Finding>, Memory>
    requires { AreCountable space.now }
    ensures { IfOk result (λ found. AreFindings space.now passed.now found.items) }
{
    let survey = survey_objects(alloc, space)?;
    find_in_survey(alloc, space, passed, &survey)
}
