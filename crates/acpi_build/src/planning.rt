ghost use Rattle.std.specs.Prelude.{◌≡◌, ◌<◌, [], ◌++◌, length, IfOk, IfErr, OnOk};
ghost use Rattle.std.specs.List.{All};
ghost use Rattle.pw_plan.specs.declared.domain.Domain.{Domain as domain_type};
ghost use Rattle.acpi_build.specs.Building.{IsFault};
ghost use Rattle.acpi_build.specs.Tables.{AreCountable};
ghost use Rattle.acpi_build.specs.Planning.{first_fault, parts_within, unfit_notes, IsPlanFrom, IsSurvey};

use crate::fault::{BuildFault, ObjectFault};
use crate::machine::read_parts;
use crate::note::{Note, NoteKind};
use crate::said::Said;
use crate::survey::{Outcome, Survey};
use acpi_space::Space;
use aml_data::copy_full_path;
use pw_base::{List, Memory};
use pw_plan::{Plan, PlanFault, in_32_bits};
use std::alloc::Global;

/// Notes the domains that can't be coordinated, each at its first member.
fn note_domains(alloc: Global, plan: &Plan, notes: &mut Vec<Note>) -> Result<(), Memory>
    requires { All (λ (d : domain_type). 0 < length d.members) plan.now.domains }
    ensures { OnOk result (notes.new.items ≡ notes.old.items
        ++ unfit_notes plan.now.cpus 0 plan.now.domains) }
{
    for (place, domain) in plan.domains.as_slice().iter().enumerate() {
        if domain.unfit > 0 {
            let first = domain.members.as_slice()[0];
            let path = copy_full_path(alloc, &plan.cpu(first).path)?;
            let kind = NoteKind::UnfitDomain {
                domain: in_32_bits(place),
            };
            notes.push(Note { path, kind })?;
        }
    }
    Ok(())
}

/// All that the objects of a namespace tell of (ACPI 6.5, 8.4): each that means nothing, in the order of
/// containers, processors and names, and what the others make: a plan, or the first limit of plans that
/// they pass. It is linear in the objects.
pub fn survey_objects(alloc: Global, space: &Space) -> Result<Survey, Memory>
    requires { AreCountable space.now }
    ensures { IfOk result (IsSurvey space.now) }
{
    let mut said = Said {
        notes: Vec::new(alloc),
        faults: Vec::new(alloc),
    };
    let (containers, cpus) = read_parts(alloc, space, &mut said)?;
    let Said { mut notes, faults } = said;
    let outcome = match Plan::new(alloc, containers, cpus) {
        Ok(plan) => {
            note_domains(alloc, &plan, &mut notes)?;
            Outcome::Planned(plan)
        }
        Err(PlanFault::Limit { which, number }) => Outcome::PastLimit { which, number },
        Err(PlanFault::Memory) => return Err(Memory),
    };
    Ok(Survey {
        faults: List::from_vec(faults),
        notes: List::from_vec(notes),
        outcome,
    })
}

/// The first fault of several.
fn first_fault(faults: List<ObjectFault>) -> Option<BuildFault>
    ensures { result ≡ first_fault faults }
{
    let mut faults = faults.into_vec();
    if faults.is_empty() {
        return None;
    }
    let ObjectFault { path, place, why } = faults.remove(0);
    Some(BuildFault::Object { path, place, why })
}

/// The plan of the machine that the objects of a namespace tell of (ACPI 6.5, 8.4), with notes of what
/// counts as absent and of the domains that can't be coordinated. `Object` comes where a table means
/// nothing: the first in the order of containers, processors and names. `Limit` comes where all tables
/// mean something, and a limit of plans is passed.
pub fn plan(alloc: Global, space: &Space) -> Result<(Plan, Vec<Note>), BuildFault>
    requires { AreCountable space.now }
    ensures plan { IfOk result (λ r. IsPlanFrom space.now r.0 r.1.items) }
    ensures fault { IfErr result (λ f. IsFault f (parts_within space.now [])) }
{
    let Survey {
        faults,
        notes,
        outcome,
    } = survey_objects(alloc, space)?;
    match first_fault(faults) {
        Some(fault) => Err(fault),
        None => match outcome {
            Outcome::Planned(plan) => Ok((plan, notes.into_vec())),
            Outcome::PastLimit { which, number } => Err(BuildFault::Limit { which, number }),
        },
    }
}
