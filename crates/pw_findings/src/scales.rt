//! What is found of performance and throttling states, but for how fast they are and their registers.

ghost use Rattle.std.specs.Prelude.{◌≡◌, ◌++◌, find, option_copied, OnOk};
ghost use Rattle.pw_findings.specs.Scales.{alike, declares, limit_amiss, of_scale, undeclared, unsteered};
ghost use Rattle.pw_plan.specs.Parts.{scale_of};

use crate::adding::{add, add_when};
use crate::controls::find_wide;
use crate::finding::{Finding, FindingKind, OfControl, OfLimit, OfScale};
use crate::firsts::first_repeat;
use aml_data::{FullPath, copy_full_path};
use pw_base::Memory;
use pw_plan::{CpuParts, DomainKind, Scale};
use std::alloc::Global;

/// Whether it is known what stands for the control register of a processor's states, and for their domain:
/// neither a method nor an alias.
#[derive(Clone, Copy)]
pub struct Known {
    pub register: bool,
    pub domain: bool,
}

/// What is amiss with a limit at the start that is above 0.
fn limit_amiss(limit: u32, count: usize) -> OfLimit
    ensures { result ≡ limit_amiss limit count }
{
    if count <= limit as usize {
        OfLimit::Past { limit, count }
    } else {
        OfLimit::AtStart { limit }
    }
}

/// Whether a processor declares a domain for its states of this kind.
fn declares(kind: DomainKind, cpu: &CpuParts) -> bool
    ensures { result ≡ declares kind cpu.now }
{
    match cpu.scale(kind) {
        None => false,
        Some(scale) => scale.dependency.is_some(),
    }
}

/// The first processor that declares a domain for its states of this kind.
pub fn first_declaring(kind: DomainKind, cpus: &[CpuParts]) -> Option<&CpuParts>
    ensures { option_copied result ≡ find (declares kind) cpus.now }
{
    cpus.iter().find(|cpu| declares(kind, cpu))
}

/// Adds that states are in no declared domain, where those of another processor are.
fn find_undeclared(
    alloc: Global,
    kind: DomainKind,
    path: &FullPath,
    known: bool,
    scale: &Scale,
    declaring: Option<&CpuParts>,
    found: &mut Vec<Finding>,
) -> Result<(), Memory>
    ensures { OnOk result (found.new.items ≡ found.old.items
        ++ undeclared kind path.now known scale.now (option_copied declaring.entry)) }
{
    let Some(other) = declaring else {
        return Ok(());
    };
    let of = OfScale::NoDomain {
        other: copy_full_path(alloc, &other.path)?,
    };
    let absent = known && scale.dependency.is_none();
    add_when(alloc, absent, path, FindingKind::Scale { kind, of }, found)
}

/// Adds that two states have one control value.
fn find_alike(
    alloc: Global,
    kind: DomainKind,
    path: &FullPath,
    scale: &Scale,
    found: &mut Vec<Finding>,
) -> Result<(), Memory>
    ensures { OnOk result (found.new.items ≡ found.old.items ++ alike kind path.now scale.now) }
{
    let Some(repeat) = first_repeat(scale.controls.as_slice()) else {
        return Ok(());
    };
    let of = OfScale::ControlRepeats(repeat);
    add(alloc, path, FindingKind::Scale { kind, of }, found)
}

/// Adds that states have no control register.
fn find_unsteered(
    alloc: Global,
    kind: DomainKind,
    path: &FullPath,
    known: bool,
    scale: &Scale,
    found: &mut Vec<Finding>,
) -> Result<(), Memory>
    ensures { OnOk result (found.new.items ≡ found.old.items ++ unsteered kind path.now known scale.now) }
{
    let absent = known && scale.register.is_none();
    let of = OfControl::Absent;
    add_when(
        alloc,
        absent,
        path,
        FindingKind::Control { kind, of },
        found,
    )
}

/// Adds what is found of a scale.
fn find_of_scale(
    alloc: Global,
    kind: DomainKind,
    path: &FullPath,
    known: Known,
    scale: &Scale,
    declaring: Option<&CpuParts>,
    found: &mut Vec<Finding>,
) -> Result<(), Memory>
    ensures { OnOk result (found.new.items ≡ found.old.items
        ++ of_scale kind path.now known (option_copied declaring.entry) (Some scale.now)) }
{
    let count = scale.controls.as_slice().len();
    let alone = count == 1;
    let of = OfScale::OneState;
    add_when(alloc, alone, path, FindingKind::Scale { kind, of }, found)?;
    find_unsteered(alloc, kind, path, known.register, scale, found)?;
    find_wide(alloc, kind, path, scale.register, found)?;
    let of = limit_amiss(scale.limit, count);
    let limited = scale.limit > 0;
    add_when(alloc, limited, path, FindingKind::Limit { kind, of }, found)?;
    find_undeclared(alloc, kind, path, known.domain, scale, declaring, found)?;
    find_alike(alloc, kind, path, scale, found)
}

/// Adds what is found of a processor's states of a kind, beside the first that declares a domain for its own.
pub fn find_in_scale(
    alloc: Global,
    kind: DomainKind,
    cpu: &CpuParts,
    known: Known,
    declaring: Option<&CpuParts>,
    found: &mut Vec<Finding>,
) -> Result<(), Memory>
    ensures { OnOk result (found.new.items ≡ found.old.items
        ++ of_scale kind cpu.now.path known (option_copied declaring.entry) (scale_of kind cpu.now)) }
{
    match cpu.scale(kind) {
        None => Ok(()),
        Some(scale) => find_of_scale(alloc, kind, &cpu.path, known, scale, declaring, found),
    }
}
