//! What is found of containers and processors as devices: whether they are there, and their names for the
//! hardware.

ghost use Rattle.std.specs.Prelude.{◌≡◌, ◌<◌, ◌++◌, length, IfOk, OnOk};
ghost use Rattle.acpi_build.specs.Tables.{AreCountable};
ghost use Rattle.acpi_space.specs.Things.{thing};
ghost use Rattle.pw_plan.specs.Parts.{cpu_in};
ghost use Rattle.pw_findings.specs.Findings.{of_each};
ghost use Rattle.pw_lint.specs.Devices.{beside, by_status, is_device, is_device_itself, is_enabled};
ghost use Rattle.pw_lint.specs.Devices.{is_present};
ghost use Rattle.pw_lint.specs.Devices.{same_uid, status_findings, twin, twin_at, twin_findings, uid_of};
ghost use Rattle.pw_lint.specs.Devices.{uids_of, unnamed};

use crate::reading::{integer_below, stands};
use acpi_space::{Object, Space};
use aml_data::{FullPath, Seg, copy_full_path};
use pw_base::{List, Memory};
use pw_findings::{Finding, FindingKind, OfDevice, add, add_when};
use pw_plan::CpuParts;
use std::alloc::Global;

/// Whether the device is present, by its `_STA`.
fn is_present(status: u64) -> bool
    ensures { result ≡ is_present status }
{
    status % 2 == 1
}

/// Whether it is enabled.
fn is_enabled(status: u64) -> bool
    ensures { result ≡ is_enabled status }
{
    status / 2 % 2 == 1
}

/// Adds that a device isn't present, or is and isn't enabled.
fn find_by_status(
    alloc: Global,
    path: &FullPath,
    status: Option<u64>,
    found: &mut Vec<Finding>,
) -> Result<(), Memory>
    ensures { OnOk result (found.new.items ≡ found.old.items ++ by_status path.now status) }
{
    let Some(status) = status else {
        return Ok(());
    };
    let (amiss, holds) = if is_present(status) {
        (OfDevice::NotEnabled { status }, !is_enabled(status))
    } else {
        (OfDevice::NotPresent { status }, true)
    };
    add_when(alloc, holds, path, FindingKind::Device(amiss), found)
}

/// Adds that a container or a processor isn't present, or is and isn't enabled.
#[tactic(auto, unfolding(crate::specs::Devices::status_findings))]
pub(crate) fn find_status(
    alloc: Global,
    space: &Space<'_>,
    path: &FullPath,
    found: &mut Vec<Finding>,
) -> Result<(), Memory>
    requires { AreCountable space.now }
    ensures { OnOk result (found.new.items ≡ found.old.items ++ status_findings space.now path.now) }
{
    let status = integer_below(alloc, space, path, Seg::of_segment(*b"_STA"))?;
    find_by_status(alloc, path, status, found)
}

/// Whether an object is a device.
fn is_device_itself(object: Object<'_>) -> bool
    ensures { result ≡ is_device_itself (thing object.entry) }
{
    match object {
        Object::Device => true,
        Object::Data(_) | Object::Processor | Object::Method | Object::Alias(_) => false,
    }
}

/// Whether a device stands there. It takes no memory.
#[tactic(auto, unfolding(crate::specs::Devices::is_device))]
fn is_device(space: &Space<'_>, path: &FullPath) -> bool
    ensures { result ≡ is_device space.now path.now }
{
    let _objects = space.placed();
    let Some(placed) = space.find(path) else {
        return false;
    };
    is_device_itself(placed.object)
}

/// Adds that a processor device has no name for the hardware.
#[tactic(auto, unfolding(crate::specs::Devices::unnamed))]
pub(crate) fn find_unnamed(
    alloc: Global,
    space: &Space<'_>,
    path: &FullPath,
    found: &mut Vec<Finding>,
) -> Result<(), Memory>
    ensures { OnOk result (found.new.items ≡ found.old.items ++ unnamed space.now path.now) }
{
    let named = stands(alloc, space, path, Seg::of_segment(*b"_UID"))?;
    let absent = is_device(space, path) && !named;
    let kind = FindingKind::Device(OfDevice::NoUid);
    add_when(alloc, absent, path, kind, found)
}

/// The number by which the hardware knows a processor device.
#[tactic(auto, unfolding(crate::specs::Devices::uid_of))]
fn uid_of(alloc: Global, space: &Space<'_>, path: &FullPath) -> Result<Option<u64>, Memory>
    requires { AreCountable space.now }
    ensures { IfOk result (λ uid. uid ≡ uid_of space.now path.now) }
{
    if is_device(space, path) {
        return integer_below(alloc, space, path, Seg::of_segment(*b"_UID"));
    }
    Ok(None)
}

/// Those of processors.
fn uids_of(alloc: Global, space: &Space<'_>, cpus: &[CpuParts]) -> Result<Vec<Option<u64>>, Memory>
    requires { AreCountable space.now }
    ensures { IfOk result (λ uids. uids.items ≡ uids_of space.now cpus.now) }
{
    let mut uids = Vec::new(alloc);
    for cpu in cpus {
        uids.push(uid_of(alloc, space, &cpu.path)?)?;
    }
    Ok(uids)
}

/// Whether both are there, and the same.
fn same_uid(uid: Option<u64>, other: Option<u64>) -> bool
    ensures { result ≡ same_uid uid other }
{
    match (uid, other) {
        (Some(uid), Some(other)) => uid == other,
        _ => false,
    }
}

/// The first processor before processor k that has its number.
fn twin(uids: &[Option<u64>], k: usize) -> Option<usize>
    requires { k < length uids.now }
    ensures { result ≡ twin uids.now k }
{
    let uid = uids[k];
    uids[..k].iter().position(|other| same_uid(uid, *other))
}

/// The path of processor k.
#[tactic(auto, unfolding(pw_plan::specs::Parts::no_cpu))]
pub(crate) fn path_in(alloc: Global, cpus: &[CpuParts], k: usize) -> Result<FullPath, Memory>
    ensures { IfOk result (λ path. path ≡ (cpu_in cpus.now k).path) }
{
    match cpus.get(k) {
        None => Ok(FullPath {
            segs: List::from_vec(Vec::new(alloc)),
        }),
        Some(cpu) => copy_full_path(alloc, &cpu.path),
    }
}

/// Adds that processor k has the number of an earlier one.
fn find_twin(
    alloc: Global,
    cpus: &[CpuParts],
    uids: &[Option<u64>],
    k: usize,
    found: &mut Vec<Finding>,
) -> Result<(), Memory>
    requires { k < length uids.now }
    ensures { OnOk result (found.new.items ≡ found.old.items ++ twin_at cpus.now uids.now k) }
{
    let Some(earlier) = twin(uids, k) else {
        return Ok(());
    };
    let path = path_in(alloc, cpus, k)?;
    let amiss = OfDevice::SameUid {
        uid: uids[k].unwrap_or(0),
        earlier: path_in(alloc, cpus, earlier)?,
    };
    add(alloc, &path, FindingKind::Device(amiss), found)
}

/// Adds which processors have the numbers of earlier ones.
fn find_all_twins(
    alloc: Global,
    cpus: &[CpuParts],
    uids: &[Option<u64>],
    found: &mut Vec<Finding>,
) -> Result<(), Memory>
    ensures { OnOk result (found.new.items ≡ found.old.items
        ++ of_each (length uids.now) (twin_at cpus.now uids.now)) }
{
    for k in 0..uids.len() {
        find_twin(alloc, cpus, uids, k, found)?;
    }
    Ok(())
}

/// Adds which processor devices have one name for the hardware.
#[tactic(auto, unfolding(crate::specs::Devices::twin_findings))]
pub(crate) fn find_twins(
    alloc: Global,
    space: &Space<'_>,
    cpus: &[CpuParts],
    found: &mut Vec<Finding>,
) -> Result<(), Memory>
    requires { AreCountable space.now }
    ensures { OnOk result (found.new.items ≡ found.old.items ++ twin_findings space.now cpus.now) }
{
    let uids = uids_of(alloc, space, cpus)?;
    find_all_twins(alloc, cpus, &uids, found)
}
