ghost use Rattle.std.specs.Prelude.{◌≡◌, ◌∷◌, ◌++◌, [], IfOk, OnOk};
ghost use Rattle.pw_findings.specs.Findings.{finding, when};

use crate::finding::{Finding, FindingKind};
use aml_data::{FullPath, copy_full_path};
use pw_base::Memory;
use std::alloc::Global;

/// A copy of a path, and a value beside it.
fn beside<T: Drop>(alloc: Global, path: &FullPath, value: T) -> Result<(FullPath, T), Memory>
    ensures { IfOk result (λ both. (both.0 ≡ path.now) × (both.1 ≡ value)) }
{
    let path = copy_full_path(alloc, path)?;
    Ok((path, value))
}

/// Adds what is amiss with the object at a path.
pub(crate) fn add_at(
    path: FullPath,
    kind: FindingKind,
    found: &mut Vec<Finding>,
) -> Result<(), Memory>
    ensures { OnOk result (found.new.items ≡ found.old.items ++ finding path kind ∷ []) }
{
    found.push(Finding { path, kind })?;
    Ok(())
}

/// Adds what is amiss with the object at a path, which is copied.
pub fn add(
    alloc: Global,
    path: &FullPath,
    kind: FindingKind,
    found: &mut Vec<Finding>,
) -> Result<(), Memory>
    ensures { OnOk result (found.new.items ≡ found.old.items ++ finding path.now kind ∷ []) }
{
    let (path, kind) = beside(alloc, path, kind)?;
    add_at(path, kind, found)
}

/// Adds it where a test holds.
pub fn add_when(
    alloc: Global,
    holds: bool,
    path: &FullPath,
    kind: FindingKind,
    found: &mut Vec<Finding>,
) -> Result<(), Memory>
    ensures { OnOk result (found.new.items ≡ found.old.items ++ when holds (finding path.now kind)) }
{
    if holds {
        return add(alloc, path, kind, found);
    }
    drop(kind);
    Ok(())
}
