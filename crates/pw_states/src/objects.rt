//! What is found of objects that mean nothing.

ghost use Rattle.std.specs.Prelude.{◌≡◌, ◌∷◌, ◌++◌, [], OnOk};
ghost use Rattle.pw_states.specs.Objects.{meaningless};

use acpi_values::{Place, Why};
use aml_data::FullPath;
use pw_base::Memory;
use pw_findings::{Finding, FindingKind, OfObject, add};
use std::alloc::Global;

/// Adds that an object means nothing: at which place, and why.
pub fn find_meaningless(
    alloc: Global,
    path: &FullPath,
    place: Place,
    why: Why,
    found: &mut Vec<Finding>,
) -> Result<(), Memory>
    ensures { OnOk result (found.new.items ≡ found.old.items ++ meaningless path.now place why ∷ []) }
{
    let amiss = OfObject::Meaningless { place, why };
    add(alloc, path, FindingKind::Object(amiss), found)
}
