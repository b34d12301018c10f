ghost use Rattle.std.specs.Prelude.{◌≡◌, ◌∷◌, ◌++◌, [], map, OnOk};
ghost use Rattle.std.specs.List.{flat_map};
ghost use Rattle.pw_lint.specs.Notes.{fault_finding, limit_finding, note_findings, noted_kind, of_object};

use acpi_build::{Note, NoteKind, ObjectFault};
use aml_data::FullPath;
use pw_base::{List, Memory};
use pw_findings::{Finding, FindingKind, OfObject, Unused, add};
use pw_states::find_meaningless;
use std::alloc::Global;

/// What a note says of its object.
fn noted_kind(kind: NoteKind) -> Option<Unused>
    ensures { result ≡ noted_kind kind }
{
    match kind {
        NoteKind::ByMethod => Some(Unused::Method),
        NoteKind::ByAlias => Some(Unused::Alias),
        NoteKind::Empty => Some(Unused::Empty),
        NoteKind::Ignored => Some(Unused::BesideLpi),
        NoteKind::NoSuchState => Some(Unused::NoSuchState),
        NoteKind::UnfitDomain { domain: _ } => None,
    }
}

/// Adds why an object isn't used, where there is a reason.
pub(crate) fn find_unused(
    alloc: Global,
    path: &FullPath,
    why: Option<Unused>,
    found: &mut Vec<Finding>,
) -> Result<(), Memory>
    ensures { OnOk result (found.new.items ≡ found.old.items ++ of_object path.now why) }
{
    match why {
        None => Ok(()),
        Some(why) => {
            let amiss = OfObject::Unused(why);
            add(alloc, path, FindingKind::Object(amiss), found)
        }
    }
}

/// Adds what is found of notes.
pub(crate) fn find_in_notes(
    alloc: Global,
    notes: &[Note],
    found: &mut Vec<Finding>,
) -> Result<(), Memory>
    ensures { OnOk result (found.new.items ≡ found.old.items ++ flat_map note_findings notes.now) }
{
    for note in notes {
        find_unused(alloc, &note.path, noted_kind(note.kind), found)?;
    }
    Ok(())
}

/// Adds what is found of objects that mean nothing.
pub(crate) fn find_in_faults(
    alloc: Global,
    faults: &[ObjectFault],
    found: &mut Vec<Finding>,
) -> Result<(), Memory>
    ensures { OnOk result (found.new.items ≡ found.old.items ++ map fault_finding faults.now) }
{
    for fault in faults {
        find_meaningless(alloc, &fault.path, fault.place, fault.why, found)?;
    }
    Ok(())
}

/// Adds what is found of a limit that is passed.
pub(crate) fn find_past_limit(
    alloc: Global,
    which: u8,
    number: u32,
    found: &mut Vec<Finding>,
) -> Result<(), Memory>
    ensures { OnOk result (found.new.items ≡ found.old.items ++ limit_finding which number ∷ []) }
{
    let root = FullPath {
        segs: List::from_vec(Vec::new(alloc)),
    };
    let amiss = OfObject::PastLimit { which, number };
    add(alloc, &root, FindingKind::Object(amiss), found)
}
