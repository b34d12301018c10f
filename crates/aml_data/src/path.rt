ghost use Rattle.std.specs.Prelude.{◌≡◌, IfOk};

use crate::seg::Seg;
use pw_base::{CompactList, List, Memory};
use std::alloc::Global;

/// A name as it is written, NameString: from the root, or so many steps up from the scope, and then
/// its segments (ACPI 6.5, 20.2.2). A path from the root has no steps up.
#[derive(Drop)]
pub struct Path {
    pub root: bool,
    pub ups: u32,
    pub segs: CompactList<Seg>,
}

/// The place of an object in the namespace: its segments from the root on. None is the root.
#[derive(Drop)]
pub struct FullPath {
    pub segs: List<Seg>,
}

/// A path equal to this one.
pub fn copy_path(alloc: Global, path: &Path) -> Result<Path, Memory>
    ensures { IfOk result (λ copy. copy ≡ path.now) }
{
    let segs = CompactList::from_slice(alloc, path.segs.as_slice())?;
    Ok(Path {
        root: path.root,
        ups: path.ups,
        segs,
    })
}

/// A full path equal to this one.
pub fn copy_full_path(alloc: Global, path: &FullPath) -> Result<FullPath, Memory>
    ensures { IfOk result (λ copy. copy ≡ path.now) }
{
    let segs = Vec::from_slice(alloc, path.segs.as_slice())?;
    Ok(FullPath {
        segs: List::from_vec(segs),
    })
}
