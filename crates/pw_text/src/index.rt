ghost use Rattle.std.specs.Prelude.{◌≡◌, IfOk, OnOk};
ghost use Rattle.aml_data.specs.Segment.{joined};
ghost use Rattle.pw_text.specs.Looking.{KeyLeadsAlso, LeadsAlso, led_by};

use aml_data::FullPath;
use pw_base::Memory;
use std::alloc::Global;
use std::collections::HashMap;

/// The segments of a path, one behind the other.
pub fn key_of(alloc: Global, path: &FullPath) -> Result<Vec<u8>, Memory>
    ensures { IfOk result (λ key. key.items ≡ joined path.now.segs) }
{
    let mut key = Vec::new(alloc);
    let mut left = path.segs.as_slice();
    while let [seg, rest @ ..] = left {
        key.extend_from_slice(&seg.bytes())?;
        left = rest;
    }
    Ok(key)
}

/// Lets a key lead to a number, wherever it led before.
pub(crate) fn index_key(
    index: &mut HashMap<Vec<u8>, u32>,
    key: Vec<u8>,
    number: u32,
) -> Result<(), Memory>
    ensures { OnOk result (KeyLeadsAlso key.items number index.old index.new) }
{
    index.insert(key, number)?;
    Ok(())
}

/// Lets the segments of a path lead to a number, wherever they led before. Who puts the paths of a list
/// from its last to its first has them lead to the first of each.
pub fn index_path(
    alloc: Global,
    index: &mut HashMap<Vec<u8>, u32>,
    path: &FullPath,
    number: u32,
) -> Result<(), Memory>
    ensures { OnOk result (LeadsAlso path.now.segs number index.old index.new) }
{
    index_key(index, key_of(alloc, path)?, number)
}

/// The number that segments lead to, as `write_name` writes them.
pub fn find_path(index: &HashMap<Vec<u8>, u32>, name: &Vec<u8>) -> Option<u32>
    ensures { result ≡ led_by index.now name.now }
{
    index.get(name).copied()
}
