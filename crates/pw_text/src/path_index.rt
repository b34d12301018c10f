ghost use Rattle.std.specs.Prelude.{◌≡◌, ◌∷◌, [], bytes_eq, IfOk, OnOk};
ghost use Rattle.std.proofs.Common.{ap, rules};
ghost use Rattle.std.proofs.lemmas.Slice.Eq.{bytes_eq-Decides};
ghost use Rattle.std.specs.Cmp.Rules.{comparing};
ghost use Rattle.pw_text.specs.Looking.{AreSpelled, IsFound, TextLeadsAlso, spelled_by};

use crate::index::find_path;
use crate::name::write_name;
use crate::path_texts::PathTexts;
use pw_base::Memory;
use std::alloc::Global;
use std::collections::HashMap;
use std::hash::{Hash, Hasher};

/// The text of a path as a key. It is hashed at once, where a vector is hashed byte by byte.
#[derive(Drop)]
pub struct Spelled {
    pub bytes: Vec<u8>,
}

impl PartialEq for Spelled {
    ghost eq = { λ a b. bytes_eq a.bytes.items b.bytes.items };

    ghost laws = { Prim.search (comparing, rules) };

    fn eq(&self, other: &Spelled) -> bool {
        self.bytes.as_slice() == other.bytes.as_slice()
    }
}

impl Eq for Spelled {
    ghost laws = { Prim.search (comparing, rules) };
}

impl Hash for Spelled {
    ghost hash_input = { λ text. text.bytes.items ∷ [] };

    ghost respects_eq = { λ a b same. ap (λ text. text ∷ [])
        ((bytes_eq-Decides a.bytes.items b.bytes.items).0 same) };

    fn hash<H: Hasher>(&self, state: &mut H) {
        state.write(self.bytes.as_slice());
    }
}

/// Where paths lead: by their segments, one behind the other, and by the texts of some of them. Who looks a
/// path up by its text doesn't take it apart.
#[derive(Drop)]
pub struct PathIndex {
    pub names: HashMap<Vec<u8>, u32>,
    pub texts: HashMap<Spelled, u32>,
}

/// Lets a text lead to a number, wherever it led before.
fn index_text(index: &mut HashMap<Spelled, u32>, bytes: Vec<u8>, number: u32) -> Result<(), Memory>
    ensures { OnOk result (TextLeadsAlso bytes.items number index.old index.new) }
{
    index.insert(Spelled { bytes }, number)?;
    Ok(())
}

/// The number that a text leads to.
fn find_text(index: &HashMap<Spelled, u32>, text: &Spelled) -> Option<u32>
    ensures { result ≡ spelled_by index.now text.now }
{
    index.get(text).copied()
}

/// Lets a text lead where its segments do, if they lead anywhere. `name` is room for them.
fn spell(
    alloc: Global,
    index: &mut PathIndex,
    name: &mut Vec<u8>,
    text: &[u8],
) -> Result<(), Memory>
    requires { AreSpelled index.old }
    ensures names { index.new.names ≡ index.old.names }
    ensures spelled { OnOk result (AreSpelled index.new) }
{
    if !write_name(name, text)? {
        return Ok(());
    }
    match find_path(&index.names, name) {
        None => Ok(()),
        Some(number) => index_text(&mut index.texts, Vec::from_slice(alloc, text)?, number),
    }
}

/// Drops what fills the last segment of a text up to four characters.
fn drop_filling(text: &mut Vec<u8>) {
    let mut left = text.len();
    while left > 1 && text[left - 1] == b'_' && text[left - 2] != b'.' && text[left - 2] != b'\\' {
        left -= 1;
    }
    text.truncate(left);
}

/// The text of a path with nothing that fills its segments up, as it is mostly spelled: `\_SB` for `\_SB_`.
fn shortened(alloc: Global, text: &[u8]) -> Result<Vec<u8>, Memory> {
    let mut short = Vec::new(alloc);
    for byte in text {
        if *byte == b'.' {
            drop_filling(&mut short);
        }
        short.push(*byte)?;
    }
    drop_filling(&mut short);
    Ok(short)
}

impl PathIndex {
    /// Lets each of these texts lead where its segments do, beside the segments, and so it as short as it may
    /// be spelled.
    pub fn new(
        alloc: Global,
        names: HashMap<Vec<u8>, u32>,
        texts: &PathTexts,
    ) -> Result<PathIndex, Memory>
        ensures names { IfOk result (λ index. index.names ≡ names) }
        ensures spelled { IfOk result (λ index. AreSpelled index) }
    {
        let mut index = PathIndex {
            names,
            texts: HashMap::new(alloc),
        };
        let mut name = Vec::new(alloc);
        for text in texts.list() {
            spell(alloc, &mut index, &mut name, text.as_slice())?;
            let short = shortened(alloc, text.as_slice())?;
            spell(alloc, &mut index, &mut name, short.as_slice())?;
        }
        Ok(index)
    }

    /// Where a path leads, if anywhere; nothing where the text is none. `room` is room for it.
    pub fn find(&self, room: &mut Spelled, text: &[u8]) -> Result<Option<Option<u32>>, Memory>
        requires { AreSpelled self.now }
        ensures { IfOk result (λ found. IsFound self.now text.now found) }
    {
        room.bytes.clear();
        room.bytes.extend_from_slice(text)?;
        let spelled = find_text(&self.texts, room);
        if spelled.is_some() {
            return Ok(Some(spelled));
        }
        if !write_name(&mut room.bytes, text)? {
            return Ok(None);
        }
        Ok(Some(find_path(&self.names, &room.bytes)))
    }
}
