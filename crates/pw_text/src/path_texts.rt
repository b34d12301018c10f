ghost use Rattle.std.specs.Prelude.{◌≡◌, ◌∷◌, ◌++◌, [], IfOk, OnOk};
ghost use Rattle.std.specs.List.{flat_map};
ghost use Rattle.pw_text.specs.Text.{place_text, segments_text};
ghost use Rattle.pw_text.specs.Paths.{text_at};

use aml_data::Seg;
use pw_base::{List, Memory};
use std::alloc::Global;
use std::marker::Model;

/// The texts of paths, which are made once. Contracts see the list of the texts.
#[derive(Drop)]
pub struct PathTexts {
    texts: Vec<List<u8>>,
}

impl Model for PathTexts {
    ghost use Rattle.std.specs.Prelude.{ℕ, List as list};

    ghost Value = { list (list ℕ) };

    ghost view = { λ p. p.texts.items };
}

impl PathTexts {
    /// No texts.
    pub fn new(alloc: Global) -> PathTexts
        ensures { result ≡ [] }
    {
        PathTexts {
            texts: Vec::new(alloc),
        }
    }

    /// Makes the text of the place of these segments, counted from the root, as the last.
    pub fn push(&mut self, alloc: Global, segs: &[Seg]) -> Result<(), Memory>
        ensures { OnOk result (self.new ≡ self.old ++ place_text segs.now ∷ []) }
    {
        let text = place_bytes(alloc, segs)?;
        self.texts.push(text)?;
        Ok(())
    }

    /// The texts, in their order.
    pub fn list(&self) -> &[List<u8>]
        ensures { result.now ≡ self.now }
    {
        self.texts.as_slice()
    }

    /// The text at a number, counted from 0; that of the root where there is none.
    #[inline]
    pub fn path(&self, number: u32) -> &[u8]
        ensures { result.now ≡ text_at self.now number }
    {
        match self.texts.as_slice().get(number as usize) {
            None => b"\\",
            Some(text) => text.as_slice(),
        }
    }
}

/// The text of the place of these segments, counted from the root.
fn place_bytes(alloc: Global, segs: &[Seg]) -> Result<List<u8>, Memory>
    ensures { IfOk result (λ text. text ≡ place_text segs.now) }
{
    let mut text = Vec::new(alloc);
    text.push(b'\\')?;
    push_segments(&mut text, segs)?;
    Ok(List::from_vec(text))
}

fn push_segments(text: &mut Vec<u8>, segs: &[Seg]) -> Result<(), Memory>
    ensures { OnOk result (text.new.items ≡ text.old.items ++ segments_text segs.now) }
{
    match segs.split_first() {
        None => Ok(()),
        Some((first, rest)) => {
            push_seg(text, *first)?;
            push_behind_dots(text, rest)
        }
    }
}

fn push_behind_dots(text: &mut Vec<u8>, segs: &[Seg]) -> Result<(), Memory>
    ensures { OnOk result (text.new.items ≡ text.old.items ++ flat_map (λ seg. 46 ∷ seg) segs.now) }
{
    for seg in segs {
        push_behind_dot(text, *seg)?;
    }
    Ok(())
}

fn push_behind_dot(text: &mut Vec<u8>, seg: Seg) -> Result<(), Memory>
    ensures { OnOk result (text.new.items ≡ text.old.items ++ 46 ∷ seg) }
{
    text.push(b'.')?;
    push_seg(text, seg)
}

fn push_seg(text: &mut Vec<u8>, seg: Seg) -> Result<(), Memory>
    ensures { OnOk result (text.new.items ≡ text.old.items ++ seg) }
{
    text.extend_from_slice(&seg.bytes())?;
    Ok(())
}
