ghost use Rattle.std.specs.Prelude.{◌≡◌, ◌∷◌, ◌++◌, is_ok};
ghost use Rattle.std.specs.List.{flat_map};
ghost use Rattle.pw_text.specs.Puts.{PutsText};
ghost use Rattle.pw_text.specs.Text.{place_text, path_prefix, path_text, segments_text};

use crate::page::Page;
use aml_data::{Path, Seg};
use pw_base::{Failed, Sink};

/// Puts the place of these segments, counted from the root.
pub fn put_place<K: Sink>(page: &mut Page, sink: &mut K, segs: &[Seg]) -> Result<(), Failed>
    ensures { PutsText K.Sink sink.old sink.new page.old page.new
        (place_text segs.now) (is_ok result) }
{
    match segs {
        [] => page.put(sink, b"\\"),
        [first] => put_behind(page, sink, b'\\', *first),
        [first, second, rest @ ..] => {
            put_two(page, sink, *first, *second)?;
            put_behind_dots(page, sink, rest)
        }
    }
}

/// Puts a path as it is written.
pub fn put_path<K: Sink>(page: &mut Page, sink: &mut K, path: &Path) -> Result<(), Failed>
    ensures { PutsText K.Sink sink.old sink.new page.old page.new
        (path_text path.now) (is_ok result) }
{
    put_prefix(page, sink, path)?;
    put_segments(page, sink, path.segs.as_slice())
}

fn put_prefix<K: Sink>(page: &mut Page, sink: &mut K, path: &Path) -> Result<(), Failed>
    ensures { PutsText K.Sink sink.old sink.new page.old page.new
        (path_prefix path.now) (is_ok result) }
{
    if path.root {
        return page.put(sink, b"\\");
    }
    for _step in 0..path.ups {
        page.put(sink, b"^")?;
    }
    Ok(())
}

fn put_segments<K: Sink>(page: &mut Page, sink: &mut K, segs: &[Seg]) -> Result<(), Failed>
    ensures { PutsText K.Sink sink.old sink.new page.old page.new
        (segments_text segs.now) (is_ok result) }
{
    match segs.split_first() {
        None => Ok(()),
        Some((first, rest)) => {
            page.put(sink, &first.bytes())?;
            put_behind_dots(page, sink, rest)
        }
    }
}

fn put_behind_dots<K: Sink>(page: &mut Page, sink: &mut K, segs: &[Seg]) -> Result<(), Failed>
    ensures { PutsText K.Sink sink.old sink.new page.old page.new
        (flat_map (λ seg. 46 ∷ seg) segs.now) (is_ok result) }
{
    for seg in segs {
        put_behind(page, sink, b'.', *seg)?;
    }
    Ok(())
}

/// Puts a segment behind a character.
fn put_behind<K: Sink>(page: &mut Page, sink: &mut K, lead: u8, seg: Seg) -> Result<(), Failed>
    ensures { PutsText K.Sink sink.old sink.new page.old page.new (lead ∷ seg) (is_ok result) }
{
    let [a, b, c, d] = seg.bytes();
    page.put(sink, &[lead, a, b, c, d])
}

/// Puts the first two segments of a place.
fn put_two<K: Sink>(page: &mut Page, sink: &mut K, first: Seg, second: Seg) -> Result<(), Failed>
    ensures { PutsText K.Sink sink.old sink.new page.old page.new
        (92 ∷ first ++ 46 ∷ second) (is_ok result) }
{
    let [a, b, c, d] = first.bytes();
    let [e, f, g, h] = second.bytes();
    page.put(sink, &[b'\\', a, b, c, d, b'.', e, f, g, h])
}
