ghost use Rattle.std.specs.Prelude.{◌≡◌, ◌∷◌, is_ok};
ghost use Rattle.std.specs.List.{flat_map};
ghost use Rattle.json.specs.Print.{escape};
ghost use Rattle.serde_json.specs.Data.{string};
ghost use Rattle.serde_json.specs.Written.{compact_text};
ghost use Rattle.pw_text.specs.Puts.{PutsText};
ghost use Rattle.pw_text.specs.Text.{path_prefix, path_text, place_text, segments_text};

use aml_data::{Path, Seg};
use pw_base::{Failed, Sink};
use pw_text::Page;

/// Puts a place, counted from the root, as a string of JSON. The only character of a path that JSON escapes
/// is the backslash of the root.
pub fn put_json_place<K: Sink>(page: &mut Page, sink: &mut K, segs: &[Seg]) -> Result<(), Failed>
    ensures { PutsText K.Sink sink.old sink.new page.old page.new
        (compact_text (string (place_text segs.now))) (is_ok result) }
{
    page.put(sink, b"\"\\\\")?;
    put_segments(page, sink, segs)?;
    page.put(sink, b"\"")
}

/// Puts a path as it is written, as a string of JSON.
pub fn put_json_path<K: Sink>(page: &mut Page, sink: &mut K, path: &Path) -> Result<(), Failed>
    ensures { PutsText K.Sink sink.old sink.new page.old page.new
        (compact_text (string (path_text path.now))) (is_ok result) }
{
    put_prefix(page, sink, path)?;
    put_segments(page, sink, path.segs.as_slice())?;
    page.put(sink, b"\"")
}

/// Puts the quote, and what stands before the segments.
fn put_prefix<K: Sink>(page: &mut Page, sink: &mut K, path: &Path) -> Result<(), Failed>
    ensures { PutsText K.Sink sink.old sink.new page.old page.new
        (34 ∷ escape (path_prefix path.now)) (is_ok result) }
{
    if path.root {
        return page.put(sink, b"\"\\\\");
    }
    page.put(sink, b"\"")?;
    for _step in 0..path.ups {
        page.put(sink, b"^")?;
    }
    Ok(())
}

fn put_segments<K: Sink>(page: &mut Page, sink: &mut K, segs: &[Seg]) -> Result<(), Failed>
    ensures { PutsText K.Sink sink.old sink.new page.old page.new
        (escape (segments_text segs.now)) (is_ok result) }
{
    match segs.split_first() {
        None => Ok(()),
        Some((first, rest)) => {
            put_seg(page, sink, *first)?;
            put_behind_dots(page, sink, rest)
        }
    }
}

fn put_behind_dots<K: Sink>(page: &mut Page, sink: &mut K, segs: &[Seg]) -> Result<(), Failed>
    ensures { PutsText K.Sink sink.old sink.new page.old page.new
        (flat_map (λ seg. 46 ∷ escape seg) segs.now) (is_ok result) }
{
    for seg in segs {
        put_behind_dot(page, sink, *seg)?;
    }
    Ok(())
}

fn put_seg<K: Sink>(page: &mut Page, sink: &mut K, seg: Seg) -> Result<(), Failed>
    ensures { PutsText K.Sink sink.old sink.new page.old page.new (escape seg) (is_ok result) }
{
    page.put(sink, &seg.bytes())
}

fn put_behind_dot<K: Sink>(page: &mut Page, sink: &mut K, seg: Seg) -> Result<(), Failed>
    ensures { PutsText K.Sink sink.old sink.new page.old page.new (46 ∷ escape seg) (is_ok result) }
{
    let [a, b, c, d] = seg.bytes();
    page.put(sink, &[b'.', a, b, c, d])
}
