ghost use Rattle.std.specs.Prelude.{◌≡◌, ◌∷◌, ◌++◌, decimal, is_ok};
ghost use Rattle.pw_text.specs.Puts.{PutsText};
ghost use Rattle.pw_text.specs.Text.{place_text};
ghost use Rattle.pw_check.specs.Numbers.{pair_text};

use aml_data::Seg;
use pw_base::{Failed, Sink};
use pw_text::{Page, put_number, put_place};

/// Puts a word behind a space.
pub fn put_word<K: Sink>(page: &mut Page, sink: &mut K, word: &[u8]) -> Result<(), Failed>
    ensures { PutsText K.Sink sink.old sink.new page.old page.new
        (32 ∷ word.now) (is_ok result) }
{
    page.put(sink, b" ")?;
    page.put(sink, word)
}

/// Puts a full path behind a text.
pub fn put_named<K: Sink>(
    page: &mut Page,
    sink: &mut K,
    label: &[u8],
    path: &[Seg],
) -> Result<(), Failed>
    ensures { PutsText K.Sink sink.old sink.new page.old page.new
        (label.now ++ place_text path.now) (is_ok result) }
{
    page.put(sink, label)?;
    put_place(page, sink, path)
}

/// Puts a number behind a text.
pub fn put_labelled<K: Sink>(
    page: &mut Page,
    sink: &mut K,
    label: &[u8],
    number: u32,
) -> Result<(), Failed>
    ensures { PutsText K.Sink sink.old sink.new page.old page.new
        (label.now ++ decimal number) (is_ok result) }
{
    page.put(sink, label)?;
    put_number(page, sink, u64::from(number))
}

/// Puts a count behind a text.
pub fn put_count<K: Sink>(
    page: &mut Page,
    sink: &mut K,
    label: &[u8],
    count: usize,
) -> Result<(), Failed>
    ensures { PutsText K.Sink sink.old sink.new page.old page.new
        (label.now ++ decimal count) (is_ok result) }
{
    page.put(sink, label)?;
    put_number(page, sink, count as u64)
}

/// Puts two numbers with a dot between, behind a text.
pub fn put_pair<K: Sink>(
    page: &mut Page,
    sink: &mut K,
    label: &[u8],
    first: u32,
    second: u32,
) -> Result<(), Failed>
    ensures { PutsText K.Sink sink.old sink.new page.old page.new
        (label.now ++ pair_text first second) (is_ok result) }
{
    put_labelled(page, sink, label, first)?;
    put_labelled(page, sink, b".", second)
}
