ghost use Rattle.std.specs.Prelude.{◌∷◌, ◌++◌, decimal, is_ok};
ghost use Rattle.pw_text.specs.Behind.{behind};
ghost use Rattle.pw_text.specs.HistoryText.{fault_words};
ghost use Rattle.pw_text.specs.Puts.{PutsText};

use crate::digits::put_decimal;
use crate::page::Page;
use pw_base::{Failed, Sink};

/// Puts a number behind a text.
#[inline(always)]
pub fn put_labelled<K: Sink>(
    page: &mut Page,
    sink: &mut K,
    label: &[u8],
    number: u32,
) -> Result<(), Failed>
    ensures { PutsText K.Sink sink.old sink.new page.old page.new
        (label.now ++ decimal number) (is_ok result) }
{
    page.put(sink, label)?;
    put_decimal(page, sink, u64::from(number))
}

/// Puts the number of an entry, and the path of who asked.
pub fn put_asker<K: Sink>(
    page: &mut Page,
    sink: &mut K,
    number: u64,
    path: &[u8],
) -> Result<(), Failed>
    ensures { PutsText K.Sink sink.old sink.new page.old page.new
        (decimal number ++ 32 ∷ path.now) (is_ok result) }
{
    put_decimal(page, sink, number)?;
    page.put(sink, b" ")?;
    page.put(sink, path)
}

/// Puts that a register failed after so many operations.
pub fn put_fault<K: Sink>(page: &mut Page, sink: &mut K, done: u32) -> Result<(), Failed>
    ensures { PutsText K.Sink sink.old sink.new page.old page.new
        (behind (fault_words done)) (is_ok result) }
{
    put_labelled(page, sink, b" register fault after ", done)
}
