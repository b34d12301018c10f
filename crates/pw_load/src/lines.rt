ghost use Rattle.std.specs.Prelude.{◌≡◌, ◌++◌, codes, decimal, is_ok};
ghost use Rattle.pw_text.specs.Puts.{PutsText};
ghost use Rattle.pw_text.specs.Text.{hex_text};
ghost use Rattle.pw_load.specs.Lines.{header_word, at_place, data_words, fault_words, block_start};
ghost use Rattle.pw_load.specs.Lines.{fault_line, twice_line};

use aml_block::{BlockFault, HeaderFault};
use aml_data::{DataFault, Seg};
use pw_base::{Failed, Sink};
use pw_text::{Page, put_hex, put_number, put_place};

/// Puts the line of the own fault of the block of this number, where so many are named.
pub fn put_fault_line<K: Sink>(
    page: &mut Page,
    sink: &mut K,
    many: usize,
    number: usize,
    fault: BlockFault,
) -> Result<(), Failed>
    ensures { PutsText K.Sink sink.old sink.new page.old page.new
        (fault_line many number fault) (is_ok result) }
{
    put_block_start(page, sink, many, number)?;
    put_fault_words(page, sink, fault)?;
    page.put(sink, b"\n")
}

fn put_block_start<K: Sink>(
    page: &mut Page,
    sink: &mut K,
    many: usize,
    number: usize,
) -> Result<(), Failed>
    ensures { PutsText K.Sink sink.old sink.new page.old page.new
        (block_start many number) (is_ok result) }
{
    if many == 1 {
        page.put(sink, b"block: ")
    } else {
        put_between(page, sink, b"block ", number, b": ")
    }
}

/// Puts the line of a path at which two objects are placed.
pub fn put_twice_line<K: Sink>(page: &mut Page, sink: &mut K, path: &[Seg]) -> Result<(), Failed>
    ensures { PutsText K.Sink sink.old sink.new page.old page.new
        (twice_line path.now) (is_ok result) }
{
    page.put(sink, b"block: ")?;
    put_place(page, sink, path)?;
    page.put(sink, b" given twice\n")
}

fn put_fault_words<K: Sink>(page: &mut Page, sink: &mut K, fault: BlockFault) -> Result<(), Failed>
    ensures { PutsText K.Sink sink.old sink.new page.old page.new
        (fault_words fault) (is_ok result) }
{
    match fault {
        BlockFault::Header { why } => put_header_words(page, sink, why),
        BlockFault::Data(fault) => put_data_words(page, sink, fault),
        BlockFault::BadTerm { at, opcode } => put_at_number(
            page,
            sink,
            at,
            b" term ",
            u64::from(opcode),
        ),
        BlockFault::ReadFault => page.put(sink, b"read fault"),
        BlockFault::Memory => page.put(sink, b"no memory"),
    }
}

fn put_header_words<K: Sink>(page: &mut Page, sink: &mut K, why: HeaderFault) -> Result<(), Failed>
    ensures { PutsText K.Sink sink.old sink.new page.old page.new
        (codes "header " ++ header_word why) (is_ok result) }
{
    match why {
        HeaderFault::Large => page.put(sink, b"header large"),
        HeaderFault::Short => page.put(sink, b"header short"),
        HeaderFault::Signature => page.put(sink, b"header signature"),
        HeaderFault::Length => page.put(sink, b"header length"),
        HeaderFault::Sum => page.put(sink, b"header sum"),
    }
}

fn put_data_words<K: Sink>(page: &mut Page, sink: &mut K, fault: DataFault) -> Result<(), Failed>
    ensures { PutsText K.Sink sink.old sink.new page.old page.new
        (data_words fault) (is_ok result) }
{
    match fault {
        DataFault::Short { at } => put_at(page, sink, at, b" short"),
        DataFault::BadLead { at, byte } => put_at_number(
            page,
            sink,
            at,
            b" lead ",
            u64::from(byte),
        ),
        DataFault::BadLength { at } => put_at(page, sink, at, b" length"),
        DataFault::BadName { at } => put_at(page, sink, at, b" name"),
        DataFault::BadText { at } => put_at(page, sink, at, b" text"),
        DataFault::TooMany { at } => put_at(page, sink, at, b" too many"),
        DataFault::TooDeep { at } => put_at(page, sink, at, b" too deep"),
        DataFault::Memory => page.put(sink, b"no memory"),
    }
}

/// Puts a number between two texts.
fn put_between<K: Sink>(
    page: &mut Page,
    sink: &mut K,
    before: &[u8],
    number: usize,
    after: &[u8],
) -> Result<(), Failed>
    ensures { PutsText K.Sink sink.old sink.new page.old page.new
        (before.now ++ decimal number ++ after.now) (is_ok result) }
{
    page.put(sink, before)?;
    put_number(page, sink, number as u64)?;
    page.put(sink, after)
}

fn put_at<K: Sink>(page: &mut Page, sink: &mut K, at: usize, what: &[u8]) -> Result<(), Failed>
    ensures { PutsText K.Sink sink.old sink.new page.old page.new
        (at_place at what.now) (is_ok result) }
{
    put_between(page, sink, b"at ", at, what)
}

fn put_at_number<K: Sink>(
    page: &mut Page,
    sink: &mut K,
    at: usize,
    what: &[u8],
    number: u64,
) -> Result<(), Failed>
    ensures { PutsText K.Sink sink.old sink.new page.old page.new
        (at_place at (what.now ++ hex_text number)) (is_ok result) }
{
    put_at(page, sink, at, what)?;
    put_hex(page, sink, number)
}
