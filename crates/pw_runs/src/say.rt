ghost use Rattle.std.specs.Prelude.{◌≡◌, ◌++◌, [], decimal, is_ok};
ghost use Rattle.pw_base.specs.Outside.{KeepsSink};
ghost use Rattle.pw_base.specs.Seen.{sink_seen, GrewByLine};
ghost use Rattle.pw_text.specs.Puts.{PutsText};

use pw_base::{Failed, Sink};
use pw_text::{Page, put_number};

/// Puts a number between two texts.
pub fn put_between<K: Sink>(
    page: &mut Page,
    sink: &mut K,
    before: &[u8],
    number: u64,
    after: &[u8],
) -> Result<(), Failed>
    ensures { PutsText K.Sink sink.old sink.new page.old page.new
        (before.now ++ decimal number ++ after.now) (is_ok result) }
{
    page.put(sink, before)?;
    put_number(page, sink, number)?;
    page.put(sink, after)
}

/// Writes a number between two texts on the error output, by way of an empty page. Its failure is passed
/// over.
pub fn say_number<K: Sink>(page: &mut Page, err: &mut K, before: &[u8], number: u32, after: &[u8])
    requires { page.old ≡ [] }
    ensures keeps { KeepsSink K.told K.faults err.old err.new }
    ensures line { GrewByLine (sink_seen K.Sink err.old) (sink_seen K.Sink err.new)
        (before.now ++ decimal number ++ after.now) }
{
    if put_between(page, err, before, u64::from(number), after).is_ok() {
        let _ = page.flush(err);
    }
}
