ghost use Rattle.std.specs.Prelude.{◌≡◌, ◌<◌, ◌+◌, [], is_ok, length, IfOk};
ghost use Rattle.pw_text.specs.Puts.{PutsText};

use pw_base::{Failed, Memory, Room, Sink, put_all};
use std::alloc::Global;
use std::marker::Model;

/// How many bytes a page gathers before a sink sees them.
const PAGE_SIZE: usize = 65536;

/// Text that waits for a sink. It takes its memory when it is made, and hands a sink whole pages.
/// Contracts see the bytes that wait.
#[derive(Drop)]
pub struct Page {
    waiting: Room<u8>,
}

impl Model for Page {
    ghost use Rattle.std.specs.Prelude.{◌≡◌, List, ℕ};

    ghost Value = { List ℕ };

    ghost view = { λ p. p.waiting.elements };

    ghost invariant = { λ p. p.waiting.capacity ≡ 65536 };
}

impl Page {
    /// An empty page.
    pub fn new(alloc: Global) -> Result<Page, Memory>
        ensures { IfOk result (λ page. page ≡ []) }
    {
        Ok(Page {
            waiting: Room::new(alloc, PAGE_SIZE)?,
        })
    }

    /// Puts bytes behind those that wait. A sink gets each page that this fills, and what is longer
    /// than a page at once. It takes no memory.
    #[inline]
    pub fn put<K: Sink>(&mut self, sink: &mut K, bytes: &[u8]) -> Result<(), Failed>
        ensures { PutsText K.Sink sink.old sink.new self.old self.new
            bytes.now (is_ok result) }
    {
        if bytes.len() <= self.waiting.spare() {
            self.waiting.extend_from_slice(bytes);
            return Ok(());
        }
        self.put_over(sink, bytes)
    }

    /// Puts bytes of which not all fit.
    #[inline(never)]
    fn put_over<K: Sink>(&mut self, sink: &mut K, bytes: &[u8]) -> Result<(), Failed>
        requires { PAGE_SIZE < length self.old + length bytes.now }
        ensures { PutsText K.Sink sink.old sink.new self.old self.new
            bytes.now (is_ok result) }
    {
        let spare = self.waiting.spare();
        let (first, rest) = bytes.split_at(spare);
        self.waiting.extend_from_slice(first);
        self.flush(sink)?;
        self.put_on_empty(sink, rest)
    }

    /// Hands the bytes that wait to the sink. The page is empty after it. It takes no memory.
    pub fn flush<K: Sink>(&mut self, sink: &mut K) -> Result<(), Failed>
        ensures puts { PutsText K.Sink sink.old sink.new self.old self.new
            [] (is_ok result) }
        ensures empty { self.new ≡ [] }
    {
        let outcome = put_all(sink, self.waiting.as_slice());
        self.waiting.clear();
        outcome
    }

    fn put_on_empty<K: Sink>(&mut self, sink: &mut K, bytes: &[u8]) -> Result<(), Failed>
        requires { self.old ≡ [] }
        ensures { PutsText K.Sink sink.old sink.new self.old self.new
            bytes.now (is_ok result) }
    {
        if bytes.len() > PAGE_SIZE {
            return put_all(sink, bytes);
        }
        self.waiting.extend_from_slice(bytes);
        Ok(())
    }
}
