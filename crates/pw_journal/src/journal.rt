ghost use Rattle.std.specs.Prelude.{◌≡◌, ◌↔◌, ◌≤◌, ◌<◌, ◌+◌, ◌^◌, ◌++◌, ◌∷◌, [], true, None};
ghost use Rattle.std.specs.Prelude.{length, take, vec_len, vec_capacity, IfOk, IfErr, IfSome, OnOk, OnErr};
ghost use Rattle.pw_base.specs.Outside.{Rose};
ghost use Rattle.pw_model.specs.History.{entry_of, Faultless};
ghost use Rattle.pw_regs.specs.Registers.{KeepsRegisters};
ghost use Rattle.pw_journal.specs.Entries.{fault_entry, fault_place};
ghost use Rattle.pw_journal.specs.Journaled.{KeepsEntries};

use crate::operating::operate_all;
use crate::past::Past;
use crate::recording::record_of;
use crate::reported::ReportedRegisters;
use acpi_values::Op;
use pw_model::HistoryEntry;
use pw_plan::Request;
use pw_regs::Registers;
use std::alloc::Global;
use std::marker::Model;

/// What was asked, entry by entry, and the registers that were operated for it. It takes its room
/// when it is opened, and none later. Contracts see the entries, the capacity and the registers. No
/// call reads an entry before `finish`, and only a journal whose capacity is a number of 32 bits keeps
/// them for it: one that is opened by `endless` counts them.
#[derive(Drop)]
pub struct Journal<R> {
    past: Past<HistoryEntry>,
    kept: Vec<HistoryEntry>,
    count: u64,
    capacity: u64,
    stopped: bool,
    regs: R,
}

impl<R> Model for Journal<R> {
    ghost use Rattle.std.specs.Prelude.{◌≡◌, ◌≤◌, ◌<◌, ◌^◌, length, None, Some, if◌then◌else◌};
    ghost use Rattle.std.specs.Prelude.{vec_capacity};
    ghost use Rattle.pw_journal.specs.Journaled.{Journaled};
    ghost use Rattle.pw_journal.specs.Entries.{fault_place};

    ghost Value = { Journaled R };

    ghost view = { λ j. record {
      entries = j.past.items;
      capacity = j.capacity;
      regs = j.regs;
    } };

    ghost invariant = { λ j. (j.capacity < 2 ^ 64) × (j.count ≡ length j.past.items) × (j.count ≤ j.capacity)
        × (j.capacity < 2 ^ 32 → (j.kept.items ≡ j.past.items) × (j.capacity ≤ vec_capacity j.kept))
        × (fault_place j.past.items ≡ (if j.stopped then Some j.count else None)) };
}

/// Keeps an entry where the capacity is a number of 32 bits.
fn keep(kept: &mut Vec<HistoryEntry>, capacity: u64, entry: HistoryEntry)
    requires room { capacity < 2 ^ 32 → vec_len kept.old < vec_capacity kept.old }
    ensures kept { capacity < 2 ^ 32 → kept.new.items ≡ kept.old.items ++ entry ∷ [] }
    ensures room { capacity < 2 ^ 32 → vec_capacity kept.new ≡ vec_capacity kept.old }
{
    if capacity <= u64::from(u32::MAX) {
        kept.push_reserved(entry);
    }
}

impl<R> Journal<R> {
    /// An empty journal with room for so many entries, over these registers. Where there is no
    /// memory for it, it gives the registers back.
    pub fn open(alloc: Global, capacity: u32, regs: R) -> Result<Journal<R>, R>
        ensures opened { IfOk result (λ j. j ≡ record {
          entries = [];
          capacity = capacity;
          regs = regs;
        }) }
        ensures given_back { IfErr result (λ back. back ≡ regs) }
    {
        match Vec::with_capacity(alloc, capacity as usize) {
            Ok(kept) => Ok(Journal {
                past: Past::new(),
                kept,
                count: 0,
                capacity: u64::from(capacity),
                stopped: false,
                regs,
            }),
            Err(_) => Err(regs),
        }
    }

    /// An empty journal over these registers that counts its entries and keeps none, as many as 64 bits
    /// count. It takes no memory.
    pub fn endless(alloc: Global, regs: R) -> Journal<R>
        ensures { result ≡ record {
          entries = [];
          capacity = 18446744073709551615;
          regs = regs;
        } }
    {
        Journal {
            past: Past::new(),
            kept: Vec::new(alloc),
            count: 0,
            capacity: u64::MAX,
            stopped: false,
            regs,
        }
    }

    /// How many entries there are.
    pub fn len(&self) -> u64
        ensures { result ≡ length self.now.entries }
    {
        self.count
    }

    /// How many entries there may be.
    pub fn capacity(&self) -> u64
        ensures { result ≡ self.now.capacity }
    {
        self.capacity
    }

    /// The place of the entry that is a fault, counted from 1. It is the last.
    pub fn fault_at(&self) -> Option<u64>
        ensures place { result ≡ fault_place self.now.entries }
        ensures none { result ≡ None ↔ Faultless self.now.entries }
        ensures last { IfSome result (λ place. place ≡ length self.now.entries) }
    {
        if self.stopped { Some(self.count) } else { None }
    }

    /// The entries, in order, where they were kept, and the registers.
    pub fn finish(self) -> (Vec<HistoryEntry>, R)
        ensures entries { KeepsEntries self → result.0.items ≡ self.entries }
        ensures regs { result.1 ≡ self.regs }
    {
        (self.kept, self.regs)
    }

    /// Appends the entry of a request that ended with this fault, 0 for none.
    fn note(&mut self, seat: u32, request: Request, fault: u32)
        requires room { length self.old.entries < self.old.capacity }
        requires faultless { Faultless self.old.entries }
        ensures { self.new ≡ record self.old {
          entries = self.old.entries ++ record (entry_of seat request) { fault = fault } ∷ [];
        } }
    {
        let entry = record_of(seat, request, fault);
        self.past.push(&entry);
        keep(&mut self.kept, self.capacity, entry);
        self.count += 1;
        self.stopped = fault > 0;
    }
}

impl<R: Registers> Journal<R> {
    /// Does the operations of a request that a seat made, in order, and appends its entry. At a
    /// fault it answers how many of them were done. It takes no memory.
    pub fn append(&mut self, seat: u32, request: Request, ops: &[Op]) -> Result<(), u32>
        requires room { length self.old.entries < self.old.capacity }
        requires faultless { Faultless self.old.entries }
        requires few { length ops.now < 2 ^ 32 }
        ensures keeps { KeepsRegisters R.told R.faults self.old.regs self.new.regs }
        ensures capacity { self.new.capacity ≡ self.old.capacity }
        ensures done { OnOk result (R.told self.old.regs ≡ true →
            R.log self.new.regs ≡ R.log self.old.regs ++ ops.now) }
        ensures entry { OnOk result (
            self.new.entries ≡ self.old.entries ++ entry_of seat request ∷ []) }
        ensures within { IfErr result (λ k. k < length ops.now) }
        ensures part { IfErr result (λ k. R.told self.old.regs ≡ true →
            R.log self.new.regs ≡ R.log self.old.regs ++ take k ops.now) }
        ensures fault { IfErr result (λ k.
            self.new.entries ≡ self.old.entries ++ fault_entry seat request k ∷ []) }
        ensures failed { OnErr result (Rose (R.faults self.old.regs) (R.faults self.new.regs)) }
        // While the registers promise room for all operations none fails.
        ensures promised { OnErr result (R.room self.old.regs < length ops.now) }
        ensures steady { length ops.now ≤ R.room self.old.regs →
            R.faults self.new.regs ≡ R.faults self.old.regs }
        ensures left { R.room self.old.regs ≤ R.room self.new.regs + length ops.now }
    {
        match operate_all(&mut self.regs, ops) {
            Ok(()) => {
                self.note(seat, request, 0);
                Ok(())
            }
            Err(done) => {
                self.note(seat, request, done + 1);
                Err(done)
            }
        }
    }

    /// Does the operations at the start, in order, before there are entries. At a fault it answers
    /// how many of them were done. It takes no memory.
    pub fn operate(&mut self, ops: &[Op]) -> Result<(), u32>
        requires empty { self.old.entries ≡ [] }
        requires few { length ops.now < 2 ^ 32 }
        ensures keeps { KeepsRegisters R.told R.faults self.old.regs self.new.regs }
        ensures entries { self.new.entries ≡ [] }
        ensures capacity { self.new.capacity ≡ self.old.capacity }
        ensures done { OnOk result (R.told self.old.regs ≡ true →
            R.log self.new.regs ≡ R.log self.old.regs ++ ops.now) }
        ensures within { IfErr result (λ k. k < length ops.now) }
        ensures part { IfErr result (λ k. R.told self.old.regs ≡ true →
            R.log self.new.regs ≡ R.log self.old.regs ++ take k ops.now) }
        ensures failed { OnErr result (Rose (R.faults self.old.regs) (R.faults self.new.regs)) }
        ensures promised { OnErr result (R.room self.old.regs < length ops.now) }
        ensures steady { length ops.now ≤ R.room self.old.regs →
            R.faults self.new.regs ≡ R.faults self.old.regs }
        ensures left { R.room self.old.regs ≤ R.room self.new.regs + length ops.now }
    {
        operate_all(&mut self.regs, ops)
    }
}

impl Journal<ReportedRegisters> {
    /// Takes the caller's word for the operations of a request that a seat made, and appends its entry:
    /// all were done, or a register failed after so many that were. It takes no memory.
    pub fn report(&mut self, seat: u32, request: Request, ops: &[Op], done: Result<(), u32>)
        requires room { length self.old.entries < self.old.capacity }
        requires faultless { Faultless self.old.entries }
        requires few { length ops.now < 2 ^ 32 }
        requires within { IfErr done (λ k. k < length ops.now) }
        ensures capacity { self.new.capacity ≡ self.old.capacity }
        ensures count { self.old.regs.faults ≤ self.new.regs.faults }
        ensures done { OnOk done (self.new.regs ≡ record self.old.regs {
          log = self.old.regs.log ++ ops.now;
        }) }
        ensures entry { OnOk done (
            self.new.entries ≡ self.old.entries ++ entry_of seat request ∷ []) }
        ensures part { IfErr done (λ k.
            self.new.regs.log ≡ self.old.regs.log ++ take k ops.now) }
        ensures fault { IfErr done (λ k.
            self.new.entries ≡ self.old.entries ++ fault_entry seat request k ∷ []) }
        ensures failed { OnErr done (Rose self.old.regs.faults self.new.regs.faults) }
    {
        match done {
            Ok(()) => {
                self.regs.report_done(ops);
                self.note(seat, request, 0)
            }
            Err(k) => {
                self.regs.report_failed(&ops[..k as usize]);
                self.note(seat, request, k + 1)
            }
        }
    }
}
