ghost use Rattle.std.specs.Prelude.{◌≡◌, ◌≤◌, ◌<◌, ◌+◌, ◌++◌, ◌∷◌, [], true, is_err, IfOk, OnOk, OnErr};
ghost use Rattle.acpi_values.specs.declared.operation.Op.TheVariants.{Set, Enter};
ghost use Rattle.pw_base.specs.InMemory.{is_listed, next_count};
ghost use Rattle.pw_base.specs.Outside.{Rose};
ghost use Rattle.pw_regs.specs.Registers.{KeepsRegisters};
ghost use Rattle.pw_regs.specs.InMemory.{call_fails, failing_faults, failing_log, failing_room, failing_tells};

use crate::file::RegisterFile;
use crate::registers::Registers;
use acpi_values::{Composite, Op, Register};
use pw_base::{Failed, Memory};
use std::alloc::Global;
use std::marker::Model;

/// Registers in memory that fail at the calls that the caller listed, counted from 1, and where
/// there is no room for the operation. A call that fails is counted too.
#[derive(Drop)]
pub struct FailingRegisters {
    file: RegisterFile,
    fails: Vec<u32>,
    calls: u64,
}

impl Model for FailingRegisters {
    ghost use Rattle.pw_regs.specs.InMemory.{FailingHeld};

    ghost Value = { FailingHeld };

    ghost view = { λ f. record {
      log = f.file.log;
      capacity = f.file.capacity;
      fails = f.fails.items;
      calls = f.calls;
      faults = f.file.faults;
    } };
}

impl FailingRegisters {
    /// Registers on which nothing was done, with room for so many operations.
    pub fn new(alloc: Global, capacity: u32, fails: Vec<u32>) -> Result<FailingRegisters, Memory>
        ensures { IfOk result (λ f. f ≡ record {
          log = [];
          capacity = capacity;
          fails = fails.items;
          calls = 0;
          faults = 0;
        }) }
    {
        Ok(FailingRegisters {
            file: RegisterFile::new(alloc, capacity)?,
            fails,
            calls: 0,
        })
    }

    /// The operations that were done, in order.
    pub fn log(&self) -> &[Op]
        ensures { result.now ≡ self.now.log }
    {
        self.file.log()
    }

    /// Does an operation unless the call is listed or there is no room.
    fn operate(&mut self, op: Op) -> Result<(), Failed>
        ensures exact_failure { is_err result ≡ call_fails self.old }
        ensures ok_state { OnOk result (self.new ≡ record self.old {
          log = self.old.log ++ op ∷ [];
          calls = next_count self.old.calls;
        }) }
        ensures failed_state { OnErr result (self.new ≡ record self.old {
          calls = next_count self.old.calls;
          faults = next_count self.old.faults;
        }) }
        ensures count { failing_faults self.old ≤ failing_faults self.new }
    {
        self.calls = self.calls.saturating_add(1);
        if is_listed(self.fails.as_slice(), self.calls) {
            return Err(self.file.fail());
        }
        self.file.operate(op)
    }
}

/// Whether a call's number is listed.
fn is_listed(fails: &[u32], call: u64) -> bool
    ensures { result ≡ is_listed fails.now call }
{
    fails.iter().any(|n| u64::from(*n) == call)
}

impl Registers for FailingRegisters {
    ghost told = { failing_tells };

    ghost log = { failing_log };

    ghost room = { failing_room };

    ghost faults = { failing_faults };

    fn set(&mut self, cpu: u32, register: &Register, value: u64) -> Result<(), Failed>
        ensures keeps { KeepsRegisters failing_tells failing_faults self.old self.new }
        ensures done { OnOk result (failing_tells self.old ≡ true →
            failing_log self.new ≡ failing_log self.old ++ Set cpu register.now value ∷ []) }
        ensures failed { OnErr result (Rose (failing_faults self.old) (failing_faults self.new)) }
        ensures stays { OnErr result (failing_tells self.old ≡ true →
            failing_log self.new ≡ failing_log self.old) }
        ensures promised { OnErr result (failing_room self.old ≡ 0) }
        ensures steady { 0 < failing_room self.old →
            failing_faults self.new ≡ failing_faults self.old }
        ensures left { failing_room self.old ≤ failing_room self.new + 1 }
        ensures exact_failure { is_err result ≡ call_fails self.old }
        ensures ok_state { OnOk result (self.new ≡ record self.old {
          log = self.old.log ++ Set cpu register.now value ∷ [];
          calls = next_count self.old.calls;
        }) }
        ensures failed_state { OnErr result (self.new ≡ record self.old {
          calls = next_count self.old.calls;
          faults = next_count self.old.faults;
        }) }
    {
        self.operate(Op::Set {
            cpu,
            register: *register,
            value,
        })
    }

    fn enter(&mut self, cpu: u32, composite: &Composite) -> Result<(), Failed>
        ensures keeps { KeepsRegisters failing_tells failing_faults self.old self.new }
        ensures done { OnOk result (failing_tells self.old ≡ true →
            failing_log self.new ≡ failing_log self.old ++ Enter cpu composite.now ∷ []) }
        ensures failed { OnErr result (Rose (failing_faults self.old) (failing_faults self.new)) }
        ensures stays { OnErr result (failing_tells self.old ≡ true →
            failing_log self.new ≡ failing_log self.old) }
        ensures promised { OnErr result (failing_room self.old ≡ 0) }
        ensures steady { 0 < failing_room self.old →
            failing_faults self.new ≡ failing_faults self.old }
        ensures left { failing_room self.old ≤ failing_room self.new + 1 }
        ensures exact_failure { is_err result ≡ call_fails self.old }
        ensures ok_state { OnOk result (self.new ≡ record self.old {
          log = self.old.log ++ Enter cpu composite.now ∷ [];
          calls = next_count self.old.calls;
        }) }
        ensures failed_state { OnErr result (self.new ≡ record self.old {
          calls = next_count self.old.calls;
          faults = next_count self.old.faults;
        }) }
    {
        self.operate(Op::Enter {
            cpu,
            composite: *composite,
        })
    }
}
