ghost use Rattle.std.specs.Prelude.{◌≡◌, ◌≤◌, ◌<◌, ◌+◌, ◌++◌, ◌∷◌, [], true, is_err, IfOk, OnOk, OnErr};
ghost use Rattle.acpi_values.specs.declared.operation.Op.TheVariants.{Set, Enter};
ghost use Rattle.pw_base.specs.InMemory.{next_count};
ghost use Rattle.pw_base.specs.Outside.{Rose};
ghost use Rattle.pw_regs.specs.Registers.{KeepsRegisters};
ghost use Rattle.pw_regs.specs.InMemory.{file_faults, file_log, file_room, file_tells, is_full};

use crate::registers::Registers;
use acpi_values::{Composite, Op, Register};
use pw_base::{Failed, Memory, Room};
use std::alloc::Global;
use std::marker::Model;

/// Registers in memory: they keep the operations that were done, in room that is taken when they
/// are made. An operation fails exactly where there is no room for it.
#[derive(Drop)]
pub struct RegisterFile {
    done: Room<Op>,
    faults: u64,
}

impl Model for RegisterFile {
    ghost use Rattle.pw_regs.specs.InMemory.{FileHeld};

    ghost Value = { FileHeld };

    ghost view = { λ f. record {
      log = f.done.elements;
      capacity = f.done.capacity;
      faults = f.faults;
    } };
}

impl RegisterFile {
    /// Registers on which nothing was done, with room for so many operations.
    pub fn new(alloc: Global, capacity: u32) -> Result<RegisterFile, Memory>
        ensures { IfOk result (λ f. f ≡ record { log = []; capacity = capacity; faults = 0 }) }
    {
        Ok(RegisterFile {
            done: Room::new(alloc, capacity as usize)?,
            faults: 0,
        })
    }

    /// The operations that were done, in order.
    pub fn log(&self) -> &[Op]
        ensures { result.now ≡ self.now.log }
    {
        self.done.as_slice()
    }

    /// Does an operation where there is room for it.
    pub(crate) fn operate(&mut self, op: Op) -> Result<(), Failed>
        ensures exact_failure { is_err result ≡ is_full self.old }
        ensures ok_state { OnOk result (self.new ≡ record self.old {
          log = self.old.log ++ op ∷ [];
        }) }
        ensures failed_state { OnErr result (self.new ≡ record self.old {
          faults = next_count self.old.faults;
        }) }
        ensures count { file_faults self.old ≤ file_faults self.new }
        ensures room { file_room self.old ≤ file_room self.new + 1 }
    {
        if self.done.spare() == 0 {
            return Err(self.fail());
        }
        self.done.push(op);
        Ok(())
    }

    /// Counts a failure.
    pub(crate) fn fail(&mut self) -> Failed
        ensures state { self.new ≡ record self.old { faults = next_count self.old.faults } }
        ensures count { file_faults self.old ≤ file_faults self.new }
    {
        self.faults = self.faults.saturating_add(1);
        Failed
    }
}

impl Registers for RegisterFile {
    ghost told = { file_tells };

    ghost log = { file_log };

    ghost room = { file_room };

    ghost faults = { file_faults };

    fn set(&mut self, cpu: u32, register: &Register, value: u64) -> Result<(), Failed>
        ensures keeps { KeepsRegisters file_tells file_faults self.old self.new }
        ensures done { OnOk result (file_tells self.old ≡ true →
            file_log self.new ≡ file_log self.old ++ Set cpu register.now value ∷ []) }
        ensures failed { OnErr result (Rose (file_faults self.old) (file_faults self.new)) }
        ensures stays { OnErr result (file_tells self.old ≡ true →
            file_log self.new ≡ file_log self.old) }
        ensures promised { OnErr result (file_room self.old ≡ 0) }
        ensures steady { 0 < file_room self.old → file_faults self.new ≡ file_faults self.old }
        ensures left { file_room self.old ≤ file_room self.new + 1 }
        ensures exact_failure { is_err result ≡ is_full self.old }
        ensures ok_state { OnOk result (self.new ≡ record self.old {
          log = self.old.log ++ Set cpu register.now value ∷ [];
        }) }
        ensures failed_state { OnErr result (self.new ≡ record self.old {
          faults = next_count self.old.faults;
        }) }
    {
        self.operate(Op::Set {
            cpu,
            register: *register,
            value,
        })
    }

    fn enter(&mut self, cpu: u32, composite: &Composite) -> Result<(), Failed>
        ensures keeps { KeepsRegisters file_tells file_faults self.old self.new }
        ensures done { OnOk result (file_tells self.old ≡ true →
            file_log self.new ≡ file_log self.old ++ Enter cpu composite.now ∷ []) }
        ensures failed { OnErr result (Rose (file_faults self.old) (file_faults self.new)) }
        ensures stays { OnErr result (file_tells self.old ≡ true →
            file_log self.new ≡ file_log self.old) }
        ensures promised { OnErr result (file_room self.old ≡ 0) }
        ensures steady { 0 < file_room self.old → file_faults self.new ≡ file_faults self.old }
        ensures left { file_room self.old ≤ file_room self.new + 1 }
        ensures exact_failure { is_err result ≡ is_full self.old }
        ensures ok_state { OnOk result (self.new ≡ record self.old {
          log = self.old.log ++ Enter cpu composite.now ∷ [];
        }) }
        ensures failed_state { OnErr result (self.new ≡ record self.old {
          faults = next_count self.old.faults;
        }) }
    {
        self.operate(Op::Enter {
            cpu,
            composite: *composite,
        })
    }
}
