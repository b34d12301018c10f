ghost use Rattle.std.specs.Prelude.{◌≡◌, ◌≤◌, ◌<◌, ◌+◌, ◌++◌, ◌∷◌, [], true, OnOk, OnErr};
ghost use Rattle.acpi_values.specs.declared.operation.Op.TheVariants.{Set, Enter};
ghost use Rattle.pw_base.specs.InMemory.{next_count};
ghost use Rattle.pw_base.specs.Outside.{Rose};
ghost use Rattle.pw_regs.specs.Registers.{KeepsRegisters};
ghost use Rattle.pw_journal.specs.Reported.{reported_faults, reported_log, reported_room, reported_tells};

use crate::past::Past;
use acpi_values::{Composite, Op, Register};
use pw_base::Failed;
use pw_regs::Registers;
use std::marker::Model;

/// Registers that the caller operates itself. They take its word for what it did, and keep of that only
/// how often a register failed; contracts see each operation that it said was done. What a coordinator
/// operates by itself on them, as the operations at the start, it takes as done.
#[derive(Drop)]
pub struct ReportedRegisters {
    done: Past<Op>,
    faults: u64,
}

impl Model for ReportedRegisters {
    ghost use Rattle.pw_journal.specs.Reported.{ReportedHeld};

    ghost Value = { ReportedHeld };

    ghost view = { λ r. record { log = r.done.items; faults = r.faults } };
}

impl ReportedRegisters {
    /// Registers on which nothing was done.
    pub fn new() -> ReportedRegisters
        ensures { result ≡ record { log = []; faults = 0 } }
    {
        ReportedRegisters {
            done: Past::new(),
            faults: 0,
        }
    }

    /// Takes the caller's word that these operations were done.
    pub(crate) fn report_done(&mut self, ops: &[Op])
        ensures { self.new ≡ record self.old { log = self.old.log ++ ops.now } }
    {
        self.done.extend(ops);
    }

    /// Takes the caller's word that a register failed after these operations.
    pub(crate) fn report_failed(&mut self, ops: &[Op])
        ensures state { self.new ≡ record self.old {
          log = self.old.log ++ ops.now;
          faults = next_count self.old.faults;
        } }
        ensures count { reported_faults self.old ≤ reported_faults self.new }
        ensures rose { Rose (reported_faults self.old) (reported_faults self.new) }
    {
        self.done.extend(ops);
        self.faults = self.faults.saturating_add(1);
    }
}

impl Registers for ReportedRegisters {
    ghost told = { reported_tells };

    ghost log = { reported_log };

    ghost room = { reported_room };

    ghost faults = { reported_faults };

    fn set(&mut self, cpu: u32, register: &Register, value: u64) -> Result<(), Failed> {
        self.done.push(&Op::Set {
            cpu,
            register: *register,
            value,
        });
        Ok(())
    }

    fn enter(&mut self, cpu: u32, composite: &Composite) -> Result<(), Failed> {
        self.done.push(&Op::Enter {
            cpu,
            composite: *composite,
        });
        Ok(())
    }
}
