ghost use Rattle.std.specs.Prelude.{◌≡◌, ◌≤◌, ◌<◌, ◌+◌, ◌++◌, ◌∷◌, [], true, false, OnOk, OnErr};
ghost use Rattle.acpi_values.specs.declared.operation.Op.TheVariants.{Set, Enter};
ghost use Rattle.pw_base.specs.Outside.{Rose};
ghost use Rattle.pw_regs.specs.Registers.{KeepsRegisters};
ghost use Rattle.pw_embed.specs.Registers.{no_faults, no_log, tells_nothing, whole_room};

use acpi_values::{Composite, Register};
use pw_base::Failed;
use pw_regs::Registers;

/// No registers: the caller does each operation itself. None fails here, and none is kept.
#[derive(Clone, Copy)]
pub struct NoRegisters;

impl Registers for NoRegisters {
    ghost told = { tells_nothing };

    ghost log = { no_log };

    ghost room = { whole_room };

    ghost faults = { no_faults };

    fn set(&mut self, _cpu: u32, _register: &Register, _value: u64) -> Result<(), Failed> {
        Ok(())
    }

    fn enter(&mut self, _cpu: u32, _composite: &Composite) -> Result<(), Failed> {
        Ok(())
    }
}
