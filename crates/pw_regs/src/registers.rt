ghost use Rattle.std.specs.Prelude.{◌≡◌, ◌≤◌, ◌<◌, ◌+◌, ◌++◌, ◌∷◌, [], ℕ, Bool, true, List, OnOk, OnErr};
ghost use Rattle.acpi_values.specs.declared.operation.Op.{Op as operation};
ghost use Rattle.acpi_values.specs.declared.operation.Op.TheVariants.{Set, Enter};
ghost use Rattle.pw_base.specs.Outside.{Rose};
ghost use Rattle.pw_regs.specs.Registers.{KeepsRegisters};

use acpi_values::{Composite, Register};
use pw_base::Failed;

/// The registers of processors: of the hardware, or in memory. Contracts see whether they tell what
/// was done, the operations that were done, in order, how many more are sure to be done, which may
/// be 0, and how many failed.
pub trait Registers {
    ghost told: { Self → Bool };

    ghost log: { Self → List operation };

    ghost room: { Self → ℕ };

    ghost faults: { Self → ℕ };

    /// Writes a control value to a register of a processor (ACPI 6.5, 8.4.5.1 and 8.4.4.1).
    fn set(&mut self, cpu: u32, register: &Register, value: u64) -> Result<(), Failed>
        ensures keeps { KeepsRegisters told faults self.old self.new }
        ensures done { OnOk result (told self.old ≡ true →
            log self.new ≡ log self.old ++ Set cpu register.now value ∷ []) }
        ensures failed { OnErr result (Rose (faults self.old) (faults self.new)) }
        ensures stays { OnErr result (told self.old ≡ true → log self.new ≡ log self.old) }
        // While there is room no operation fails, and each takes at most one place of it.
        ensures promised { OnErr result (room self.old ≡ 0) }
        ensures steady { 0 < room self.old → faults self.new ≡ faults self.old }
        ensures left { room self.old ≤ room self.new + 1 };

    /// Has a processor enter an idle state (ACPI 6.5, 8.4.3.3).
    fn enter(&mut self, cpu: u32, composite: &Composite) -> Result<(), Failed>
        ensures keeps { KeepsRegisters told faults self.old self.new }
        ensures done { OnOk result (told self.old ≡ true →
            log self.new ≡ log self.old ++ Enter cpu composite.now ∷ []) }
        ensures failed { OnErr result (Rose (faults self.old) (faults self.new)) }
        ensures stays { OnErr result (told self.old ≡ true → log self.new ≡ log self.old) }
        ensures promised { OnErr result (room self.old ≡ 0) }
        ensures steady { 0 < room self.old → faults self.new ≡ faults self.old }
        ensures left { room self.old ≤ room self.new + 1 };
}
