ghost use Rattle.std.specs.Prelude.{◌≡◌, ◌≤◌, ◌<◌, ◌+◌, ◌^◌, ◌++◌, ◌∷◌, [], true, length, take, IfErr, OnOk, OnErr};
ghost use Rattle.pw_base.specs.Outside.{Rose};
ghost use Rattle.pw_regs.specs.Registers.{KeepsRegisters};

use acpi_values::Op;
use pw_base::Failed;
use pw_regs::Registers;

/// Does an operation.
fn operate<R: Registers>(regs: &mut R, op: &Op) -> Result<(), Failed>
    ensures keeps { KeepsRegisters R.told R.faults regs.old regs.new }
    ensures done { OnOk result (R.told regs.old ≡ true →
        R.log regs.new ≡ R.log regs.old ++ op.now ∷ []) }
    ensures failed { OnErr result (Rose (R.faults regs.old) (R.faults regs.new)) }
    ensures stays { OnErr result (R.told regs.old ≡ true → R.log regs.new ≡ R.log regs.old) }
    ensures promised { OnErr result (R.room regs.old ≡ 0) }
    ensures steady { 0 < R.room regs.old → R.faults regs.new ≡ R.faults regs.old }
    ensures left { R.room regs.old ≤ R.room regs.new + 1 }
{
    match op {
        Op::Set {
            cpu,
            register,
            value,
        } => regs.set(*cpu, register, *value),
        Op::Enter { cpu, composite } => regs.enter(*cpu, composite),
    }
}

/// Does operations in order, up to the first that fails; then it answers how many were done.
pub fn operate_all<R: Registers>(regs: &mut R, ops: &[Op]) -> Result<(), u32>
    requires few { length ops.now < 2 ^ 32 }
    ensures keeps { KeepsRegisters R.told R.faults regs.old regs.new }
    ensures done { OnOk result (R.told regs.old ≡ true →
        R.log regs.new ≡ R.log regs.old ++ ops.now) }
    ensures within { IfErr result (λ k. k < length ops.now) }
    ensures part { IfErr result (λ k. R.told regs.old ≡ true →
        R.log regs.new ≡ R.log regs.old ++ take k ops.now) }
    ensures failed { OnErr result (Rose (R.faults regs.old) (R.faults regs.new)) }
    ensures promised { OnErr result (R.room regs.old < length ops.now) }
    ensures steady { length ops.now ≤ R.room regs.old → R.faults regs.new ≡ R.faults regs.old }
    ensures left { R.room regs.old ≤ R.room regs.new + length ops.now }
{
    let mut done = 0;
    for op in ops {
        if operate(regs, op).is_err() {
            return Err(done);
        }
        done += 1;
    }
    Ok(())
}
