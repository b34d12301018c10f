//! The lines of operations.
ghost use Rattle.std.specs.Prelude.{◌≡◌, ◌∷◌, ◌++◌, [], codes, decimal, OnOk};
ghost use Rattle.std.specs.List.{join_with_byte};
ghost use Rattle.pw_text.specs.Lines.{with_feed};
ghost use Rattle.pw_text.specs.Text.{hex_text};
ghost use Rattle.pw_text.specs.HistoryText.{op_line_by, register_text};
ghost use Rattle.pw_text.specs.Paths.{text_at};

use crate::words::{push, push_decimal, push_hex, push_labelled};
use acpi_values::{Op, Register};
use pw_base::Memory;
use pw_text::PathTexts;

/// Puts the fields of a register, with commas between.
fn push_fields(line: &mut Vec<u8>, register: &Register) -> Result<(), Memory>
    ensures { OnOk result (line.new.items ≡ line.old.items
        ++ join_with_byte 44 (decimal register.now.space ∷ decimal register.now.width
        ∷ decimal register.now.offset
        ∷ decimal register.now.access ∷ hex_text register.now.address ∷ [])) }
{
    push_decimal(line, u64::from(register.space))?;
    push_labelled(line, b",", u32::from(register.width))?;
    push_labelled(line, b",", u32::from(register.offset))?;
    push_labelled(line, b",", u32::from(register.access))?;
    push(line, b",")?;
    push_hex(line, register.address)
}

/// Puts a register.
fn push_register(line: &mut Vec<u8>, register: &Register) -> Result<(), Memory>
    ensures { OnOk result (line.new.items ≡ line.old.items ++ register_text register.now) }
{
    push(line, b"[")?;
    push_fields(line, register)?;
    push(line, b"]")
}

/// Puts what is done to a register of a processor.
fn push_target(
    line: &mut Vec<u8>,
    paths: &PathTexts,
    verb: &[u8],
    cpu: u32,
    register: &Register,
) -> Result<(), Memory>
    ensures { OnOk result (line.new.items ≡ line.old.items
        ++ (verb.now ++ (text_at paths.now cpu ++ (32 ∷ register_text register.now)))) }
{
    push(line, verb)?;
    push(line, paths.path(cpu))?;
    push(line, b" ")?;
    push_register(line, register)
}

/// Puts that a value is set.
fn push_set(
    line: &mut Vec<u8>,
    paths: &PathTexts,
    cpu: u32,
    register: &Register,
    value: u64,
) -> Result<(), Memory>
    ensures { OnOk result (line.new.items ≡ line.old.items
        ++ ((codes "  set " ++ (text_at paths.now cpu ++ (32 ∷ register_text register.now)))
        ++ (32 ∷ hex_text value))) }
{
    push_target(line, paths, b"  set ", cpu, register)?;
    push(line, b" ")?;
    push_hex(line, value)
}

/// Puts an operation, without a line feed.
fn push_op(line: &mut Vec<u8>, paths: &PathTexts, op: &Op) -> Result<(), Memory>
    ensures { OnOk result (line.new.items ≡ line.old.items ++ op_line_by (text_at paths.now) op.now) }
{
    match op {
        Op::Set {
            cpu,
            register,
            value,
        } => push_set(line, paths, *cpu, register, *value),
        Op::Enter { cpu, composite } => {
            push_target(line, paths, b"  enter ", *cpu, &composite.register)
        }
    }
}

/// Puts the line of an operation.
pub(crate) fn push_op_line(line: &mut Vec<u8>, paths: &PathTexts, op: &Op) -> Result<(), Memory>
    ensures { OnOk result
        (line.new.items ≡ line.old.items ++ with_feed (op_line_by (text_at paths.now) op.now)) }
{
    push_op(line, paths, op)?;
    push(line, b"\n")
}
