ghost use Rattle.std.specs.Prelude.{◌∷◌, ◌++◌, [], codes, is_ok};
ghost use Rattle.std.specs.List.{flat_map};
ghost use Rattle.pw_text.specs.Puts.{PutsText};
ghost use Rattle.pw_text.specs.Text.{hex_text};
ghost use Rattle.pw_text.specs.HistoryText.{op_line_by};
ghost use Rattle.pw_text.specs.Paths.{text_at};
ghost use Rattle.pw_text.specs.inner.Front.{front_text};

use crate::digits::put_hexadecimal;
use crate::front::put_front;
use crate::page::Page;
use crate::path_texts::PathTexts;
use acpi_values::{Composite, Op, Register};
use pw_base::{Failed, Sink};

/// Puts where a register stands, up to its last bracket.
fn put_place<K: Sink>(
    page: &mut Page,
    sink: &mut K,
    paths: &PathTexts,
    cpu: u32,
    register: &Register,
) -> Result<(), Failed>
    ensures { PutsText K.Sink sink.old sink.new page.old page.new
        (text_at paths.now cpu ++ (front_text register.now ++ hex_text register.now.address))
        (is_ok result) }
{
    page.put(sink, paths.path(cpu))?;
    put_front(page, sink, register)?;
    put_hexadecimal(page, sink, register.address)
}

/// Puts the line of a state that a processor enters.
fn put_enter<K: Sink>(
    page: &mut Page,
    sink: &mut K,
    paths: &PathTexts,
    cpu: u32,
    composite: &Composite,
) -> Result<(), Failed>
    ensures { PutsText K.Sink sink.old sink.new page.old page.new
        (op_line_by (text_at paths.now) (Op.Enter cpu composite.now) ++ (10 ∷ [])) (is_ok result) }
{
    page.put(sink, b"  enter ")?;
    put_place(page, sink, paths, cpu, &composite.register)?;
    page.put(sink, b"]\n")
}

/// Puts the end of a line that sets a value.
fn put_value<K: Sink>(page: &mut Page, sink: &mut K, value: u64) -> Result<(), Failed>
    ensures { PutsText K.Sink sink.old sink.new page.old page.new
        (codes "] " ++ (hex_text value ++ (10 ∷ []))) (is_ok result) }
{
    page.put(sink, b"] ")?;
    put_hexadecimal(page, sink, value)?;
    page.put(sink, b"\n")
}

/// Puts the line of a value that is set.
fn put_set<K: Sink>(
    page: &mut Page,
    sink: &mut K,
    paths: &PathTexts,
    cpu: u32,
    register: &Register,
    value: u64,
) -> Result<(), Failed>
    ensures { PutsText K.Sink sink.old sink.new page.old page.new
        (op_line_by (text_at paths.now) (Op.Set cpu register.now value) ++ (10 ∷ [])) (is_ok result) }
{
    page.put(sink, b"  set ")?;
    put_place(page, sink, paths, cpu, register)?;
    put_value(page, sink, value)
}

/// Puts the line of an operation.
fn put_op_line<K: Sink>(
    page: &mut Page,
    sink: &mut K,
    paths: &PathTexts,
    op: &Op,
) -> Result<(), Failed>
    ensures { PutsText K.Sink sink.old sink.new page.old page.new
        (op_line_by (text_at paths.now) op.now ++ (10 ∷ [])) (is_ok result) }
{
    match op {
        Op::Set {
            cpu,
            register,
            value,
        } => put_set(page, sink, paths, *cpu, register, *value),
        Op::Enter { cpu, composite } => put_enter(page, sink, paths, *cpu, composite),
    }
}

/// Puts the lines of operations, in order, with the paths at their processors' numbers.
pub fn put_ops<K: Sink>(
    page: &mut Page,
    sink: &mut K,
    paths: &PathTexts,
    ops: &[Op],
) -> Result<(), Failed>
    ensures { PutsText K.Sink sink.old sink.new page.old page.new
        (flat_map (λ o. op_line_by (text_at paths.now) o ++ (10 ∷ [])) ops.now) (is_ok result) }
{
    for op in ops {
        put_op_line(page, sink, paths, op)?;
    }
    Ok(())
}
