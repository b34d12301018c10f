//! The fields of a register before its address, put as one piece.
ghost use Rattle.std.specs.Prelude.{◌≡◌, ◌≤◌, ◌<◌, ◌+◌, ◌∷◌, ◌++◌, [], decimal, is_ok, take};
ghost use Rattle.pw_text.specs.Puts.{PutsText};
ghost use Rattle.pw_text.specs.inner.Front.{front_text};

use crate::digits::digit;
use crate::page::Page;
use acpi_values::Register;
use pw_base::{Failed, Sink};

/// Writes a byte at a place, and says the place behind it.
fn write_byte(text: &mut [u8; 18], at: usize, byte: u8) -> usize
    requires { at < 18 }
    ensures place { result ≡ at + 1 }
    ensures text { take (at + 1) text.new ≡ take at text.old ++ (byte ∷ []) }
{
    text[at] = byte;
    at + 1
}

/// Writes two bytes.
fn write_two(text: &mut [u8; 18], at: usize, first: u8, second: u8) -> usize
    requires { at + 2 ≤ 18 }
    ensures place { result ≡ at + 2 }
    ensures text { take (at + 2) text.new ≡ take at text.old ++ (first ∷ second ∷ []) }
{
    let next = write_byte(text, at, first);
    write_byte(text, next, second)
}

/// Writes a number and a comma, and says the place behind them.
fn write_field(text: &mut [u8; 18], at: usize, field: u8) -> usize
    requires { at + 4 ≤ 18 }
    ensures within { result ≤ at + 4 }
    ensures text { take result text.new ≡ take at text.old ++ (decimal field ++ (44 ∷ [])) }
{
    let number = u64::from(field);
    if number < 10 {
        return write_two(text, at, digit(number), b',');
    }
    let front = number / 10;
    if number < 100 {
        let next = write_byte(text, at, digit(front));
        return write_two(text, next, digit(number % 10), b',');
    }
    let next = write_two(text, at, digit(front / 10), digit(front % 10));
    write_two(text, next, digit(number % 10), b',')
}

/// Puts the fields of a register before its address, each with a comma behind it, behind a space and a
/// bracket.
pub fn put_front<K: Sink>(page: &mut Page, sink: &mut K, register: &Register) -> Result<(), Failed>
    ensures { PutsText K.Sink sink.old sink.new page.old page.new
        (front_text register.now) (is_ok result) }
{
    let mut text = *b" [                ";
    let at = write_field(&mut text, 2, register.space);
    let at = write_field(&mut text, at, register.width);
    let at = write_field(&mut text, at, register.offset);
    let at = write_field(&mut text, at, register.access);
    page.put(sink, &text[..at])
}
