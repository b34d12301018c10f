//! Short numbers, as nearly all are that are printed, each put as one piece.
ghost use Rattle.std.specs.Prelude.{◌≡◌, ◌≤◌, ◌<◌, ◌+◌, decimal, is_ok};
ghost use Rattle.pw_text.specs.Puts.{PutsText};
ghost use Rattle.pw_text.specs.Text.{hex_text};

use crate::numbers::{hex_digit, put_hex, put_number};
use crate::page::Page;
use pw_base::{Failed, Sink};

/// The character of a digit.
pub fn digit(value: u64) -> u8
    requires { value < 10 }
    ensures { result ≡ 48 + value }
{
    b'0' + value as u8
}

/// The text of a number of one digit.
#[tactic(auto, using(std::proofs::lemmas::Fmt::decimal_digit))]
fn one_digit(number: u64) -> [u8; 1]
    requires { number < 10 }
    ensures { result ≡ decimal number }
{
    [digit(number)]
}

/// The text of a number of two digits.
#[tactic(auto, using(crate::proofs::Shorts::two))]
fn two_digits(number: u64) -> [u8; 2]
    requires from { 10 ≤ number }
    requires to { number < 100 }
    ensures { result ≡ decimal number }
{
    [digit(number / 10), digit(number % 10)]
}

/// The text of a number of three digits.
#[tactic(auto, using(crate::proofs::Shorts::three))]
fn three_digits(number: u64) -> [u8; 3]
    requires from { 100 ≤ number }
    requires to { number < 1000 }
    ensures { result ≡ decimal number }
{
    let front = number / 10;
    [digit(front / 10), digit(front % 10), digit(number % 10)]
}

/// The text of a number of four digits.
#[tactic(auto, using(crate::proofs::Shorts::four))]
fn four_digits(number: u64) -> [u8; 4]
    requires from { 1000 ≤ number }
    requires to { number < 10000 }
    ensures { result ≡ decimal number }
{
    let front = number / 10;
    let first = front / 10;
    [
        digit(first / 10),
        digit(first % 10),
        digit(front % 10),
        digit(number % 10),
    ]
}

/// The text of a number of five digits.
#[tactic(auto, using(crate::proofs::Shorts::five))]
fn five_digits(number: u64) -> [u8; 5]
    requires from { 10000 ≤ number }
    requires to { number < 100000 }
    ensures { result ≡ decimal number }
{
    let front = number / 10;
    let middle = front / 10;
    let first = middle / 10;
    [
        digit(first / 10),
        digit(first % 10),
        digit(middle % 10),
        digit(front % 10),
        digit(number % 10),
    ]
}

/// Puts a number of two digits or more.
#[inline(never)]
fn put_longer<K: Sink>(page: &mut Page, sink: &mut K, number: u64) -> Result<(), Failed>
    requires { 10 ≤ number }
    ensures { PutsText K.Sink sink.old sink.new page.old page.new
        (decimal number) (is_ok result) }
{
    if number < 100 {
        return page.put(sink, &two_digits(number));
    }
    if number < 1000 {
        return page.put(sink, &three_digits(number));
    }
    if number < 10_000 {
        return page.put(sink, &four_digits(number));
    }
    if number < 100_000 {
        return page.put(sink, &five_digits(number));
    }
    put_number(page, sink, number)
}

/// Puts a number in decimal.
#[inline]
pub fn put_decimal<K: Sink>(page: &mut Page, sink: &mut K, number: u64) -> Result<(), Failed>
    ensures { PutsText K.Sink sink.old sink.new page.old page.new
        (decimal number) (is_ok result) }
{
    if number < 10 {
        return page.put(sink, &one_digit(number));
    }
    put_longer(page, sink, number)
}

/// The text of a number of one hexadecimal digit.
#[tactic(auto, using(crate::proofs::Shorts::hex_one))]
fn one_hex(number: u64) -> [u8; 3]
    requires { number < 16 }
    ensures { result ≡ hex_text number }
{
    [b'0', b'x', hex_digit(number as u8)]
}

/// The text of a number of two hexadecimal digits.
#[tactic(auto, using(crate::proofs::Shorts::hex_two))]
fn two_hex(number: u64) -> [u8; 4]
    requires from { 16 ≤ number }
    requires to { number < 256 }
    ensures { result ≡ hex_text number }
{
    [
        b'0',
        b'x',
        hex_digit((number / 16) as u8),
        hex_digit((number % 16) as u8),
    ]
}

/// The text of a number of four hexadecimal digits.
#[tactic(auto, using(crate::proofs::Shorts::hex_four))]
fn four_hex(number: u64) -> [u8; 6]
    requires from { 4096 ≤ number }
    requires to { number < 65536 }
    ensures { result ≡ hex_text number }
{
    let front = number / 16;
    let first = front / 16;
    [
        b'0',
        b'x',
        hex_digit((first / 16) as u8),
        hex_digit((first % 16) as u8),
        hex_digit((front % 16) as u8),
        hex_digit((number % 16) as u8),
    ]
}

/// Puts a number in upper-case hexadecimal behind `0x`.
pub fn put_hexadecimal<K: Sink>(page: &mut Page, sink: &mut K, number: u64) -> Result<(), Failed>
    ensures { PutsText K.Sink sink.old sink.new page.old page.new
        (hex_text number) (is_ok result) }
{
    if number < 16 {
        return page.put(sink, &one_hex(number));
    }
    if number < 256 {
        return page.put(sink, &two_hex(number));
    }
    if number >= 4096 && number < 65536 {
        return page.put(sink, &four_hex(number));
    }
    put_hex(page, sink, number)
}
