//! The first number that stands twice in a list, and the first place where two lists differ.

ghost use Rattle.std.specs.Prelude.{◌≡◌, ◌<◌, ◌≤◌, ℕ, length};
ghost use Rattle.pw_findings.specs.Firsts.{differ_at, earlier, first_other, first_repeat, number_in};
ghost use Rattle.pw_findings.specs.Firsts.{repeat_at, stood};

use crate::finding::Repeat;

/// The number at place k, 0 past the end.
pub(crate) fn number_in(numbers: &[u32], k: usize) -> u32
    ensures { result ≡ number_in numbers.now k }
{
    match numbers.get(k) {
        None => 0,
        Some(number) => *number,
    }
}

/// The first place before place k where the same number stands.
fn earlier(numbers: &[u32], k: usize) -> Option<usize>
    requires { k < length numbers.now }
    ensures { result ≡ earlier numbers.now k }
{
    let number = number_in(numbers, k);
    numbers[..k].iter().position(|other| *other == number)
}

/// Whether the number at place k stood before it.
fn stood(numbers: &[u32], k: usize) -> bool
    requires { k < length numbers.now }
    ensures { result ≡ stood numbers.now k }
{
    earlier(numbers, k).is_some()
}

/// Place k with its number, and the first place of this number.
fn repeat_at(numbers: &[u32], k: usize) -> Repeat
    requires { k < length numbers.now }
    ensures { result ≡ repeat_at numbers.now k }
{
    Repeat {
        number: number_in(numbers, k),
        place: k,
        earlier: earlier(numbers, k).unwrap_or(0),
    }
}

/// Whether the number at place k stood before it, where all before it are between two numbers: one that isn't
/// between these isn't looked for.
fn stood_between(numbers: &[u32], k: usize, least: u32, most: u32) -> bool
    requires within { k < length numbers.now }
    requires between { (j : ℕ) → j < k
        → (least ≤ number_in numbers.now j) × (number_in numbers.now j ≤ most) }
    ensures { result ≡ stood numbers.now k }
{
    let number = number_in(numbers, k);
    if number < least {
        return false;
    }
    if most < number {
        return false;
    }
    stood(numbers, k)
}

/// The first place whose number stood before it. Numbers that rise or fall are gone through once.
pub fn first_repeat(numbers: &[u32]) -> Option<Repeat>
    ensures { result ≡ first_repeat numbers.now }
{
    let mut least = u32::MAX;
    let mut most = 0;
    for k in 0..numbers.len() {
        if stood_between(numbers, k, least, most) {
            return Some(repeat_at(numbers, k));
        }
        let number = number_in(numbers, k);
        least = least.min(number);
        most = most.max(number);
    }
    None
}

/// Whether two lists have other numbers at place k.
fn differ_at(one: &[u32], other: &[u32], k: usize) -> bool
    ensures { result ≡ differ_at one.now other.now k }
{
    number_in(one, k) != number_in(other, k)
}

/// The first place of a list at which another has another number.
pub(crate) fn first_other(one: &[u32], other: &[u32]) -> Option<usize>
    ensures { result ≡ first_other one.now other.now }
{
    for k in 0..one.len() {
        if differ_at(one, other, k) {
            return Some(k);
        }
    }
    None
}
