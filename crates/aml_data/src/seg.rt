ghost use Rattle.std.specs.Prelude.{◌≡◌, ◌+◌, ◌<◌, ◌≤◌, ◌↔◌, length, IsTrue, IfOk, MatchOption};
ghost use Rattle.std.specs.Prelude.{Some, refl};
ghost use Rattle.std.specs.Ordering.{nat_cmp};
ghost use Rattle.std.specs.Cmp.Lexicographic.{nat_list_cmp_total, slice_cmp, texts_po, texts_ties};
ghost use Rattle.aml_data.specs.Segment.{is_letter, is_word, IsSegment};
ghost use Rattle.aml_data.specs.inner.Reading.{Tells, letter_at, segment_at};

use crate::fault::DataFault;
use std::cmp::Ordering;
use std::marker::Model;

/// One segment of a name, NameSeg: four characters, the first a capital letter or `_`, each other
/// one of these or a digit (ACPI 6.5, 20.2.2). Contracts see the four bytes.
#[derive(Clone, Copy, Debug, PartialEq, Eq)]
pub struct Seg([u8; 4]);

impl Model for Seg {
    ghost use Rattle.std.specs.Prelude.{ℕ, List};
    ghost use Rattle.std.specs.Coded.{coded_list, coded_ℕ};

    ghost Value = { List ℕ };

    ghost coded = { coded_list coded_ℕ };

    ghost use Rattle.aml_data.specs.Segment.{IsSegment};

    ghost view = { λ s. s.0 };

    ghost invariant = { λ s. IsSegment s.0 };

    ghost inverse = { λ bytes. record { 0 = bytes } };
}

impl PartialOrd for Seg {
    ghost partial_cmp = { λ x y. Some (slice_cmp nat_cmp x y) };

    ghost laws = { texts_po };

    fn partial_cmp(&self, other: &Seg) -> Option<Ordering> {
        Some(self.cmp(other))
    }
}

// By their bytes in order, which one comparison of numbers tells.
impl Ord for Seg {
    ghost cmp = { slice_cmp nat_cmp };

    ghost total = { nat_list_cmp_total };

    ghost matches_partial_cmp = { λ x y. refl };

    ghost matches_eq = { texts_ties };

    fn cmp(&self, other: &Seg) -> Ordering {
        u32::from_be_bytes(self.0).cmp(&u32::from_be_bytes(other.0))
    }
}

impl Seg {
    /// The segment of these four bytes, where they are one.
    pub fn new(bytes: [u8; 4]) -> Option<Seg>
        ensures { MatchOption result (IsSegment bytes → ⊥) (λ s. (s ≡ bytes) × IsSegment bytes) }
    {
        let [a, b, c, d] = bytes;
        if is_letter(a) && is_word(b) && is_word(c) && is_word(d) {
            Some(Seg([a, b, c, d]))
        } else {
            None
        }
    }

    /// The segment of four bytes that are one, as the name of an object that the standard gives.
    pub fn of_segment(bytes: [u8; 4]) -> Seg
        requires { IsSegment bytes }
        ensures { result ≡ bytes }
    {
        Seg(bytes)
    }

    /// The four bytes.
    pub fn bytes(&self) -> [u8; 4]
        ensures value { result ≡ self.now }
        ensures segment { IsSegment self.now }
    {
        self.0
    }
}

/// Whether a segment may begin with this byte: `A` to `Z`, or `_`.
pub fn is_letter(byte: u8) -> bool
    ensures { result ≡ is_letter byte }
{
    byte.is_ascii_uppercase() || byte == b'_'
}

/// Whether a segment may go on with this byte: `A` to `Z`, `_`, or a digit.
pub fn is_word(byte: u8) -> bool
    ensures { result ≡ is_word byte }
{
    is_letter(byte) || byte.is_ascii_digit()
}

/// A character that may begin a segment, and the bytes after it.
fn letter_of(bytes: &[u8], end: usize) -> Result<(u8, &[u8]), DataFault>
    requires { length bytes.now ≤ end }
    ensures value { Tells (λ x. (x.0, x.1.now)) result (letter_at is_letter end bytes.now) }
    ensures letter { IfOk result (λ x. IsTrue (is_letter x.0)) }
    ensures shorter { IfOk result (λ x. length x.1.now < length bytes.now) }
{
    match bytes {
        [] => Err(DataFault::Short { at: end }),
        [byte, rest @ ..] => {
            if !is_letter(*byte) {
                return Err(DataFault::BadName {
                    at: end - bytes.len(),
                });
            }
            Ok((*byte, rest))
        }
    }
}

/// A character that a segment may go on with, and the bytes after it.
fn word_character_of(bytes: &[u8], end: usize) -> Result<(u8, &[u8]), DataFault>
    requires { length bytes.now ≤ end }
    ensures value { Tells (λ x. (x.0, x.1.now)) result (letter_at is_word end bytes.now) }
    ensures word { IfOk result (λ x. IsTrue (is_word x.0)) }
    ensures shorter { IfOk result (λ x. length x.1.now < length bytes.now) }
{
    match bytes {
        [] => Err(DataFault::Short { at: end }),
        [byte, rest @ ..] => {
            if !is_word(*byte) {
                return Err(DataFault::BadName {
                    at: end - bytes.len(),
                });
            }
            Ok((*byte, rest))
        }
    }
}

/// The four bytes of the segment that stands first, and the bytes after it. `end` is the place where
/// the bytes end.
#[tactic(auto, unfolding(crate::specs::inner::Reading::segment_at))]
pub(crate) fn segment_of(bytes: &[u8], end: usize) -> Result<([u8; 4], &[u8]), DataFault>
    requires { length bytes.now ≤ end }
    ensures value { Tells (λ x. (x.0, x.1.now)) result (segment_at end bytes.now) }
    ensures segment { IfOk result (λ x. IsSegment x.0) }
    ensures shorter { IfOk result (λ x. length x.1.now < length bytes.now) }
{
    let (a, rest) = letter_of(bytes, end)?;
    let (b, rest) = word_character_of(rest, end)?;
    let (c, rest) = word_character_of(rest, end)?;
    let (d, rest) = word_character_of(rest, end)?;
    Ok(([a, b, c, d], rest))
}
