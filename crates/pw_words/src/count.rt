ghost use Rattle.std.specs.Prelude.{◌≡◌, ◌+◌, ◌*◌, ◌-◌, ◌∷◌, [], ℕ, MatchOption};
ghost use Rattle.pw_words.specs.Words.{IsCount};

/// The number of clusters that one digit tells.
#[tactic(auto, using(crate::proofs::Counts::of_one))]
fn from_one(ones: u8) -> Option<u32>
    ensures { MatchOption result ((count : ℕ) → IsCount (ones ∷ []) count → ⊥)
        (IsCount (ones ∷ [])) }
{
    match ones {
        b'1'..=b'9' => Some(u32::from(ones - b'0')),
        _ => None,
    }
}

/// The number of clusters that two digits tell, of which the first may be 0.
#[tactic(auto, using(crate::proofs::Counts::of_two))]
fn from_two(tens: u8, ones: u8) -> Option<u32>
    ensures { MatchOption result ((count : ℕ) → IsCount (tens ∷ ones ∷ []) count → ⊥)
        (IsCount (tens ∷ ones ∷ [])) }
{
    match (tens, ones) {
        (b'0'..=b'9', b'0'..=b'9') => {
            let count = 10 * u32::from(tens - b'0') + u32::from(ones - b'0');
            match count {
                1..=32 => Some(count),
                _ => None,
            }
        }
        _ => None,
    }
}

/// The number of clusters that the word tells: 1 to 32, in one or two decimal digits.
#[tactic(auto, using(crate::proofs::Counts::few_digits))]
pub(crate) fn count_of(word: &str) -> Option<u32>
    ensures { MatchOption result ((count : ℕ) → IsCount word.now count → ⊥) (IsCount word.now) }
{
    match word.as_bytes() {
        [ones] => from_one(*ones),
        [tens, ones] => from_two(*tens, *ones),
        _ => None,
    }
}
