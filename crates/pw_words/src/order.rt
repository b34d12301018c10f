ghost use Rattle.std.specs.Prelude.{◌≡◌, ◌&&◌, ◌++◌, ◌∷◌, IfOk, OnOk};
ghost use Rattle.std.specs.List.{filter};
ghost use Rattle.pw_words.specs.Command.{slice_texts};
ghost use Rattle.pw_words.specs.Words.{are_flags_of, flags_of, in_table_order, is_among, is_bare};
ghost use Rattle.pw_words.specs.Words.{is_dashed, texts};
ghost use Rattle.pw_words.specs.inner.Reading.{given, picks};

use std::alloc::{AllocError, Global};

/// Whether the word begins with a hyphen.
fn begins_dashed(word: &str) -> bool
    ensures { result ≡ is_dashed word.now }
{
    match word.as_bytes() {
        [first, ..] => *first == b'-',
        [] => false,
    }
}

/// The flags of the command that the word names, in the order of its line of the table.
fn known_flags(word: &str) -> &'static [&'static str]
    ensures { slice_texts result.now ≡ flags_of word.now }
{
    match word {
        "show" => &["--json"],
        "drive" => &["--serial", "--step"],
        "audit" => &["--step", "--trace", "--cppc"],
        "cppc" => &["--serial"],
        _ => &[],
    }
}

/// Whether the word is one of these.
fn is_one_of(word: &str, words: &[&str]) -> bool
    ensures { result ≡ is_among (slice_texts words.now) word.now }
{
    words.contains(&word)
}

/// Whether each of these is a flag of the command that the word names, and is there once.
fn are_its_flags(word: &str, flags: &[&str]) -> bool
    ensures { result ≡ are_flags_of word.now (slice_texts flags.now) }
{
    match flags {
        [] => true,
        [flag, rest @ ..] => {
            is_one_of(flag, known_flags(word))
                && !is_one_of(flag, rest)
                && are_its_flags(word, rest)
        }
    }
}

/// Adds those flags of the command that are among these, in the order of its line of the table.
fn push_flags<'a>(all: &mut Vec<&'a str>, word: &str, flags: &[&str]) -> Result<(), AllocError>
    ensures { OnOk result (slice_texts all.new.items ≡
        slice_texts all.old.items ++ in_table_order word.now (slice_texts flags.now)) }
{
    for flag in known_flags(word) {
        if is_one_of(flag, flags) {
            all.push(flag)?;
        }
    }
    Ok(())
}

/// Adds the words that begin with a hyphen, or those that don't.
fn push_words<'a>(
    all: &mut Vec<&'a str>,
    words: &'a [String],
    dashed: bool,
) -> Result<(), AllocError>
    ensures { OnOk result (slice_texts all.new.items ≡
        slice_texts all.old.items ++ filter (picks dashed) (texts words.now)) }
{
    for word in words {
        if begins_dashed(word.as_str()) == dashed {
            all.push(word.as_str())?;
        }
    }
    Ok(())
}

/// The words as they are.
fn all_words<'a>(alloc: Global, words: &'a [String]) -> Result<Vec<&'a str>, AllocError>
    ensures { IfOk result (λ all. slice_texts all.items ≡ texts words.now) }
{
    let mut all = Vec::new(alloc);
    for word in words {
        all.push(word.as_str())?;
    }
    Ok(all)
}

/// The words that begin with a hyphen.
fn dashed_words<'a>(alloc: Global, words: &'a [String]) -> Result<Vec<&'a str>, AllocError>
    ensures { IfOk result (λ all. slice_texts all.items ≡ filter is_dashed (texts words.now)) }
{
    let mut all = Vec::new(alloc);
    push_words(&mut all, words, true)?;
    Ok(all)
}

/// Whether words are plain that begin with this one, and behind it have these that begin with a
/// hyphen.
fn begin_plain(first: &str, flags: &[&str]) -> bool
    ensures { result ≡ (is_bare first.now && are_flags_of first.now (slice_texts flags.now)) }
{
    !begins_dashed(first) && are_its_flags(first, flags)
}

/// The first word, its flags in order, and those of the rest that don't begin with a hyphen.
fn moved_words<'a>(
    alloc: Global,
    first: &'a str,
    flags: &[&str],
    rest: &'a [String],
) -> Result<Vec<&'a str>, AllocError>
    ensures { IfOk result (λ all. slice_texts all.items ≡ first.now ∷
        in_table_order first.now (slice_texts flags.now) ++ filter is_bare (texts rest.now)) }
{
    let mut all = Vec::new(alloc);
    all.push(first)?;
    push_flags(&mut all, first, flags)?;
    push_words(&mut all, rest, false)?;
    Ok(all)
}

/// Plain words with their flags behind the first word, and others as they are.
pub(crate) fn in_order<'a>(alloc: Global, words: &'a [String]) -> Result<Vec<&'a str>, AllocError>
    ensures { IfOk result (λ all. slice_texts all.items ≡ given (texts words.now)) }
{
    let [first, rest @ ..] = words else {
        return Ok(Vec::new(alloc));
    };
    let flags = dashed_words(alloc, rest)?;
    if begin_plain(first.as_str(), flags.as_slice()) {
        moved_words(alloc, first.as_str(), flags.as_slice(), rest)
    } else {
        all_words(alloc, words)
    }
}
