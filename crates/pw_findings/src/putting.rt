ghost use Rattle.std.specs.Prelude.{◌≡◌, ◌∷◌, ◌++◌, decimal, is_ok};
ghost use Rattle.std.specs.List.{flat_map};
ghost use Rattle.pw_text.specs.Puts.{PutsText};
ghost use Rattle.pw_findings.specs.declared.finding.Shared.TheVariants.{States};
ghost use Rattle.pw_findings.specs.Words.{domain_words, number_words, pace_words, place_words};
ghost use Rattle.pw_findings.specs.Words.{shared_words, state_words, word_text};

use crate::finding::{DomainId, Shared};
use crate::words::{Name, states_name, text_of, unit_name};
use acpi_values::Place;
use aml_data::FullPath;
use pw_base::{Failed, Sink};
use pw_plan::DomainKind;
use pw_text::{Page, put_number, put_place};

/// A word of a line.
#[derive(Clone, Copy)]
pub(crate) enum Word<'a> {
    Text(&'a [u8]),
    Number(u32),
    Byte(u8),
    Count(usize),
    Long(u64),
    Path(&'a FullPath),
    Place(Place),
    /// A state, by its number.
    State(DomainKind, usize),
    /// How fast one is.
    Rate(DomainKind, u32),
    Domain(DomainId),
    Name(Name),
}

/// Puts a number behind a text.
fn put_labelled<K: Sink>(
    page: &mut Page,
    sink: &mut K,
    label: &[u8],
    number: u64,
) -> Result<(), Failed>
    ensures { PutsText K.Sink sink.old sink.new page.old page.new
        (label.now ++ decimal number) (is_ok result) }
{
    page.put(sink, label)?;
    put_number(page, sink, number)
}

/// Puts a domain's number.
fn put_domain_number<K: Sink>(
    page: &mut Page,
    sink: &mut K,
    number: Option<u32>,
) -> Result<(), Failed>
    ensures { PutsText K.Sink sink.old sink.new page.old page.new
        (number_words number) (is_ok result) }
{
    match number {
        None => page.put(sink, b"its own domain"),
        Some(number) => put_labelled(page, sink, b"domain ", u64::from(number)),
    }
}

/// Puts of which states a domain is.
fn put_of_states<K: Sink>(
    page: &mut Page,
    sink: &mut K,
    kind: DomainKind,
    index: u32,
) -> Result<(), Failed>
    ensures { PutsText K.Sink sink.old sink.new page.old page.new
        (shared_words (States kind) index) (is_ok result) }
{
    match kind {
        DomainKind::Perf => page.put(sink, b" of performance"),
        DomainKind::Throttle => page.put(sink, b" of throttling"),
        DomainKind::Idle => put_labelled(page, sink, b" of C state ", u64::from(index) + 1),
    }
}

/// Puts what a domain's members share.
fn put_shared<K: Sink>(page: &mut Page, sink: &mut K, of: Shared, index: u32) -> Result<(), Failed>
    ensures { PutsText K.Sink sink.old sink.new page.old page.new
        (shared_words of index) (is_ok result) }
{
    match of {
        Shared::States(kind) => put_of_states(page, sink, kind, index),
        Shared::Cpc => page.put(sink, b" of _CPC"),
    }
}

/// Puts which domain it is.
fn put_domain<K: Sink>(page: &mut Page, sink: &mut K, domain: DomainId) -> Result<(), Failed>
    ensures { PutsText K.Sink sink.old sink.new page.old page.new
        (domain_words domain) (is_ok result) }
{
    put_domain_number(page, sink, domain.number)?;
    put_shared(page, sink, domain.of, domain.index)
}

/// Puts which state it is.
fn put_state<K: Sink>(
    page: &mut Page,
    sink: &mut K,
    kind: DomainKind,
    state: usize,
) -> Result<(), Failed>
    ensures { PutsText K.Sink sink.old sink.new page.old page.new
        (state_words kind state) (is_ok result) }
{
    page.put(sink, states_name(kind))?;
    put_labelled(page, sink, b" state ", state as u64)
}

/// Puts how fast a state is.
fn put_rate<K: Sink>(
    page: &mut Page,
    sink: &mut K,
    kind: DomainKind,
    rate: u32,
) -> Result<(), Failed>
    ensures { PutsText K.Sink sink.old sink.new page.old page.new
        (pace_words kind rate) (is_ok result) }
{
    put_number(page, sink, u64::from(rate))?;
    page.put(sink, unit_name(kind))
}

/// Puts a place in an object.
fn put_inner_place<K: Sink>(page: &mut Page, sink: &mut K, at: Place) -> Result<(), Failed>
    ensures { PutsText K.Sink sink.old sink.new page.old page.new
        (place_words at) (is_ok result) }
{
    if at.outer == 0 {
        return page.put(sink, b"the object");
    }
    if at.inner == 0 {
        return put_labelled(page, sink, b"element ", u64::from(at.outer));
    }
    put_labelled(page, sink, b"element ", u64::from(at.inner))?;
    put_labelled(page, sink, b" of element ", u64::from(at.outer))
}

/// Puts the text of a word.
fn put_text<K: Sink>(page: &mut Page, sink: &mut K, word: &Word) -> Result<(), Failed>
    ensures { PutsText K.Sink sink.old sink.new page.old page.new
        (word_text word.now) (is_ok result) }
{
    match *word {
        Word::Text(text) => page.put(sink, text),
        Word::Number(number) => put_number(page, sink, u64::from(number)),
        Word::Byte(number) => put_number(page, sink, u64::from(number)),
        Word::Count(count) => put_number(page, sink, count as u64),
        Word::Long(number) => put_number(page, sink, number),
        Word::Path(path) => put_place(page, sink, path.segs.as_slice()),
        Word::Place(at) => put_inner_place(page, sink, at),
        Word::State(kind, state) => put_state(page, sink, kind, state),
        Word::Rate(kind, rate) => put_rate(page, sink, kind, rate),
        Word::Domain(domain) => put_domain(page, sink, domain),
        Word::Name(name) => page.put(sink, text_of(name)),
    }
}

/// Puts a word behind a space.
fn put_word<K: Sink>(page: &mut Page, sink: &mut K, word: &Word) -> Result<(), Failed>
    ensures { PutsText K.Sink sink.old sink.new page.old page.new
        (32 ∷ word_text word.now) (is_ok result) }
{
    page.put(sink, b" ")?;
    put_text(page, sink, word)
}

/// Puts words, each behind a space.
pub(crate) fn put_words<K: Sink>(
    page: &mut Page,
    sink: &mut K,
    words: &[Word],
) -> Result<(), Failed>
    ensures { PutsText K.Sink sink.old sink.new page.old page.new
        (flat_map (λ w. 32 ∷ word_text w) words.now) (is_ok result) }
{
    for word in words {
        put_word(page, sink, word)?;
    }
    Ok(())
}
