ghost use Rattle.std.specs.Prelude.{◌≡◌, is_ok};
ghost use Rattle.pw_text.specs.Puts.{PutsText};
ghost use Rattle.pw_findings.specs.declared.finding.OfDomain.TheVariants.{OtherType};
ghost use Rattle.pw_findings.specs.declared.finding.OfMember.TheVariants.{OtherControl, OtherLength};
ghost use Rattle.pw_findings.specs.declared.finding.OfMember.TheVariants.{OtherRange};
ghost use Rattle.pw_findings.specs.Words.{behind, declared_words, member_words};

use crate::finding::{DomainId, OfDomain, OfMember};
use crate::putting::{Word, put_words};
use crate::words::Name;
use acpi_values::Coord;
use aml_data::FullPath;
use pw_base::{Failed, Sink};
use pw_text::Page;

/// Puts that members declare two coordination types.
fn put_other_type<K: Sink>(
    page: &mut Page,
    sink: &mut K,
    id: DomainId,
    coord: Coord,
    other: &FullPath,
    there: Coord,
) -> Result<(), Failed>
    ensures { PutsText K.Sink sink.old sink.new page.old page.new
        (behind (declared_words id (OtherType coord other.now there))) (is_ok result) }
{
    let words = [
        Word::Text(b"W-DOMAIN-TYPE declares"),
        Word::Name(Name::Coord(coord)),
        Word::Text(b"for"),
        Word::Domain(id),
        Word::Text(b"and"),
        Word::Path(other),
        Word::Text(b"declares"),
        Word::Name(Name::Coord(there)),
    ];
    put_words(page, sink, &words)
}

/// Puts what is amiss with what is declared of a domain.
pub(crate) fn put_declared<K: Sink>(
    page: &mut Page,
    sink: &mut K,
    id: DomainId,
    amiss: &OfDomain,
) -> Result<(), Failed>
    ensures { PutsText K.Sink sink.old sink.new page.old page.new
        (behind (declared_words id amiss.now)) (is_ok result) }
{
    match amiss {
        OfDomain::OtherType {
            coord,
            other,
            there,
        } => put_other_type(page, sink, id, *coord, other, *there),
        OfDomain::OtherNumber {
            processors,
            other,
            there,
        } => put_words(
            page,
            sink,
            &[
                Word::Text(b"W-DOMAIN-NUMBER declares"),
                Word::Number(*processors),
                Word::Text(b"processors for"),
                Word::Domain(id),
                Word::Text(b"and"),
                Word::Path(other),
                Word::Text(b"declares"),
                Word::Number(*there),
            ],
        ),
        OfDomain::OtherSize {
            processors,
            members,
        } => put_words(
            page,
            sink,
            &[
                Word::Text(b"W-DOMAIN-SIZE declares"),
                Word::Number(*processors),
                Word::Text(b"processors for"),
                Word::Domain(id),
                Word::Text(b"which has"),
                Word::Count(*members),
            ],
        ),
    }
}

/// Puts that a state of the first member and that of another have two control values.
fn put_other_control<K: Sink>(
    page: &mut Page,
    sink: &mut K,
    id: DomainId,
    first: (usize, u32),
    other: &FullPath,
    there: u32,
) -> Result<(), Failed>
    ensures { PutsText K.Sink sink.old sink.new page.old page.new
        (behind (member_words id (OtherControl first.0 first.1 other.now there))) (is_ok result) }
{
    let (state, value) = first;
    let words = [
        Word::Text(b"U-DOMAIN-CONTROL writes"),
        Word::Number(value),
        Word::Text(b"for state"),
        Word::Count(state),
        Word::Text(b"in"),
        Word::Domain(id),
        Word::Text(b"and"),
        Word::Path(other),
        Word::Text(b"writes"),
        Word::Number(there),
    ];
    put_words(page, sink, &words)
}

/// Puts that the levels of the first member and those of another go from and to other ones.
fn put_other_range<K: Sink>(
    page: &mut Page,
    sink: &mut K,
    id: DomainId,
    first: (u64, u64),
    other: &FullPath,
    there: (u64, u64),
) -> Result<(), Failed>
    ensures { PutsText K.Sink sink.old sink.new page.old page.new
        (behind (member_words id (OtherRange first.0 first.1 other.now there.0 there.1))) (is_ok result) }
{
    let (lowest, highest) = first;
    let (from, to) = there;
    let words = [
        Word::Text(b"U-DOMAIN-RANGE goes from"),
        Word::Long(lowest),
        Word::Text(b"to"),
        Word::Long(highest),
        Word::Text(b"in"),
        Word::Domain(id),
        Word::Text(b"and"),
        Word::Path(other),
        Word::Text(b"from"),
        Word::Long(from),
        Word::Text(b"to"),
        Word::Long(to),
    ];
    put_words(page, sink, &words)
}

/// Puts that members have other numbers of states.
fn put_other_length<K: Sink>(
    page: &mut Page,
    sink: &mut K,
    id: DomainId,
    count: usize,
    other: &FullPath,
    there: usize,
) -> Result<(), Failed>
    ensures { PutsText K.Sink sink.old sink.new page.old page.new
        (behind (member_words id (OtherLength count other.now there))) (is_ok result) }
{
    let words = [
        Word::Text(b"W-DOMAIN-STATES has"),
        Word::Count(count),
        Word::Text(b"states in"),
        Word::Domain(id),
        Word::Text(b"and"),
        Word::Path(other),
        Word::Text(b"has"),
        Word::Count(there),
    ];
    put_words(page, sink, &words)
}

/// Puts how a domain's members differ.
pub(crate) fn put_member<K: Sink>(
    page: &mut Page,
    sink: &mut K,
    id: DomainId,
    amiss: &OfMember,
) -> Result<(), Failed>
    ensures { PutsText K.Sink sink.old sink.new page.old page.new
        (behind (member_words id amiss.now)) (is_ok result) }
{
    match amiss {
        OfMember::OtherLength {
            count,
            other,
            there,
        } => put_other_length(page, sink, id, *count, other, *there),
        OfMember::NoRegister { other } => put_words(
            page,
            sink,
            &[
                Word::Text(b"W-DOMAIN-REGISTER is in"),
                Word::Domain(id),
                Word::Text(b"without a control register at"),
                Word::Path(other),
            ],
        ),
        OfMember::OtherRegister { other } => put_words(
            page,
            sink,
            &[
                Word::Text(b"U-DOMAIN-APART is in"),
                Word::Domain(id),
                Word::Text(b"with another control register than"),
                Word::Path(other),
            ],
        ),
        OfMember::OtherControl {
            state,
            value,
            other,
            there,
        } => put_other_control(page, sink, id, (*state, *value), other, *there),
        OfMember::OtherRange {
            lowest,
            highest,
            other,
            from,
            to,
        } => put_other_range(page, sink, id, (*lowest, *highest), other, (*from, *to)),
    }
}
