ghost use Rattle.std.specs.Prelude.{◌≡◌};
ghost use Rattle.pw_findings.specs.Words.{bounded_words, control_word, coord_word, domain_word, limit_word};
ghost use Rattle.pw_findings.specs.Words.{level_words, states_word, unit_word, unread_words, unused_words};
ghost use Rattle.pw_findings.specs.Words.{name_text, why_words};

use crate::finding::{Unread, Unused};
use acpi_values::{Coord, Why};
use pw_plan::DomainKind;

/// What states are of.
pub(crate) fn states_name(kind: DomainKind) -> &'static [u8]
    ensures { result.now ≡ states_word kind }
{
    match kind {
        DomainKind::Perf => b"performance",
        DomainKind::Throttle => b"throttling",
        DomainKind::Idle => b"idle",
    }
}

/// What their rates are in, behind a space.
pub(crate) fn unit_name(kind: DomainKind) -> &'static [u8]
    ensures { result.now ≡ unit_word kind }
{
    match kind {
        DomainKind::Perf => b" MHz",
        DomainKind::Throttle => b" percent",
        DomainKind::Idle => b" us",
    }
}

/// The object of their control registers.
fn control_name(kind: DomainKind) -> &'static [u8]
    ensures { result.now ≡ control_word kind }
{
    match kind {
        DomainKind::Perf => b"_PCT",
        DomainKind::Throttle => b"_PTC",
        DomainKind::Idle => b"_CST",
    }
}

/// The object of their limit at the start.
fn limit_name(kind: DomainKind) -> &'static [u8]
    ensures { result.now ≡ limit_word kind }
{
    match kind {
        DomainKind::Perf => b"_PPC",
        DomainKind::Throttle => b"_TPC",
        DomainKind::Idle => b"_CST",
    }
}

/// The object that declares their domain.
fn domain_name(kind: DomainKind) -> &'static [u8]
    ensures { result.now ≡ domain_word kind }
{
    match kind {
        DomainKind::Perf => b"_PSD",
        DomainKind::Throttle => b"_TSD",
        DomainKind::Idle => b"_CSD",
    }
}

/// A coordination type.
fn coord_name(coord: Coord) -> &'static [u8]
    ensures { result.now ≡ coord_word coord }
{
    match coord {
        Coord::SwAll => b"SW_ALL",
        Coord::SwAny => b"SW_ANY",
        Coord::HwAll => b"HW_ALL",
    }
}

/// Why an object means nothing.
fn why_name(why: Why) -> &'static [u8]
    ensures { result.now ≡ why_words why }
{
    match why {
        Why::Kind => b"is of the wrong kind",
        Why::Count => b"has a wrong count",
        Why::Revision => b"is no known revision",
        Why::Range => b"is out of range",
        Why::Register => b"is no register",
    }
}

/// What the limit of this number bounds, and at how many.
fn bounded_name(which: u8) -> &'static [u8]
    ensures { result.now ≡ bounded_words which }
{
    match which {
        1 => b"containers where this program takes 256",
        2 => b"processors where this program takes 256",
        3 => b"containers inside one another where this program takes 8",
        4 => b"children of a container where this program takes 255",
        _ => b"states in a table where this program takes 255",
    }
}

/// A level of performance, by its place in `_CPC` behind the first two elements.
fn level_name(place: usize) -> &'static [u8]
    ensures { result.now ≡ level_words place }
{
    match place {
        0 => b"highest performance",
        1 => b"nominal performance",
        2 => b"lowest nonlinear performance",
        _ => b"lowest performance",
    }
}

/// A term that isn't read, with its code.
fn unread_name(term: Unread) -> &'static [u8]
    ensures { result.now ≡ unread_words term }
{
    match term {
        Unread::If => b"U-CODE has an If, which isn't run: what is in it counts as absent",
        Unread::Else => b"U-CODE has an Else, which isn't run: what is in it counts as absent",
        Unread::While => b"U-CODE has a While, which isn't run: what is in it counts as absent",
        Unread::PowerResource => {
            b"U-UNREAD has a power resource, which isn't read: what is in it counts as absent"
        }
        Unread::ThermalZone => {
            b"U-UNREAD has a thermal zone, which isn't read: what is in it counts as absent"
        }
    }
}

/// The code of why an object isn't used, and what it says.
fn unused_name(why: Unused) -> &'static [u8]
    ensures { result.now ≡ unused_words why }
{
    match why {
        Unused::Method => b"U-METHOD is a method, which isn't run: it counts as absent",
        Unused::Alias => b"U-ALIAS is an alias, which isn't followed: it counts as absent",
        Unused::Empty => b"U-EMPTY has no states: it counts as absent",
        Unused::BesideLpi => b"U-CST-UNUSED stands beside an _LPI: it isn't used",
        Unused::NoSuchState => {
            b"W-CSD-STATE has an entry about a C state that isn't there: it is dropped"
        }
        Unused::NoStates(kind) => match kind {
            DomainKind::Perf => b"U-STATES-NONE stands without a _PSS: it isn't used",
            DomainKind::Throttle => b"U-STATES-NONE stands without a _TSS: it isn't used",
            DomainKind::Idle => b"U-STATES-NONE stands without a _CST: it isn't used",
        },
        Unused::Skipped(term) => unread_name(term),
    }
}

/// A word that is one of a few texts.
#[derive(Clone, Copy)]
pub(crate) enum Name {
    /// What states are of.
    States(DomainKind),
    /// The name of their control registers.
    Control(DomainKind),
    /// The name of their limit at the start.
    Limit(DomainKind),
    /// The name by which their domains are declared.
    Domains(DomainKind),
    Coord(Coord),
    Why(Why),
    /// What the limit of this number bounds, and at how many.
    Bounded(u8),
    /// A level of performance, by its place in `_CPC`.
    Level(usize),
    /// Why an object isn't used, with its code.
    Unused(Unused),
}

/// Its text.
pub(crate) fn text_of(name: Name) -> &'static [u8]
    ensures { result.now ≡ name_text name }
{
    match name {
        Name::States(kind) => states_name(kind),
        Name::Control(kind) => control_name(kind),
        Name::Limit(kind) => limit_name(kind),
        Name::Domains(kind) => domain_name(kind),
        Name::Coord(coord) => coord_name(coord),
        Name::Why(why) => why_name(why),
        Name::Bounded(which) => bounded_name(which),
        Name::Level(place) => level_name(place),
        Name::Unused(why) => unused_name(why),
    }
}
