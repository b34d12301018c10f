ghost use Rattle.std.specs.Prelude.{◌≡◌};
ghost use Rattle.pw_check.specs.CheckText.{coord_word, kind_word, table_word};
ghost use Rattle.pw_check.specs.Refusals.{limit_word, why_word};

use acpi_values::{Coord, IdleKind, Why};
use pw_plan::DomainKind;

/// Which object idle states stand in.
pub fn table_name(kind: IdleKind) -> &'static [u8]
    ensures { result.now ≡ table_word kind }
{
    match kind {
        IdleKind::Lpi => b"lpi",
        IdleKind::Cst => b"cst",
        IdleKind::Absent => b"none",
    }
}

/// What the members of a domain share.
pub fn kind_name(kind: DomainKind) -> &'static [u8]
    ensures { result.now ≡ kind_word kind }
{
    match kind {
        DomainKind::Perf => b"perf",
        DomainKind::Throttle => b"throttle",
        DomainKind::Idle => b"idle",
    }
}

/// A coordination type.
pub fn coord_name(coord: Coord) -> &'static [u8]
    ensures { result.now ≡ coord_word coord }
{
    match coord {
        Coord::SwAll => b"SW_ALL",
        Coord::SwAny => b"SW_ANY",
        Coord::HwAll => b"HW_ALL",
    }
}

/// Why an object means nothing.
pub fn why_name(why: Why) -> &'static [u8]
    ensures { result.now ≡ why_word why }
{
    match why {
        Why::Kind => b"kind",
        Why::Count => b"count",
        Why::Revision => b"revision",
        Why::Range => b"range",
        Why::Register => b"register",
    }
}

/// What the limit of this number bounds.
pub fn limit_name(which: u8) -> &'static [u8]
    ensures { result.now ≡ limit_word which }
{
    match which {
        1 => b"containers",
        2 => b"processors",
        3 => b"depth",
        4 => b"children",
        _ => b"states",
    }
}
