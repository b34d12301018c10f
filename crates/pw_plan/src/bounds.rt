ghost use Rattle.std.specs.Prelude.{◌≡◌, ◌<◌, ◌≤◌, ◌^◌, length};
ghost use Rattle.pw_plan.specs.Covering.{covers};
ghost use Rattle.pw_plan.specs.Opening.{opening_by};
ghost use Rattle.pw_plan.specs.Covering.{same_kind};
ghost use Rattle.pw_plan.specs.Opening.{opening_count};
ghost use Rattle.pw_plan.specs.Requests.{set_count};

use crate::domain::{Domain, DomainKind};
use crate::groups::{has_member, is_idle};
use acpi_values::Coord;

fn same_kind(one: DomainKind, other: DomainKind) -> bool
    ensures { result ≡ same_kind one other }
{
    match one {
        DomainKind::Perf => matches!(other, DomainKind::Perf),
        DomainKind::Throttle => matches!(other, DomainKind::Throttle),
        DomainKind::Idle => matches!(other, DomainKind::Idle),
    }
}

/// Whether the domain is of this kind and has the processor.
pub fn covers(kind: DomainKind, cpu: u32, domain: &Domain) -> bool
    ensures { result ≡ covers kind cpu domain.now }
{
    same_kind(domain.kind, kind) && has_member(domain.members.as_slice(), cpu)
}

/// On how many members a new state of a domain is set.
pub fn set_count(coord: Coord, members: u32) -> u32
    ensures { result ≡ set_count coord members }
{
    match coord {
        Coord::SwAll => members,
        Coord::SwAny => 1,
        Coord::HwAll => 1,
    }
}

/// On how many members a domain's state is set at the start.
pub fn opening_count(domain: &Domain) -> u32
    requires { length domain.now.members ≤ 256 }
    ensures { result ≡ opening_count domain.now }
{
    if is_idle(domain.kind) || domain.unfit > 0 {
        return 0;
    }
    let members = domain.members.as_slice().len() as u32;
    match domain.coord {
        Coord::SwAll => members,
        Coord::SwAny => members.min(1),
        Coord::HwAll => members,
    }
}
