ghost use Rattle.std.specs.Prelude.{◌≡◌, ◌<◌, ◌≤◌, ◌+◌, length, sum_by, All};
ghost use Rattle.pw_plan.specs.Requests.{set_count};
ghost use Rattle.pw_cppc.specs.declared.parts.Control.TheVariants as controls;
ghost use Rattle.pw_cppc.specs.Parts.{parts_in};
ghost use Rattle.pw_cppc.specs.Requests.{opened_by, register_count};

use crate::parts::{Control, CppcParts};
use acpi_values::Coord;

/// On how many members a new performance of a domain is set.
pub fn set_count(coord: Coord, members: u32) -> u32
    ensures { result ≡ set_count coord members }
{
    match coord {
        Coord::SwAll => members,
        Coord::SwAny => 1,
        Coord::HwAll => 1,
    }
}

/// On how many members the performance is set at the start.
pub fn opened_by(coord: Coord, members: &[u32]) -> u32
    requires { length members.now ≤ 256 }
    ensures value { result ≡ opened_by coord members.now }
    ensures small { result ≤ 256 }
{
    let count = members.len() as u32;
    match coord {
        Coord::SwAll => count,
        Coord::SwAny => count.min(1),
        Coord::HwAll => count,
    }
}

/// 1 where the processor has the register.
pub fn register_count(control: Control, parts: &CppcParts) -> u32
    ensures { result ≡ register_count control parts.now }
{
    if parts.register(control).is_some() {
        1
    } else {
        0
    }
}

/// How many bounds are set at the start on a processor.
pub fn bound_count(parts: &CppcParts) -> u32
    ensures value { result ≡ register_count controls.Minimum parts.now
        + register_count controls.Maximum parts.now }
    ensures small { result ≤ 2 }
{
    register_count(Control::Minimum, parts) + register_count(Control::Maximum, parts)
}

/// How many bounds are set at the start on these members.
pub fn bounds_of(cpus: &[CppcParts], members: &[u32]) -> u32
    requires few { length members.now ≤ 256 }
    requires members { All (λ p. p < length cpus.now) members.now }
    ensures value { result ≡ sum_by (λ p. register_count controls.Minimum (parts_in cpus.now p)
        + register_count controls.Maximum (parts_in cpus.now p)) members.now }
    ensures small { result ≤ 512 }
{
    let mut count = 0;
    for member in members {
        count += bound_count(&cpus[*member as usize]);
    }
    count
}
