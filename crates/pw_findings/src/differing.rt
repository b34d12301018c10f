//! The first member of a domain that differs from the first one, in any of these ways.

ghost use Rattle.std.specs.Prelude.{◌≡◌, find, option_copied, unwrap_or};
ghost use Rattle.pw_findings.specs.inner.Differing.{differs};
ghost use Rattle.pw_findings.specs.Domains.{lead, member_where};

use crate::domains::{has_other_length, has_other_number, has_other_type, lacks_register, lead};
use crate::members::{has_other_control, has_other_register};
use pw_plan::{CpuParts, Domain};

/// How a member may differ.
#[derive(Clone, Copy)]
pub(crate) enum Differing {
    /// It declares another coordination type.
    Type,
    /// It declares another number of processors.
    Number,
    /// It has another number of states.
    Length,
    /// It has no control register.
    NoRegister,
    /// It has another control register.
    Register,
    /// It has another control value for some state.
    Control,
}

/// Whether a member differs so.
fn differs(how: Differing, cpus: &[CpuParts], domain: &Domain, cpu: u32) -> bool
    ensures { result ≡ differs how cpus.now domain.now cpu }
{
    match how {
        Differing::Type => has_other_type(cpus, domain, cpu),
        Differing::Number => has_other_number(cpus, domain, cpu),
        Differing::Length => has_other_length(cpus, domain, cpu),
        Differing::NoRegister => lacks_register(cpus, domain, cpu),
        Differing::Register => has_other_register(cpus, domain, cpu),
        Differing::Control => has_other_control(cpus, domain, cpu),
    }
}

/// The first member that does.
pub(crate) fn first_member<'a>(
    how: Differing,
    cpus: &[CpuParts],
    domain: &Domain,
    members: &'a [u32],
) -> Option<&'a u32>
    ensures { option_copied result ≡ find (differs how cpus.now domain.now) members.now }
{
    members
        .iter()
        .find(|member| differs(how, cpus, domain, **member))
}

/// The member that was found, or the first.
fn or_lead(domain: &Domain, found: Option<&u32>) -> u32
    ensures { result ≡ unwrap_or (option_copied found.entry) (lead domain.now) }
{
    match found {
        None => lead(domain),
        Some(member) => *member,
    }
}

/// The first member that differs so, or the first where none does.
pub(crate) fn member_where(how: Differing, cpus: &[CpuParts], domain: &Domain) -> u32
    ensures { result ≡ member_where (differs how cpus.now domain.now) domain.now }
{
    let members = domain.members.as_slice();
    or_lead(domain, first_member(how, cpus, domain, members))
}
