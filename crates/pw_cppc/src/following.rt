//! Where processors stand, as the replies to their requests tell it.
ghost use Rattle.std.specs.Prelude.{◌≡◌, ◌<◌, length, map, All, IfOk};
ghost use Rattle.std.specs.List.{range_with_len};
ghost use Rattle.pw_cppc.specs.inner.Stood.{standing_with, stood_by, written};

use crate::numbers::CppcNumbers;
use crate::opening::opened;
use crate::plan::CppcDomain;
use crate::reply::CppcReply;
use crate::setting::{set_bound, set_changed};
use crate::standings::{number, standing};
use crate::{CppcPlan, CppcRequest};
use acpi_values::Coord;
use pw_base::{List, Memory};
use pw_regs::Ops;
use std::alloc::Global;
use std::marker::Model;

/// Where a processor stands, 0 where it has no domain.
fn stood_by(plan: &CppcPlan, numbers: &CppcNumbers, cpu: u32) -> u64
    ensures { result ≡ stood_by plan.now numbers.now cpu }
{
    match plan.domain_of(cpu) {
        None => 0,
        Some(place) => standing(plan, numbers, place, cpu),
    }
}

/// Where each processor stands.
fn stood_by_all(alloc: Global, plan: &CppcPlan, numbers: &CppcNumbers) -> Result<List<u64>, Memory>
    ensures { IfOk result (λ stood.
        stood ≡ map (stood_by plan.now numbers.now) (range_with_len 0 (length plan.now.cpus))) }
{
    let count = plan.cpus.as_slice().len();
    let mut stood = Vec::new(alloc);
    for cpu in 0..count {
        stood.push(stood_by(plan, numbers, cpu as u32))?;
    }
    Ok(List::from_vec(stood))
}

/// Writes a performance at each of these places.
fn write_each(stood: &mut List<u64>, places: &[u32], value: u64)
    requires { All (λ p. p < length stood.old) places.now }
    ensures { stood.new ≡ written stood.old places.now value }
{
    for place in places {
        stood.set(*place as usize, value);
    }
}

/// Notes where a processor of a domain stands, and all that stand with it.
fn note(stood: &mut List<u64>, domain: &CppcDomain, cpu: u32, value: u64)
    requires cpu { cpu < length stood.old }
    requires members { All (λ p. p < length stood.old) domain.now.members }
    ensures { stood.new ≡ written stood.old (standing_with domain.now cpu) value }
{
    match domain.coord {
        Coord::SwAll => write_each(stood, domain.members.as_slice(), value),
        Coord::SwAny => write_each(stood, domain.members.as_slice(), value),
        Coord::HwAll => stood.set(cpu as usize, value),
    }
}

/// Where processors stand, as it is noted of each: who has the replies to requests finds their operations
/// by it, and asks nothing again. Contracts see the list of performances.
#[derive(Drop)]
pub struct CppcStandings {
    stood: List<u64>,
}

impl Model for CppcStandings {
    ghost use Rattle.std.specs.Prelude.{ℕ, List as list};

    ghost Value = { list ℕ };

    ghost view = { λ s. s.stood };
}

impl CppcStandings {
    ghost use Rattle.std.specs.Prelude.{◌≡◌, ◌++◌, length, IfOk};
    ghost use Rattle.pw_regs.specs.Rooms.{HasRoom};
    ghost use Rattle.pw_cppc.specs.declared.numbers.CppcNumbers.{CppcNumbers as numbers};
    ghost use Rattle.pw_cppc.specs.Requests.{Has, ops_bound};
    ghost use Rattle.pw_cppc.specs.States.{opening};
    ghost use Rattle.pw_cppc.specs.Answers.{after, answer};
    ghost use Rattle.pw_cppc.specs.Operations.{ops_of};
    ghost use Rattle.pw_cppc.specs.Standings.{AreStandings};

    /// At the start.
    pub fn open(alloc: Global, plan: &CppcPlan) -> Result<CppcStandings, Memory>
        ensures { IfOk result (λ stood. AreStandings plan.now (opening plan.now) stood) }
    {
        let numbers = opened(alloc, plan)?;
        Ok(CppcStandings {
            stood: stood_by_all(alloc, plan, &numbers)?,
        })
    }

    /// Appends the operations of a request that has this reply.
    pub fn operations(&self, plan: &CppcPlan, request: CppcRequest, reply: CppcReply, ops: &mut Ops)
        requires request { Has plan.now request }
        requires size { length self.now ≡ length plan.now.cpus }
        requires room { HasRoom ops.old (ops_bound plan.now request) }
        ensures list { (S : numbers) → AreStandings plan.now S self.now
            → answer plan.now S request ≡ reply
            → ops.new.elements ≡ ops.old.elements ++ ops_of plan.now S request }
        ensures room { ops.new.capacity ≡ ops.old.capacity }
    {
        let CppcReply::Stands { value } = reply else {
            return;
        };
        set_bound(plan, request, ops);
        let cpu = request.cpu();
        if let Some(place) = plan.domain_of(cpu) {
            let before = number(self.stood.as_slice(), cpu);
            set_changed(plan, place, cpu, before, value, ops);
        }
    }

    /// Notes where the processor of a request stands that has this reply.
    pub fn follow(&mut self, plan: &CppcPlan, request: CppcRequest, reply: CppcReply)
        requires request { Has plan.now request }
        requires size { length self.old ≡ length plan.now.cpus }
        ensures after { (S : numbers) → AreStandings plan.now S self.old
            → answer plan.now S request ≡ reply
            → AreStandings plan.now (after plan.now S request) self.new }
        ensures size { length self.new ≡ length self.old }
    {
        let CppcReply::Stands { value } = reply else {
            return;
        };
        let cpu = request.cpu();
        if number(self.stood.as_slice(), cpu) == value {
            return;
        }
        if let Some(place) = plan.domain_of(cpu) {
            note(&mut self.stood, plan.domain(place), cpu, value);
        }
    }
}
