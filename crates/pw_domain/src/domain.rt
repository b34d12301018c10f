ghost use Rattle.std.specs.Prelude.{◌≡◌, ◌<◌, ◌≤◌, ◌+◌, ◌++◌, false, length, map, slice_index_or, All, IfOk};
ghost use Rattle.pw_plan.specs.declared.plan.Plan.{Plan};
ghost use Rattle.pw_plan.specs.Groups.{is_idle};
ghost use Rattle.pw_plan.specs.Parts.{scale_of};
ghost use Rattle.pw_plan.specs.Places.{cpu_at, domain_at};
ghost use Rattle.pw_plan.specs.Requests.{set_count};
ghost use Rattle.pw_regs.specs.Rooms.{HasRoom};
ghost use Rattle.pw_model.specs.States.{IsIndex, opening_limit};
ghost use Rattle.pw_model.specs.Domains.{stands_at};
ghost use Rattle.pw_model.specs.Calls.{level_ops, level_standing, opening_part};
ghost use Rattle.pw_model.specs.Calls.{own_ask, own_limit};
ghost use Rattle.pw_model.specs.Effects.{standing_by, with_ask, with_limit};
ghost use Rattle.pw_model.specs.Holding.{member_in};
ghost use Rattle.pw_model.specs.Records.{domain as scaled};
ghost use Rattle.pw_domain.specs.Domains.{IsDomainOf, domain_part};

use crate::setting::set_at;
use acpi_values::Coord;
use pw_base::{List, Memory};
use pw_core::opening_limit;
use pw_plan::{DomainKind, Plan};
use pw_regs::Ops;
use std::alloc::Global;

/// Where members with these asks and limits stand together.
fn stands_at(asks: &[u8], limits: &[u8]) -> u8
    ensures { result ≡ stands_at asks.now limits.now }
{
    let mut ask = u8::MAX;
    for own in asks {
        ask = (*own).min(ask);
    }
    let mut limit = 0;
    for own in limits {
        limit = (*own).max(limit);
    }
    limit.max(ask)
}

/// Where a domain with these asks and limits stands, or where hardware coordinates it this member.
fn standing_by(coord: Coord, asks: &[u8], limits: &[u8], member: u32) -> u8
    requires asked { member < length asks.now }
    requires limited { member < length limits.now }
    ensures { result ≡ standing_by coord asks.now limits.now member }
{
    match coord {
        Coord::SwAll => stands_at(asks, limits),
        Coord::SwAny => stands_at(asks, limits),
        Coord::HwAll => limits[member as usize].max(asks[member as usize]),
    }
}

/// The limits that these processors open with.
fn opening_limits(
    alloc: Global,
    plan: &Plan,
    kind: DomainKind,
    members: &[u32],
) -> Result<List<u8>, Memory>
    requires { All (λ p. p < length plan.now.cpus) members.now }
    ensures { IfOk result
        (λ limits. limits ≡ map (λ p. opening_limit (scale_of kind (cpu_at plan.now p))) members.now) }
{
    let mut limits = Vec::new(alloc);
    for member in members {
        limits.push(opening_limit(plan, kind, *member))?;
    }
    Ok(List::from_vec(limits))
}

/// What the members of a domain of performance or throttling ask for, and their limits.
#[derive(Drop)]
pub struct DomainRec {
    domain: u32,
    coord: Coord,
    asks: List<u8>,
    limits: List<u8>,
}

impl DomainRec {
    /// The record at the start: everyone asks for the fastest state that the limit allows.
    pub fn open(alloc: Global, plan: &Plan, domain: u32) -> Result<DomainRec, Memory>
        requires exists { domain < length plan.now.domains }
        requires scaled { is_idle (domain_at plan.now domain).kind ≡ false }
        ensures of { IfOk result (λ r. IsDomainOf plan.now r) }
        ensures domain { IfOk result (λ r. r.domain ≡ domain) }
        ensures part { IfOk result (λ r. domain_part r ≡ opening_part plan.now (scaled domain)) }
    {
        let shared = plan.domain(domain as usize);
        let members = shared.members.as_slice();
        let asks = opening_limits(alloc, plan, shared.kind, members)?;
        let limits = opening_limits(alloc, plan, shared.kind, members)?;
        Ok(DomainRec {
            domain,
            coord: shared.coord,
            asks,
            limits,
        })
    }

    /// Where the domain stands, or where hardware coordinates it this member.
    pub fn standing(&self, member: u32) -> u8
        requires asked { member < length self.now.asks }
        requires limited { member < length self.now.limits }
        ensures { (P : Plan) → IsDomainOf P self.now
            → result ≡ level_standing P self.now.domain (domain_part self.now) member }
    {
        standing_by(
            self.coord,
            self.asks.as_slice(),
            self.limits.as_slice(),
            member,
        )
    }

    /// The member's own limit.
    pub fn own_limit(&self, member: u32) -> u8
        requires { member < length self.now.limits }
        ensures { result ≡ own_limit (domain_part self.now) member }
    {
        self.limits.as_slice()[member as usize]
    }

    /// What the member asks for.
    pub fn own_ask(&self, member: u32) -> u8
        requires { member < length self.now.asks }
        ensures { result ≡ own_ask (domain_part self.now) member }
    {
        self.asks.as_slice()[member as usize]
    }

    /// Sets what a member asks for, and answers where the domain then stands.
    pub fn ask(&mut self, _plan: &Plan, member: u32, index: u8) -> u8
        requires of { IsDomainOf _plan.now self.old }
        requires place { member < length (domain_at _plan.now self.old.domain).members }
        requires index { IsIndex (scale_of (domain_at _plan.now self.old.domain).kind
            (cpu_at _plan.now (member_in (domain_at _plan.now self.old.domain).members member))) index }
        ensures of { IsDomainOf _plan.now self.new }
        ensures domain { self.new.domain ≡ self.old.domain }
        ensures part { domain_part self.new ≡ with_ask member index (domain_part self.old) }
        ensures standing { result ≡ level_standing _plan.now self.new.domain (domain_part self.new) member }
    {
        self.asks.set(member as usize, index);
        standing_by(
            self.coord,
            self.asks.as_slice(),
            self.limits.as_slice(),
            member,
        )
    }

    /// Sets a member's limit, and answers where the domain then stands.
    pub fn limit(&mut self, _plan: &Plan, member: u32, limit: u8) -> u8
        requires of { IsDomainOf _plan.now self.old }
        requires place { member < length (domain_at _plan.now self.old.domain).members }
        requires limit { IsIndex (scale_of (domain_at _plan.now self.old.domain).kind
            (cpu_at _plan.now (member_in (domain_at _plan.now self.old.domain).members member))) limit }
        ensures of { IsDomainOf _plan.now self.new }
        ensures domain { self.new.domain ≡ self.old.domain }
        ensures part { domain_part self.new ≡ with_limit member limit (domain_part self.old) }
        ensures standing { result ≡ level_standing _plan.now self.new.domain (domain_part self.new) member }
    {
        self.limits.set(member as usize, limit);
        standing_by(
            self.coord,
            self.asks.as_slice(),
            self.limits.as_slice(),
            member,
        )
    }

    /// `ask`, and the operations of the accepted request.
    pub fn ask_ops(&mut self, plan: &Plan, member: u32, index: u8, ops: &mut Ops) -> u8
        requires of { IsDomainOf plan.now self.old }
        requires place { member < length (domain_at plan.now self.old.domain).members }
        requires index { IsIndex (scale_of (domain_at plan.now self.old.domain).kind
            (cpu_at plan.now (member_in (domain_at plan.now self.old.domain).members member))) index }
        requires room { HasRoom ops.old
            (set_count (domain_at plan.now self.old.domain).coord
            (length (domain_at plan.now self.old.domain).members)) }
        ensures of { IsDomainOf plan.now self.new }
        ensures domain { self.new.domain ≡ self.old.domain }
        ensures part { domain_part self.new ≡ with_ask member index (domain_part self.old) }
        ensures standing { result ≡ level_standing plan.now self.new.domain (domain_part self.new) member }
        ensures list { ops.new ≡ record ops.old {
          elements = ops.old.elements ++ level_ops plan.now self.old.domain member (domain_part self.old)
              (domain_part self.new);
        } }
    {
        let before = standing_by(
            self.coord,
            self.asks.as_slice(),
            self.limits.as_slice(),
            member,
        );
        let after = self.ask(plan, member, index);
        if before != after {
            set_at(plan, self.domain, member, after, ops);
        }
        after
    }

    /// `limit`, and the operations of the accepted request.
    pub fn limit_ops(&mut self, plan: &Plan, member: u32, limit: u8, ops: &mut Ops) -> u8
        requires of { IsDomainOf plan.now self.old }
        requires place { member < length (domain_at plan.now self.old.domain).members }
        requires limit { IsIndex (scale_of (domain_at plan.now self.old.domain).kind
            (cpu_at plan.now (member_in (domain_at plan.now self.old.domain).members member))) limit }
        requires room { HasRoom ops.old
            (set_count (domain_at plan.now self.old.domain).coord
            (length (domain_at plan.now self.old.domain).members)) }
        ensures of { IsDomainOf plan.now self.new }
        ensures domain { self.new.domain ≡ self.old.domain }
        ensures part { domain_part self.new ≡ with_limit member limit (domain_part self.old) }
        ensures standing { result ≡ level_standing plan.now self.new.domain (domain_part self.new) member }
        ensures list { ops.new ≡ record ops.old {
          elements = ops.old.elements ++ level_ops plan.now self.old.domain member (domain_part self.old)
              (domain_part self.new);
        } }
    {
        let before = standing_by(
            self.coord,
            self.asks.as_slice(),
            self.limits.as_slice(),
            member,
        );
        let after = self.limit(plan, member, limit);
        if before != after {
            set_at(plan, self.domain, member, after, ops);
        }
        after
    }
}
