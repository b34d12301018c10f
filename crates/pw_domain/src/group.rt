ghost use Rattle.std.specs.Prelude.{◌≡◌, ◌<◌, ◌≤◌, ◌+◌, ◌++◌, ◌==◌, ◌&&◌, not, true, nat_le, length, map, filter, slice_index_or, slice_set, All, IfOk};
ghost use Rattle.std.specs.List.{list_any};
ghost use Rattle.acpi_values.specs.Idle.{rows_of};
ghost use Rattle.pw_plan.specs.declared.domain.DomainKind.TheVariants.{Idle};
ghost use Rattle.pw_plan.specs.Covering.{covers};
ghost use Rattle.pw_plan.specs.Places.{cpu_at, group_at};
ghost use Rattle.pw_model.specs.Operations.{own_entry};
ghost use Rattle.pw_model.specs.Domains.{governs, is_sw_all};
ghost use Rattle.pw_model.specs.Calls.{group_c_state, group_ops, opening_part, own_vote};
ghost use Rattle.pw_model.specs.Calls.{with_state};
ghost use Rattle.pw_model.specs.Effects.{c_state_by, drawn_by, drawn_ops, enter_c, enters_by};
ghost use Rattle.pw_model.specs.Effects.{gathered_by, member_place, state_by};
ghost use Rattle.pw_model.specs.Holding.{HoldsStates, member_in};
ghost use Rattle.pw_model.specs.Records.{group as joined};
ghost use Rattle.pw_regs.specs.Rooms.{HasRoom};
ghost use Rattle.pw_domain.specs.Groups.{IsGroupOf, group_part};
ghost use Rattle.pw_domain.specs.inner.Brought.{brought_by};

use crate::setting::enter_c;
use acpi_values::{Coord, IdleKind, Op};
use pw_base::{List, Memory};
use pw_plan::{Domain, Plan};
use pw_regs::Ops;
use std::alloc::Global;

/// The place of a processor among these, or how many there are.
fn place_of(members: &[u32], cpu: u32) -> usize
    ensures { result ≡ member_place members.now cpu }
{
    for (place, member) in members.iter().enumerate() {
        if *member == cpu {
            return place;
        }
    }
    members.len()
}

/// The state of a member's vote, where the one at this place votes so.
fn state_in(members: &[u32], states: &[u8], place: usize, own: u8, cpu: u32) -> u8
    requires { place < length states.now }
    ensures { result ≡ state_by members.now (slice_set states.now place own) cpu }
{
    let at = place_of(members, cpu);
    if at == place {
        own
    } else if at < states.len() {
        states[at]
    } else {
        0
    }
}

/// Whether a member votes for a state deeper than this, where the one at this place votes so.
fn passes(members: &[u32], states: &[u8], place: usize, own: u8, cpu: u32, index: u32) -> bool
    requires { place < length states.now }
    ensures { result ≡ nat_le (index + 1) (state_by members.now (slice_set states.now place own) cpu) }
{
    index < u32::from(state_in(members, states, place, own, cpu))
}

/// Whether each member of the domain votes for its state or a deeper one.
fn is_gathered(domain: &Domain, members: &[u32], states: &[u8], place: usize, own: u8) -> bool
    requires { place < length states.now }
    ensures { result ≡ gathered_by members.now (slice_set states.now place own) domain.now }
{
    for member in domain.members.as_slice() {
        if !passes(members, states, place, own, *member, domain.index) {
            return false;
        }
    }
    true
}

/// Whether software coordinates the idle domain of this processor, and it is about this C state.
fn governs(_cpu: u32, level: u8, domain: &Domain) -> bool
    requires { covers Idle _cpu domain.now ≡ true }
    ensures { result ≡ governs _cpu level domain.now }
{
    u64::from(domain.index) + 1 == u64::from(level) && !matches!(domain.coord, Coord::HwAll)
}

/// Whether each domain that governs this C state of the processor is gathered.
fn may_enter(
    plan: &Plan,
    members: &[u32],
    states: &[u8],
    place: usize,
    own: u8,
    cpu: u32,
    level: u8,
) -> bool
    requires { place < length states.now }
    ensures { result ≡ enters_by plan.now members.now (slice_set states.now place own) cpu level }
{
    for membership in plan.idle_domains_of(cpu) {
        let domain = plan.domain(membership.place);
        if governs(cpu, level, domain) && !is_gathered(domain, members, states, place, own) {
            return false;
        }
    }
    true
}

/// The C state of a member, where the one at this place votes so.
fn c_state_in(plan: &Plan, members: &[u32], states: &[u8], place: usize, own: u8, cpu: u32) -> u8
    requires { place < length states.now }
    ensures { result ≡ c_state_by plan.now members.now (slice_set states.now place own) cpu }
{
    let mut level = state_in(members, states, place, own, cpu);
    while level > 0 {
        if may_enter(plan, members, states, place, own, cpu, level) {
            return level;
        }
        level -= 1;
    }
    0
}

/// Whether a SW_ALL domain of the processor is about this C state.
fn is_set_on_all(plan: &Plan, cpu: u32, level: u8) -> bool
    ensures { result ≡ list_any (λ d. governs cpu level d && is_sw_all d.coord) plan.now.domains }
{
    for membership in plan.idle_domains_of(cpu) {
        let domain = plan.domain(membership.place);
        if governs(cpu, level, domain) && matches!(domain.coord, Coord::SwAll) {
            return true;
        }
    }
    false
}

/// Whether the vote at this place raises the C state of another processor to one that a SW_ALL domain of
/// it is about.
fn joins(
    plan: &Plan,
    members: &[u32],
    states: &[u8],
    place: usize,
    own: u8,
    cpu: u32,
    other: u32,
) -> bool
    requires { place < length states.now }
    ensures { result
        ≡ (not (other == cpu) && drawn_by plan.now members.now states.now (slice_set states.now place own)
        other) }
{
    if other == cpu {
        return false;
    }
    // The C state before costs most and is looked for last.
    let after = c_state_in(plan, members, states, place, own, other);
    after > 0
        && is_set_on_all(plan, other, after)
        && c_state_in(plan, members, states, place, states[place], other) < after
}

/// Whether software coordinates the idle domain of this processor, and the vote at this place, the
/// processor's own, can bring it to be gathered.
fn is_brought(
    domain: &Domain,
    members: &[u32],
    states: &[u8],
    place: usize,
    own: u8,
    _cpu: u32,
) -> bool
    requires cover { covers Idle _cpu domain.now ≡ true }
    requires place { place < length states.now }
    ensures { result ≡ brought_by members.now states.now place own _cpu domain.now }
{
    !matches!(domain.coord, Coord::HwAll)
        && u32::from(states[place]) <= domain.index
        && is_gathered(domain, members, states, place, own)
}

/// Whether the vote at this place, the processor's own, can bring one of its domains to be gathered.
fn brings_one(plan: &Plan, members: &[u32], states: &[u8], place: usize, own: u8, cpu: u32) -> bool
    requires { place < length states.now }
    ensures { result ≡ list_any (brought_by members.now states.now place own cpu) plan.now.domains }
{
    for membership in plan.idle_domains_of(cpu) {
        let domain = plan.domain(membership.place);
        if is_brought(domain, members, states, place, own, cpu) {
            return true;
        }
    }
    false
}

/// A processor enters its C state, unless that is 0.
fn enter_own(plan: &Plan, cpu: u32, level: u8, ops: &mut Ops)
    requires cpu { cpu < length plan.now.cpus }
    requires level { level ≤ length (rows_of (cpu_at plan.now cpu).idle) }
    requires room { length ops.old.elements < ops.old.capacity }
    ensures { ops.new ≡ record ops.old {
      elements = ops.old.elements ++ own_entry IdleKind.Cst level (enter_c plan.now cpu level);
    } }
{
    if level > 0 {
        ops.push(enter_c(plan, cpu, level));
    }
}

/// Those among the members, but for the requester, whose C state the vote raises to one that a SW_ALL
/// domain is about, enter it too. Nobody is looked at where the vote brings no domain to be gathered.
fn draw_along(
    plan: &Plan,
    group: u32,
    states: &[u8],
    place: usize,
    own: u8,
    cpu: u32,
    ops: &mut Ops,
)
    requires group { group < length plan.now.groups }
    requires place { place < length states.now }
    requires own { cpu ≡ member_in (group_at plan.now group).members place }
    requires before { HoldsStates plan.now group states.now }
    requires after { HoldsStates plan.now group (slice_set states.now place own) }
    requires room { HasRoom ops.old (length (filter
        (λ q. not (q == cpu) && drawn_by plan.now (group_at plan.now group).members states.now
        (slice_set states.now place own) q)
        (group_at plan.now group).members)) }
    ensures { ops.new ≡ record ops.old {
      elements = ops.old.elements
          ++ drawn_ops plan.now (group_at plan.now group).members states.now (slice_set states.now place own)
          cpu;
    } }
{
    let members = plan.group(group as usize).members.as_slice();
    if !brings_one(plan, members, states, place, own, cpu) {
        return;
    }
    for member in members {
        if joins(plan, members, states, place, own, cpu, *member) {
            let level = c_state_in(plan, members, states, place, own, *member);
            ops.push(enter_c(plan, *member, level));
        }
    }
}

/// A list of zeros as long as another.
fn zeros(alloc: Global, members: &[u32]) -> Result<List<u8>, Memory>
    ensures { IfOk result (λ states. states ≡ map (λ p. 0) members.now) }
{
    let mut states = Vec::new(alloc);
    for _member in members {
        states.push(0)?;
    }
    Ok(List::from_vec(states))
}

/// The states that the members of a group vote for.
#[derive(Drop)]
pub struct GroupRec {
    group: u32,
    states: List<u8>,
}

impl GroupRec {
    /// The record at the start: everyone runs.
    pub fn open(alloc: Global, plan: &Plan, group: u32) -> Result<GroupRec, Memory>
        requires { group < length plan.now.groups }
        ensures of { IfOk result (λ r. IsGroupOf plan.now r) }
        ensures group { IfOk result (λ r. r.group ≡ group) }
        ensures part { IfOk result (λ r. group_part r ≡ opening_part plan.now (joined group)) }
    {
        let states = zeros(alloc, plan.group(group as usize).members.as_slice())?;
        Ok(GroupRec { group, states })
    }

    /// The state that the member votes for.
    pub fn own_vote(&self, member: u32) -> u8
        requires { member < length self.now.states }
        ensures { result ≡ own_vote (group_part self.now) member }
    {
        self.states.as_slice()[member as usize]
    }

    /// The member's C state.
    pub fn c_state(&self, plan: &Plan, member: u32) -> u8
        requires of { IsGroupOf plan.now self.now }
        requires place { member < length (group_at plan.now self.now.group).members }
        ensures { result ≡ group_c_state plan.now self.now.group (group_part self.now) member }
    {
        let members = plan.group(self.group as usize).members.as_slice();
        let states = self.states.as_slice();
        let place = member as usize;
        c_state_in(plan, members, states, place, states[place], members[place])
    }

    /// Sets the vote of the member at this place, and answers its C state.
    pub fn vote(&mut self, plan: &Plan, member: u32, state: u8) -> u8
        requires of { IsGroupOf plan.now self.old }
        requires place { member < length (group_at plan.now self.old.group).members }
        requires state { state ≤ length
            (rows_of (cpu_at plan.now (member_in (group_at plan.now self.old.group).members member)).idle) }
        ensures of { IsGroupOf plan.now self.new }
        ensures group { self.new.group ≡ self.old.group }
        ensures part { group_part self.new ≡ with_state member state (group_part self.old) }
        ensures c_state { result ≡ group_c_state plan.now self.new.group (group_part self.new) member }
    {
        self.states.set(member as usize, state);
        self.c_state(plan, member)
    }

    /// `vote`, and the operations of the accepted request.
    pub fn vote_ops(&mut self, plan: &Plan, member: u32, state: u8, ops: &mut Ops) -> u8
        requires of { IsGroupOf plan.now self.old }
        requires place { member < length (group_at plan.now self.old.group).members }
        requires state { state ≤ length
            (rows_of (cpu_at plan.now (member_in (group_at plan.now self.old.group).members member)).idle) }
        requires room { HasRoom ops.old (length (group_at plan.now self.old.group).members) }
        ensures of { IsGroupOf plan.now self.new }
        ensures group { self.new.group ≡ self.old.group }
        ensures part { group_part self.new ≡ with_state member state (group_part self.old) }
        ensures c_state { result ≡ group_c_state plan.now self.new.group (group_part self.new) member }
        ensures list { ops.new ≡ record ops.old {
          elements = ops.old.elements ++ group_ops plan.now self.old.group member (group_part self.old)
              (group_part self.new);
        } }
    {
        let members = plan.group(self.group as usize).members.as_slice();
        let cpu = members[member as usize];
        let after = c_state_in(
            plan,
            members,
            self.states.as_slice(),
            member as usize,
            state,
            cpu,
        );
        enter_own(plan, cpu, after, ops);
        draw_along(
            plan,
            self.group,
            self.states.as_slice(),
            member as usize,
            state,
            cpu,
            ops,
        );
        self.states.set(member as usize, state);
        after
    }
}
