ghost use Rattle.std.specs.Prelude.{◌≡◌, ◌<◌, ◌++◌, true, is_some, length};
ghost use Rattle.pw_plan.specs.Parts.{count_of, scale_of};
ghost use Rattle.pw_plan.specs.Places.{cpu_at, domain_at, domain_of};
ghost use Rattle.pw_plan.specs.Requests.{domain_bound, ops_bound};
ghost use Rattle.pw_plan.specs.Index.{member_place};
ghost use Rattle.pw_model.specs.Effects.{ask_effect, limit_effect};
ghost use Rattle.pw_domain.specs.Domains.{IsDomainOf, domain_part};
ghost use Rattle.pw_regs.specs.Rooms.{HasRoom};
ghost use Rattle.pw_machine.specs.Walk.{first_left, left, scaled, scaled_effect, step};
ghost use Rattle.pw_walker.specs.Places.{IsPlace, walk_of};
ghost use Rattle.pw_walker.specs.Records.{IsDomain};
ghost use Rattle.pw_walker.specs.Undoing.{FitsLevel, IsOldLevel, level_back};

use crate::levels::{ask_domain, limit_domain};
use crate::place::{OldLevel, Place};
use pw_core::Ops;
use pw_domain::DomainRec;
use pw_model::Reply;
use pw_plan::{DomainKind, Plan, Request};

/// The processor's place in its domain of this kind.
fn member_of(plan: &Plan, kind: DomainKind, cpu: u32) -> u32
    requires cpu { cpu < length plan.now.cpus }
    requires scale { is_some (scale_of kind (cpu_at plan.now cpu)) ≡ true }
    ensures { result ≡ member_place (domain_at plan.now (domain_of plan.now kind cpu)).members cpu }
{
    let Some(membership) = plan.domain_of(kind, cpu) else {
        unreachable!()
    };
    membership.member as u32
}

/// Asks for a state, and answers too what was asked for before.
#[inline(always)]
fn ask(
    plan: &Plan,
    kind: DomainKind,
    cpu: u32,
    index: u32,
    held: &mut DomainRec,
    ops: &mut Ops,
) -> (Reply, OldLevel)
    requires cpu { cpu < length plan.now.cpus }
    requires scale { is_some (scale_of kind (cpu_at plan.now cpu)) ≡ true }
    requires index { index < count_of (scale_of kind (cpu_at plan.now cpu)) }
    requires of { IsDomain plan.now (domain_of plan.now kind cpu) held.old }
    requires room { HasRoom ops.old (domain_bound plan.now kind cpu) }
    ensures of { IsDomain plan.now (domain_of plan.now kind cpu) held.new }
    ensures reply { let d = domain_of plan.now kind cpu in
        result.0 ≡ (ask_effect plan.now kind cpu index d (domain_part held.old)).reply }
    ensures part { let d = domain_of plan.now kind cpu in
        domain_part held.new
        ≡ first_left (domain_part held.old)
        (ask_effect plan.now kind cpu index d (domain_part held.old)).takes }
    ensures list { let d = domain_of plan.now kind cpu in
        ops.new ≡ record ops.old {
          elements = ops.old.elements ++ (ask_effect plan.now kind cpu index d (domain_part held.old)).ops;
        } }
    ensures old { IsOldLevel plan.now (domain_of plan.now kind cpu) result.1 (domain_part held.old)
        (domain_part held.new) }
{
    let member = member_of(plan, kind, cpu);
    let old = OldLevel::Ask {
        member,
        index: held.own_ask(member),
    };
    let reply = ask_domain(held, plan, kind, cpu, member, index, ops);
    (reply, old)
}

/// Sets a limit, and answers too the one before.
#[inline(always)]
fn limit(
    plan: &Plan,
    kind: DomainKind,
    cpu: u32,
    n: u32,
    held: &mut DomainRec,
    ops: &mut Ops,
) -> (Reply, OldLevel)
    requires cpu { cpu < length plan.now.cpus }
    requires scale { is_some (scale_of kind (cpu_at plan.now cpu)) ≡ true }
    requires of { IsDomain plan.now (domain_of plan.now kind cpu) held.old }
    requires room { HasRoom ops.old (domain_bound plan.now kind cpu) }
    ensures of { IsDomain plan.now (domain_of plan.now kind cpu) held.new }
    ensures reply { let d = domain_of plan.now kind cpu in
        result.0 ≡ (limit_effect plan.now kind cpu n d (domain_part held.old)).reply }
    ensures part { let d = domain_of plan.now kind cpu in
        domain_part held.new
        ≡ first_left (domain_part held.old)
        (limit_effect plan.now kind cpu n d (domain_part held.old)).takes }
    ensures list { let d = domain_of plan.now kind cpu in
        ops.new ≡ record ops.old {
          elements = ops.old.elements ++ (limit_effect plan.now kind cpu n d (domain_part held.old)).ops;
        } }
    ensures old { IsOldLevel plan.now (domain_of plan.now kind cpu) result.1 (domain_part held.old)
        (domain_part held.new) }
{
    let member = member_of(plan, kind, cpu);
    let old = OldLevel::Limit {
        member,
        limit: held.own_limit(member),
    };
    let reply = limit_domain(held, plan, kind, cpu, member, n, ops);
    (reply, old)
}

/// Makes a request on the record of its domain.
#[inline(always)]
fn level(plan: &Plan, request: &Request, held: &mut DomainRec, ops: &mut Ops) -> (Reply, OldLevel)
    requires place { IsPlace plan.now request.now (Place.Scaled held.old.domain) ops.old.elements }
    requires of { IsDomainOf plan.now held.old }
    requires room { HasRoom ops.old (ops_bound plan.now request.now) }
    ensures of { IsDomain plan.now held.old.domain held.new }
    ensures reply { result.0
        ≡ (scaled_effect plan.now request.now held.old.domain (domain_part held.old)).reply }
    ensures part { domain_part held.new
        ≡ left plan.now request.now (scaled held.old.domain) (domain_part held.old) }
    ensures list { ops.new ≡ record ops.old {
      elements = ops.old.elements
          ++ (scaled_effect plan.now request.now held.old.domain (domain_part held.old)).ops;
    } }
    ensures old { IsOldLevel plan.now held.old.domain result.1 (domain_part held.old) (domain_part held.new) }
{
    let perf = DomainKind::Perf;
    let throttle = DomainKind::Throttle;
    match *request {
        Request::Perf { cpu, index } => ask(plan, perf, cpu, index, held, ops),
        Request::Throttle { cpu, index } => ask(plan, throttle, cpu, index, held, ops),
        Request::PerfLimit { cpu, n } => limit(plan, perf, cpu, n, held, ops),
        Request::ThrottleLimit { cpu, n } => limit(plan, throttle, cpu, n, held, ops),
        _ => unreachable!(),
    }
}

/// Makes a request on the record of its domain, which comes next. Answers the end of the walk, and what
/// the processor asked for before, or its limit.
#[inline(always)]
pub fn step_domain(
    plan: &Plan,
    request: &Request,
    held: &mut DomainRec,
    ops: &mut Ops,
) -> (Place, OldLevel)
    requires place { IsPlace plan.now request.now (Place.Scaled held.old.domain) ops.old.elements }
    requires of { IsDomainOf plan.now held.old }
    requires room { HasRoom ops.old (ops_bound plan.now request.now) }
    ensures walk { walk_of result.0 ops.new.elements
        ≡ step plan.now request.now (walk_of (Place.Scaled held.old.domain) ops.old.elements)
        (domain_part held.old) }
    ensures place { IsPlace plan.now request.now result.0 ops.new.elements }
    ensures part { domain_part held.new
        ≡ left plan.now request.now (walk_of (Place.Scaled held.old.domain) ops.old.elements)
        (domain_part held.old) }
    ensures of { IsDomain plan.now held.old.domain held.new }
    ensures old { IsOldLevel plan.now held.old.domain result.1 (domain_part held.old) (domain_part held.new) }
    ensures capacity { ops.new.capacity ≡ ops.old.capacity }
{
    let (reply, old) = level(plan, request, held, ops);
    (Place::Over { reply }, old)
}

/// Sets an old ask or limit back.
pub fn unstep_domain(plan: &Plan, held: &mut DomainRec, old: OldLevel)
    requires of { IsDomainOf plan.now held.old }
    requires fits { FitsLevel plan.now held.old.domain old }
    ensures of { IsDomain plan.now held.old.domain held.new }
    ensures part { domain_part held.new ≡ level_back old (domain_part held.old) }
{
    match old {
        OldLevel::Ask { member, index } => {
            let _standing = held.ask(plan, member, index);
        }
        OldLevel::Limit { member, limit } => {
            let _standing = held.limit(plan, member, limit);
        }
    }
}
