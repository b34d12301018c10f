ghost use Rattle.std.specs.Prelude.{◌≡◌, ◌<◌, ◌++◌, None, length};
ghost use Rattle.pw_plan.specs.Places.{group_at, group_of};
ghost use Rattle.pw_plan.specs.Requests.{cpu_of, ops_bound};
ghost use Rattle.pw_model.specs.Refusals.{fixed_refusal};
ghost use Rattle.pw_model.specs.Effects.{member_place};
ghost use Rattle.pw_domain.specs.Groups.{IsGroupOf, group_part};
ghost use Rattle.pw_regs.specs.Rooms.{HasRoom};
ghost use Rattle.pw_machine.specs.Walk.{grouped, grouped_effect, left, step};
ghost use Rattle.pw_walker.specs.Places.{IsPlace, walk_of};
ghost use Rattle.pw_walker.specs.Records.{IsGroup};
ghost use Rattle.pw_walker.specs.Undoing.{FitsState, IsOldState, state_back};
ghost use Rattle.pw_walker.specs.inner.Going.{IsReady, IsVote};

use crate::place::{OldState, Place};
use pw_core::{Ops, chain_of_one};
use pw_domain::GroupRec;
use pw_model::Reply;
use pw_plan::{Plan, Request};

/// The processor's place in its group.
fn member_of(plan: &Plan, cpu: u32) -> u32
    requires { group_of plan.now cpu < length plan.now.groups }
    ensures { result ≡ member_place (group_at plan.now (group_of plan.now cpu)).members cpu }
{
    let Some(at) = plan.group_of(cpu) else {
        unreachable!()
    };
    at.member as u32
}

/// Sets the vote of a member of a group, and appends what it and those enter that it draws along.
fn vote_on(plan: &Plan, request: &Request, member: u32, held: &mut GroupRec, ops: &mut Ops) -> Reply
    requires ready { IsReady plan.now request.now ops.old }
    requires accepted { fixed_refusal plan.now request.now ≡ None }
    requires vote { IsVote request.now }
    requires within { group_of plan.now (cpu_of request.now) < length plan.now.groups }
    requires of { IsGroup plan.now (group_of plan.now (cpu_of request.now)) held.old }
    requires member { let g = group_of plan.now (cpu_of request.now) in
        member ≡ member_place (group_at plan.now g).members (cpu_of request.now) }
    ensures of { IsGroup plan.now (group_of plan.now (cpu_of request.now)) held.new }
    ensures reply { let g = group_of plan.now (cpu_of request.now) in
        result ≡ (grouped_effect plan.now request.now g (group_part held.old)).reply }
    ensures part { let g = group_of plan.now (cpu_of request.now) in
        group_part held.new ≡ left plan.now request.now (grouped g) (group_part held.old) }
    ensures list { let g = group_of plan.now (cpu_of request.now) in
        ops.new ≡ record ops.old {
          elements = ops.old.elements ++ (grouped_effect plan.now request.now g (group_part held.old)).ops;
        } }
{
    match *request {
        Request::Idle { state, .. } => {
            let level = held.vote_ops(plan, member, state as u8, ops);
            Reply::Entered {
                chain: chain_of_one(level),
            }
        }
        Request::Wake { .. } => {
            let _level = held.vote(plan, member, 0);
            Reply::Running
        }
        _ => unreachable!(),
    }
}

/// Sets the vote of the request's processor in the record of its group, which comes next. Answers the
/// end of the walk, and the state that the processor voted for before.
pub fn step_group(
    plan: &Plan,
    request: &Request,
    held: &mut GroupRec,
    ops: &mut Ops,
) -> (Place, OldState)
    requires place { IsPlace plan.now request.now (Place.Grouped held.old.group) ops.old.elements }
    requires of { IsGroupOf plan.now held.old }
    requires room { HasRoom ops.old (ops_bound plan.now request.now) }
    ensures walk { walk_of result.0 ops.new.elements
        ≡ step plan.now request.now (walk_of (Place.Grouped held.old.group) ops.old.elements)
        (group_part held.old) }
    ensures place { IsPlace plan.now request.now result.0 ops.new.elements }
    ensures part { group_part held.new
        ≡ left plan.now request.now (walk_of (Place.Grouped held.old.group) ops.old.elements)
        (group_part held.old) }
    ensures of { IsGroup plan.now held.old.group held.new }
    ensures old { IsOldState plan.now held.old.group result.1 (group_part held.old) (group_part held.new) }
    ensures capacity { ops.new.capacity ≡ ops.old.capacity }
{
    let member = member_of(plan, request.cpu());
    let old = OldState {
        member,
        state: held.own_vote(member),
    };
    let reply = vote_on(plan, request, member, held, ops);
    (Place::Over { reply }, old)
}

/// Sets the old state of a member's vote back.
pub fn unstep_group(plan: &Plan, held: &mut GroupRec, old: OldState)
    requires of { IsGroupOf plan.now held.old }
    requires fits { FitsState plan.now held.old.group old }
    ensures of { IsGroup plan.now held.old.group held.new }
    ensures part { group_part held.new ≡ state_back old (group_part held.old) }
{
    let _level = held.vote(plan, old.member, old.state);
}
