ghost use Rattle.std.specs.Prelude.{◌≡◌, ◌<◌, ◌≤◌, ◌+◌, [], None, Some, length, slice_index_or};
ghost use Rattle.pw_plan.specs.Places.{IsIn, parent_of};
ghost use Rattle.pw_plan.specs.Requests.{ops_bound};
ghost use Rattle.pw_plan.specs.Tree.{line_from};
ghost use Rattle.pw_model.specs.Refusals.{fixed_refusal};
ghost use Rattle.pw_model.specs.States.{running};
ghost use Rattle.pw_model.specs.Effects.{child_place, votes_in};
ghost use Rattle.pw_core.specs.Chains.{IsChain, states_in};
ghost use Rattle.pw_idle.specs.Nodes.{IsNodeOf, node_part};
ghost use Rattle.pw_regs.specs.Rooms.{HasRoom};
ghost use Rattle.pw_machine.specs.Standing.{MayVote};
ghost use Rattle.pw_machine.specs.Walk.{climb_on, climbed, left, step};
ghost use Rattle.pw_walker.specs.Places.{AreStatesUpTo, IsClimb, IsPlace, walk_of};
ghost use Rattle.pw_walker.specs.Records.{IsNode};
ghost use Rattle.pw_walker.specs.Undoing.{FitsVote, IsOldVote, vote_back};
ghost use Rattle.pw_walker.specs.inner.Going.{Comes, HandsOn, IsReady, past};

use crate::place::{Climb, OldVote, Place};
use crate::turning::{Voted, chain_with, goes_on, set_vote};
use acpi_values::{Chain, Op};
use pw_core::{Ops, chain_composite};
use pw_idle::NodeRec;
use pw_model::{Reply, Vote};
use pw_plan::{Child, Plan, Request};

/// All records are held, and the request came to the states of this chain.
#[inline(always)]
pub fn climbed(plan: &Plan, request: &Request, chain: Chain, ops: &mut Ops) -> Place
    requires ready { IsReady plan.now request.now ops.old }
    requires chain { IsChain chain }
    requires states { AreStatesUpTo plan.now request.now (states_in chain) [] }
    ensures walk { walk_of result ops.new.elements ≡ climbed plan.now request.now (states_in chain) }
    ensures comes { Comes plan.now request.now result ops.old ops.new }
{
    match *request {
        Request::Idle { cpu, .. } => {
            ops.push(Op::Enter {
                cpu,
                composite: chain_composite(plan, cpu, &chain),
            });
            Place::Over {
                reply: Reply::Entered { chain },
            }
        }
        _ => Place::Over {
            reply: Reply::Running,
        },
    }
}

/// The container around a child, where there is one.
fn parent_of(plan: &Plan, child: Child) -> Option<u32>
    requires { IsIn plan.now child }
    ensures { result ≡ parent_of plan.now child }
{
    match child {
        Child::Cpu(cpu) => plan.cpu(cpu).parent,
        Child::Container(node) => plan.container(node).parent,
    }
}

/// On to the container around the climb's child, where there is one.
#[inline(always)]
pub fn climb_on(plan: &Plan, request: &Request, climb: Climb, ops: &mut Ops) -> Place
    requires ready { IsReady plan.now request.now ops.old }
    requires hands { HandsOn plan.now request.now climb }
    ensures walk { walk_of result ops.new.elements
        ≡ climb_on plan.now request.now climb.child climb.vote (states_in climb.chain) climb.rising
        (parent_of plan.now climb.child) }
    ensures comes { Comes plan.now request.now result ops.old ops.new }
{
    match parent_of(plan, climb.child) {
        Some(node) => Place::Climbing { node, climb },
        None => climbed(plan, request, climb.chain, ops),
    }
}

/// On from a container that came to this.
#[inline(always)]
fn go_past(
    plan: &Plan,
    request: &Request,
    node: u32,
    climb: Climb,
    turned: Voted,
    ops: &mut Ops,
) -> Place
    requires ready { IsReady plan.now request.now ops.old }
    requires accepted { fixed_refusal plan.now request.now ≡ None }
    requires node { node < length plan.now.containers }
    requires parent { parent_of plan.now climb.child ≡ Some node }
    requires climb { IsClimb plan.now request.now climb }
    requires room { length (states_in climb.chain) + length (line_from plan.now.containers (Some node)) ≤ 9 }
    requires voted { MayVote plan.now request.now (Child.Container node) turned.vote }
    ensures walk { walk_of result ops.new.elements
        ≡ past plan.now request.now node climb turned.vote turned.runs }
    ensures comes { Comes plan.now request.now result ops.old ops.new }
{
    let rising = goes_on(climb.rising, turned.vote.state);
    let chain = chain_with(climb.chain, rising, turned.vote.state);
    if turned.runs {
        return climbed(plan, request, chain, ops);
    }
    let above = Climb {
        child: Child::Container(node),
        vote: turned.vote,
        chain,
        rising,
    };
    climb_on(plan, request, above, ops)
}

/// What a child votes, in the record of its container.
#[inline(always)]
fn vote_of(plan: &Plan, node: u32, child: Child, held: &NodeRec) -> OldVote
    requires node { node < length plan.now.containers }
    requires inside { IsIn plan.now child }
    requires parent { parent_of plan.now child ≡ Some node }
    requires of { IsNode plan.now node held.now }
    ensures child { result.child ≡ child_place plan.now node child }
    ensures vote { result.vote ≡ slice_index_or (votes_in (node_part held.now)) result.child running }
    ensures fits { FitsVote plan.now node result }
{
    let Some(place) = plan.place_of(child) else {
        unreachable!()
    };
    let child = place as u32;
    OldVote {
        child,
        vote: Vote {
            state: held.child(child),
            tolerance: held.child_tolerance(child),
        },
    }
}

/// Hands the vote of the climb's child to the container that comes next, whose record this is. Answers
/// where the request then stands, and what the child voted before.
#[inline(always)]
pub fn step_node(
    plan: &Plan,
    request: &Request,
    node: u32,
    climb: Climb,
    held: &mut NodeRec,
    ops: &mut Ops,
) -> (Place, OldVote)
    requires place { IsPlace plan.now request.now (Place.Climbing node climb) ops.old.elements }
    requires of { IsNode plan.now node held.old }
    requires room { HasRoom ops.old (ops_bound plan.now request.now) }
    ensures walk { walk_of result.0 ops.new.elements
        ≡ step plan.now request.now (walk_of (Place.Climbing node climb) ops.old.elements)
        (node_part held.old) }
    ensures place { IsPlace plan.now request.now result.0 ops.new.elements }
    ensures part { node_part held.new
        ≡ left plan.now request.now (walk_of (Place.Climbing node climb) ops.old.elements)
        (node_part held.old) }
    ensures of { IsNode plan.now node held.new }
    ensures old { IsOldVote plan.now node result.1 (node_part held.old) (node_part held.new) }
    ensures capacity { ops.new.capacity ≡ ops.old.capacity }
{
    let old = vote_of(plan, node, climb.child, held);
    let turned = set_vote(held, plan, node, climb.child, climb.vote);
    let place = go_past(plan, request, node, climb, turned, ops);
    (place, old)
}

/// Sets the old vote of a child back.
pub fn unstep_node(plan: &Plan, held: &mut NodeRec, old: OldVote)
    requires of { IsNodeOf plan.now held.old }
    requires fits { FitsVote plan.now held.old.node old }
    ensures of { IsNode plan.now held.old.node held.new }
    ensures part { node_part held.new ≡ vote_back old (node_part held.old) }
{
    let _state = held.vote(plan, old.child, old.vote.state, old.vote.tolerance);
}
