ghost use Rattle.std.specs.Prelude.{◌≡◌, ◌<◌, ◌≤◌};
ghost use Rattle.pw_plan.specs.Requests.{ops_bound};
ghost use Rattle.pw_model.specs.Records.{record_count};
ghost use Rattle.pw_regs.specs.Rooms.{HasRoom};
ghost use Rattle.pw_rule.specs.Contents.{IsRecordOf};
ghost use Rattle.pw_machine.specs.Walk.{left, next_turn, step};
ghost use Rattle.pw_walker.specs.Places.{IsPlace, walk_of};
ghost use Rattle.pw_turns.specs.Contents.{FitsIn, IsContentOf, TakesPlace, part_back};
ghost use Rattle.pw_turns.specs.Steps.{content_part};

use pw_core::Ops;
use pw_plan::{Plan, Request};
use pw_rule::Content;
use pw_walker::{
    OldLevel, OldState, OldVote, Place, step_domain, step_group, step_node, unstep_domain,
    unstep_group, unstep_node,
};

/// What stood in a record before a request changed it.
#[derive(Clone, Copy)]
pub(crate) enum Old {
    Vote(OldVote),
    Level(OldLevel),
    State(OldState),
}

/// Makes a request on the record that comes next, which is in hand. Answers where the request then
/// stands, and what it changed.
#[inline(always)]
pub(crate) fn step_content<R>(
    plan: &Plan,
    request: &Request,
    place: Place,
    content: &mut Content<R>,
    ops: &mut Ops,
) -> (Place, Old)
    requires place { IsPlace plan.now request.now place ops.old.elements }
    requires holds { IsRecordOf plan.now (next_turn plan.now (walk_of place ops.old.elements))
        (content_part content.old) content.old }
    requires turn { next_turn plan.now (walk_of place ops.old.elements) < record_count plan.now }
    requires room { ops_bound plan.now request.now ≤ ops.old.capacity }
    ensures walk { walk_of result.0 ops.new.elements
        ≡ step plan.now request.now (walk_of place ops.old.elements) (content_part content.old) }
    ensures place { IsPlace plan.now request.now result.0 ops.new.elements }
    ensures part { content_part content.new ≡ left plan.now request.now (walk_of place ops.old.elements)
        (content_part content.old) }
    ensures same { TakesPlace plan.now content.old content.new }
    ensures fits { FitsIn plan.now content.new result.1 }
    ensures back { part_back result.1 (content_part content.new) ≡ content_part content.old }
    ensures capacity { ops.new.capacity ≡ ops.old.capacity }
{
    match content {
        Content::Node(held) => match place {
            Place::Climbing { node, climb } => {
                let (next, old) = step_node(plan, request, node, climb, held.get_mut(), ops);
                (next, Old::Vote(old))
            }
            _ => unreachable!(),
        },
        Content::Domain(held) => {
            let (next, old) = step_domain(plan, request, held.get_mut(), ops);
            (next, Old::Level(old))
        }
        Content::Group(held) => {
            let (next, old) = step_group(plan, request, held.get_mut(), ops);
            (next, Old::State(old))
        }
        Content::Log(_) => unreachable!(),
    }
}

/// Sets an old element of a record back.
pub(crate) fn unstep_content<R>(plan: &Plan, content: &mut Content<R>, old: Old)
    requires of { IsContentOf plan.now content.old }
    requires fits { FitsIn plan.now content.old old }
    ensures same { TakesPlace plan.now content.old content.new }
    ensures part { content_part content.new ≡ part_back old (content_part content.old) }
{
    match content {
        Content::Node(held) => match old {
            Old::Vote(vote) => unstep_node(plan, held.get_mut(), vote),
            _ => unreachable!(),
        },
        Content::Domain(held) => match old {
            Old::Level(level) => unstep_domain(plan, held.get_mut(), level),
            _ => unreachable!(),
        },
        Content::Group(held) => match old {
            Old::State(state) => unstep_group(plan, held.get_mut(), state),
            _ => unreachable!(),
        },
        Content::Log(_) => unreachable!(),
    }
}
