//! What came of a request, as its line says it.
ghost use Rattle.std.specs.Prelude.{◌≡◌, ◌<◌, ◌≤◌, ◌==◌, ◌++◌, ◌∷◌, ℕ, [], decimal, IfOk, MatchOption, if◌then◌else◌};
ghost use Rattle.pw_text.specs.Lines.{with_feed};
ghost use Rattle.pw_text.specs.Behind.{behind};
ghost use Rattle.pw_history.specs.Asked.{Begins};
ghost use Rattle.pw_audit.specs.inner.Outcomes.{PlanTells};
ghost use Rattle.pw_audit.specs.inner.Stopping.{FitsAt, outcome_at};

use crate::kind::Audited;
use crate::matching::strip;
use crate::words::{push, push_decimal};
use pw_base::Memory;
use pw_regs::Ops;

/// Which number below `count` a text begins with, as a line, and what stands behind it.
pub(crate) fn read_count<'a>(
    line: &mut Vec<u8>,
    count: u32,
    left: &'a [u8],
) -> Result<Option<(u32, &'a [u8])>, Memory>
    ensures { IfOk result (λ o. MatchOption o ((k : ℕ) → k < count → Begins (with_feed (decimal k)) left.now
        → ⊥)
        (λ r. (r.0 < count) × (left.now ≡ with_feed (decimal r.0) ++ r.1.now))) }
{
    for number in 0..count {
        line.clear();
        push_decimal(line, u64::from(number))?;
        push(line, b"\n")?;
        if let Some(rest) = strip(left, line.as_slice()) {
            return Ok(Some((number, rest)));
        }
    }
    Ok(None)
}

/// What stands behind a reply, where a text begins with it, as the end of a line.
fn read_reply<'a, T: Audited>(
    line: &mut Vec<u8>,
    reply: T::Reply,
    left: &'a [u8],
) -> Result<Option<&'a [u8]>, Memory>
    ensures { IfOk result (λ o. MatchOption o
        (Begins (with_feed (behind (T.words.reply_words reply))) left.now → ⊥)
        (λ rest. left.now ≡ with_feed (behind (T.words.reply_words reply)) ++ rest.now)) }
{
    line.clear();
    T::push_reply(line, reply)?;
    push(line, b"\n")?;
    Ok(strip(left, line.as_slice()))
}

/// Which fault, 0 for none, a text says of a request in this state, at the end of a line, and what stands
/// behind it. Leaves the operations of the request, and the state after it.
pub(crate) fn read_outcome<'a, T: Audited>(
    line: &mut Vec<u8>,
    plan: &T::Plan,
    state: &mut T::State,
    ops: &mut Ops,
    request: T::Request,
    left: &'a [u8],
) -> Result<Option<(u32, &'a [u8])>, Memory>
    requires laws { PlanTells T.words plan.now T.is_narrow T.is_narrow_request }
    requires request { T.words.cpu request < T.words.cpus plan.now }
    requires fits { T.fits plan.now state.old }
    requires room { T.most plan.now ≤ ops.old.capacity }
    ensures read { IfOk result (λ o. MatchOption o ((f : ℕ) → FitsAt T.words plan.now state.old request f
        → Begins (with_feed (behind (outcome_at T.words plan.now state.old request f))) left.now → ⊥)
        (λ r. FitsAt T.words plan.now state.old request r.0
        × (left.now ≡ with_feed (behind (outcome_at T.words plan.now state.old request r.0)) ++ r.1.now)
        × (state.new ≡ (if r.0 == 0 then T.words.kind.after plan.now state.old request else state.old)))) }
    ensures fits { T.fits plan.now state.new }
    ensures ops { ops.new.elements ≡ T.words.kind.ops plan.now state.old request }
    ensures room { ops.new.capacity ≡ ops.old.capacity }
{
    ops.clear();
    match strip(left, b" register fault after ") {
        None => {
            let reply = T::step(plan, state, request, ops);
            match read_reply::<T>(line, reply, left)? {
                None => Ok(None),
                Some(rest) => Ok(Some((0, rest))),
            }
        }
        Some(behind) => {
            T::operations(plan, state, request, ops);
            let count = ops.list().len() as u32;
            match read_count(line, count, behind)? {
                None => Ok(None),
                Some((done, rest)) => Ok(Some((done + 1, rest))),
            }
        }
    }
}
