ghost use Rattle.std.specs.Prelude.{◌≡◌, ◌<◌, ◌^◌, ◌+◌, IfSome, option_copied};
ghost use Rattle.std.specs.List.{AllByRecursion};
ghost use Rattle.pw_model.specs.States.{IsState};
ghost use Rattle.pw_model.specs.Answers.{after, answer};
ghost use Rattle.pw_model.specs.History.{Faultless, StatesRequest, replay_from, replies_from, request_of};
ghost use Rattle.pw_script.specs.inner.Known.{AreKnown, accepts};
ghost use Rattle.pw_generate.specs.inner.Counting.{counted, later_replies, next_reply};
ghost use Rattle.pw_generate.specs.inner.Counting.{none, total, with_reply};

use pw_core::State;
use pw_model::{HistoryEntry, Reply};
use pw_plan::Plan;

/// How many requests were answered in which way.
#[derive(Clone, Copy)]
pub struct Counts {
    pub entered: u64,
    pub running: u64,
    pub stands: u64,
    pub refused: u64,
}

/// One reply more.
fn note(counts: &mut Counts, reply: Reply)
    requires { total counts.old + 1 < 2 ^ 64 }
    ensures { counts.new ≡ with_reply counts.old reply }
{
    match reply {
        Reply::Entered { .. } => counts.entered += 1,
        Reply::Running => counts.running += 1,
        Reply::Stands { .. } => counts.stands += 1,
        Reply::NoState { .. } => counts.refused += 1,
        Reply::Disabled => counts.refused += 1,
        Reply::AboveLimit { .. } => counts.refused += 1,
        Reply::NoTable => counts.refused += 1,
        Reply::Unfit { .. } => counts.refused += 1,
        Reply::TooSlow { .. } => counts.refused += 1,
    }
}

/// Whether this is the reply of a request that is accepted.
fn accepts(reply: Reply) -> bool
    ensures { result ≡ accepts reply }
{
    match reply {
        Reply::Entered { .. } => true,
        Reply::Running => true,
        Reply::Stands { .. } => true,
        _ => false,
    }
}

/// The first of the known replies, and those that follow.
fn next_known<'a>(known: Option<&'a [Reply]>) -> (Option<Reply>, Option<&'a [Reply]>)
    ensures next { result.0 ≡ next_reply (option_copied known.entry) }
    ensures rest { option_copied result.1 ≡ later_replies (option_copied known.entry) }
{
    let Some(replies) = known else {
        return (None, None);
    };
    match replies {
        [reply, rest @ ..] => (Some(*reply), Some(rest)),
        _ => (None, Some(replies)),
    }
}

/// Makes the request of an entry, and says what it is answered: its reply, where that is known.
#[tactic(auto, using(pw_model::proofs::Staying::request_has, pw_script::proofs::Replied::none_refused, pw_script::proofs::Replied::refused_stays))]
fn make(plan: &Plan, state: &mut State, entry: &HistoryEntry, known: Option<Reply>) -> Reply
    requires entry { StatesRequest plan.now entry.now }
    requires fits { IsState plan.now state.old }
    requires known { IfSome known
        (λ reply. answer plan.now state.old (request_of entry.now) ≡ reply) }
    ensures reply { result ≡ answer plan.now state.old (request_of entry.now) }
    ensures after { state.new ≡ after plan.now state.old (request_of entry.now) }
    ensures fits { IsState plan.now state.new }
{
    let request = entry.request();
    let reply = match known {
        None => state.answer(plan, request),
        Some(reply) => reply,
    };
    if accepts(reply) {
        state.note(plan, request);
    }
    reply
}

/// Makes the requests of entries, of which none is a fault, and counts what they are answered: their
/// replies, where these are known.
pub fn count_replies(
    plan: &Plan,
    state: &mut State,
    entries: &[HistoryEntry],
    known: Option<&[Reply]>,
) -> Counts
    requires entries { AllByRecursion (StatesRequest plan.now) entries.now }
    requires faultless { Faultless entries.now }
    requires fits { IsState plan.now state.old }
    requires known { AreKnown plan.now state.old entries.now (option_copied known) }
    ensures counts { result ≡ counted none (replies_from plan.now state.old entries.now) }
    ensures after { state.new ≡ replay_from plan.now state.old entries.now }
    ensures fits { IsState plan.now state.new }
{
    let mut counts = Counts {
        entered: 0,
        running: 0,
        stands: 0,
        refused: 0,
    };
    let mut left = entries;
    let mut replies = known;
    while let [entry, rest @ ..] = left {
        let (reply, others) = next_known(replies);
        note(&mut counts, make(plan, state, entry, reply));
        left = rest;
        replies = others;
    }
    counts
}
