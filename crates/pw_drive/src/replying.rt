//! Where workers' replies lie: a list for each processor, and one for the whole history.
ghost use Rattle.std.specs.Prelude.{◌≡◌, ◌≢◌, ◌≤◌, ◌<◌, ◌+◌, ◌++◌, ◌∷◌, [], ℕ, List as list, Vec as vec};
ghost use Rattle.std.specs.Prelude.{length, slice_index_or, vec_capacity, IfOk};
ghost use Rattle.std.specs.List.{AllByRecursion};
ghost use Rattle.std.specs.declared.alloc.Global.{Global as global};
ghost use Rattle.pw_plan.specs.declared.plan.Plan.{Plan as plan};
ghost use Rattle.pw_model.specs.declared.entry.HistoryEntry.{HistoryEntry as made};
ghost use Rattle.pw_model.specs.declared.reply.Reply.{Reply as told};
ghost use Rattle.pw_model.specs.History.{replies};
ghost use Rattle.pw_drive.specs.inner.Replying.{AreEmpty, AreReplies, HaveRoom, Leaves};

use pw_base::{List, Memory};
use pw_model::{HistoryEntry, Reply};
use pw_plan::Request;
use pw_turns::Sealed;
use std::alloc::Global;
use std::mem;

/// For each list of requests room for as many replies.
pub(crate) fn rooms(alloc: Global, lists: &[Vec<Request>]) -> Result<Vec<Vec<Reply>>, Memory>
    ensures empty { IfOk result (λ each. AreEmpty (length lists.now) each.items) }
    ensures room { IfOk result (λ each. HaveRoom (length lists.now) lists.now each.items) }
{
    let mut each = Vec::with_capacity(alloc, lists.len())?;
    for requests in lists {
        each.push_reserved(Vec::with_capacity(alloc, requests.len())?);
    }
    Ok(each)
}

/// Takes a processor's room, of which none is left there.
pub(crate) fn take_room(alloc: Global, each: &mut Vec<Vec<Reply>>, cpu: usize) -> Vec<Reply>
    requires inside { cpu < length each.old.items }
    ensures room { (d : vec told global) → result ≡ slice_index_or each.old.items cpu d }
    ensures size { length each.new.items ≡ length each.old.items }
    ensures left { (d : vec told global) → (slice_index_or each.new.items cpu d).items ≡ [] }
    ensures others { (p : ℕ) (d : vec told global) → p ≢ cpu
        → slice_index_or each.new.items p d ≡ slice_index_or each.old.items p d }
{
    mem::replace(&mut each[cpu], Vec::new(alloc))
}

/// Takes the reply to the last entry of a history from the list of its processor, and puts it behind the
/// others. A fault has none.
fn take_reply(entry: &HistoryEntry, each: &mut Vec<Vec<Reply>>, all: &mut Vec<Reply>)
    requires inside { entry.now.cpu < length each.old.items }
    requires room { length all.old.items < vec_capacity all.old }
    ensures size { length each.new.items ≡ length each.old.items }
    ensures room { vec_capacity all.new ≡ vec_capacity all.old }
    ensures one { length all.new.items ≤ length all.old.items + 1 }
    ensures leaves { (P : plan) (whole es : list made)
        → Leaves P whole (es ++ entry.now ∷ []) each.old.items all.old.items
        → Leaves P whole es each.new.items all.new.items }
{
    if entry.fault > 0 {
        return;
    }
    if let Some(reply) = each[entry.cpu as usize].pop() {
        all.push_reserved(reply);
    }
}

/// The replies to a history's entries, in their order, from the lists of the processors: from the last
/// entry to the first each one's is the last of its processor's list.
pub(crate) fn in_order(
    sealed: &Sealed,
    mut each: Vec<Vec<Reply>>,
    mut all: Vec<Reply>,
) -> List<Reply>
    requires each { AreReplies sealed.now.plan sealed.now.entries each.items }
    requires inside { AllByRecursion (λ (e : made). e.cpu < length each.items) sealed.now.entries }
    requires none { all.items ≡ [] }
    requires room { length sealed.now.entries ≤ vec_capacity all }
    ensures { result ≡ replies sealed.now.plan sealed.now.entries }
{
    let entries = sealed.entries();
    let mut left = entries.len();
    while left > 0 {
        left -= 1;
        take_reply(&entries[left], &mut each, &mut all);
    }
    all.reverse();
    List::from_vec(all)
}
