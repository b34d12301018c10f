//! The line of an entry up to its arrow.
ghost use Rattle.std.specs.Prelude.{◌≡◌, ◌<◌, ◌++◌, length, IfOk, IfSome, MatchOption, OnOk};
ghost use Rattle.pw_history.specs.Asked.{Begins};
ghost use Rattle.pw_history.specs.Paths.{ArePaths};
ghost use Rattle.pw_audit.specs.inner.Heading.{AreAllPaths, head_text};
ghost use Rattle.pw_audit.specs.inner.Looking.{LeadsTo};
ghost use Rattle.pw_audit.specs.inner.Outcomes.{PlanTells};
ghost use Rattle.pw_audit.specs.inner.Queues.{EachOwn, IsNext, Takes};

use crate::index::find;
use crate::kind::Audited;
use crate::matching::{strip, word};
use crate::queues::Queues;
use crate::words::{push, push_decimal};
use pw_base::Memory;
use pw_text::PathTexts;
use std::collections::HashMap;

/// Puts the number of an entry, and what was asked.
fn push_head<T: Audited>(
    line: &mut Vec<u8>,
    _plan: &T::Plan,
    paths: &PathTexts,
    number: u64,
    request: T::Request,
) -> Result<(), Memory>
    requires { ArePaths T.words _plan.now paths.now }
    ensures { OnOk result (line.new.items ≡ line.old.items
        ++ head_text T.words _plan.now number request) }
{
    push_decimal(line, number)?;
    push(line, b" ")?;
    push(line, paths.path(T::cpu(request)))?;
    T::push_request(line, request)?;
    push(line, b" ->")
}

/// The request that the line of an entry with this number is about, and what stands behind its arrow.
/// It is the next one of the processor that the line names, and is taken.
pub(crate) fn read_head<'a, T: Audited>(
    line: &mut Vec<u8>,
    plan: &T::Plan,
    paths: &PathTexts,
    index: &HashMap<Vec<u8>, u32>,
    asked: &mut Queues<T::Request>,
    number: u64,
    left: &'a [u8],
) -> Result<Option<(T::Request, &'a [u8])>, Memory>
    requires laws { PlanTells T.words plan.now T.is_narrow T.is_narrow_request }
    requires paths { AreAllPaths T.words plan.now paths.now }
    requires index { LeadsTo 0 paths.now index.now }
    requires size { length asked.old ≡ T.words.cpus plan.now }
    requires own { EachOwn T.words asked.old }
    ensures read { IfOk result (λ o. MatchOption o ((q : T.Request) → T.words.cpu q < T.words.cpus plan.now
        → IsNext T.words asked.old q → Begins (head_text T.words plan.now number q) left.now → ⊥)
        (λ r. (T.words.cpu r.0 < T.words.cpus plan.now) × Takes asked.old (T.words.cpu r.0) r.0 asked.new
        × (left.now ≡ head_text T.words plan.now number r.0 ++ r.1.now))) }
    ensures only { IfOk result (λ o. IfSome o (λ r. (q : T.Request) → T.words.cpu q < T.words.cpus plan.now
        → IsNext T.words asked.old q → Begins (head_text T.words plan.now number q) left.now → q ≡ r.0)) }
{
    let (_number, behind) = word(left);
    let (path, _rest) = word(behind);
    line.clear();
    push(line, path)?;
    let Some(cpu) = find(paths, index, line) else {
        return Ok(None);
    };
    let Some(request) = asked.take(cpu) else {
        return Ok(None);
    };
    line.clear();
    push_head::<T>(line, plan, paths, number, request)?;
    match strip(left, line.as_slice()) {
        None => Ok(None),
        Some(rest) => Ok(Some((request, rest))),
    }
}
