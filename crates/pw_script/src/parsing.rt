ghost use Rattle.std.specs.Prelude.{◌≡◌, ◌≢◌, ◌<◌, ◌≤◌, ◌⊎◌, [], List as list, None, Some};
ghost use Rattle.std.specs.Prelude.{length, nat_lt, IfOk, IfErr, OnOk};
ghost use Rattle.pw_model.specs.States.{IsState, opening};
ghost use Rattle.pw_governor.specs.Choices.{Chooses};
ghost use Rattle.pw_notice.specs.Handling.{Handles};
ghost use Rattle.pw_notice.specs.Limits.{AnsweredBy};
ghost use Rattle.pw_script.specs.declared.script.Line.{Line as line};
ghost use Rattle.pw_text.specs.declared.script.ScriptFault.TheVariants as faults;
ghost use Rattle.pw_text.specs.declared.script.TheConstants.{MOST_LINES, MOST_OPERATIONS};
ghost use Rattle.pw_text.specs.Fields.{lines_of};
ghost use Rattle.pw_text.specs.Looking.{IsIndexOf};
ghost use Rattle.pw_text.specs.Scripts.{too_long};
ghost use Rattle.pw_script.specs.Forms.{segs_of};
ghost use Rattle.pw_script.specs.Asking.{CanBeAsked};
ghost use Rattle.pw_script.specs.Reading.{AreLines, Fit, LawfullyChosen, first_bad, operations, refused};
ghost use Rattle.pw_script.specs.Reading.{requests_of};

use crate::asking::{note, request_of};
use crate::index::index_of;
use crate::line::wish_in;
use crate::script::{Line, Script};
use acpi_values::IdleTable;
use pw_base::List;
use pw_core::State;
use pw_governor::Governor;
use pw_notice::Handlers;
use pw_plan::Plan;
use pw_text::{MOST_OPERATIONS, PathIndex, ScriptFault, Spelled, first_line, too_long};
use std::alloc::Global;

/// Whether the lines have too many operations, with those at the start.
fn has_too_many(plan: &Plan, lines: &[Line]) -> bool
    ensures { result ≡ nat_lt MOST_OPERATIONS (operations plan.now lines.now) }
{
    let mut bound = u64::from(plan.opening_bound());
    let mut left = lines;
    while let [line, rest @ ..] = left {
        if bound > u64::from(MOST_OPERATIONS) {
            return true;
        }
        bound += u64::from(plan.ops_bound(&line.request));
        left = rest;
    }
    bound > u64::from(MOST_OPERATIONS)
}

/// Reads lines, of which the first is asked in this state, and puts those that ask for something into a
/// list. `room` is room for a path.
fn read_into<
    F: Fn(&IdleTable, u32, u32) -> u32,
    P: Fn(u32, u32, u32) -> u32,
    T: Fn(u32, u32, u32) -> u32,
>(
    plan: &Plan,
    governor: &Governor<F>,
    handlers: &Handlers<P, T>,
    index: &PathIndex,
    room: &mut Spelled,
    state: &mut State,
    bytes: &[u8],
    lines: &mut Vec<Line>,
) -> Result<(), ScriptFault>
    requires chooses { Chooses (F.pre governor.now) (F.post governor.now) }
    requires perf { Handles (P.pre handlers.now.0) (P.post handlers.now.0) }
    requires throttle { Handles (T.pre handlers.now.1) (T.post handlers.now.1) }
    requires index { IsIndexOf segs_of plan.now.cpus index.now }
    requires opening { state.old ≡ opening plan.now }
    requires fits { IsState plan.now state.old }
    requires few { length (lines_of bytes.now) ≤ MOST_LINES }
    requires none { lines.old.items ≡ [] }
    ensures good { OnOk result (first_bad plan.now 1 (lines_of bytes.now) ≡ None) }
    ensures read { OnOk result (AreLines plan.now (LawfullyChosen (F.post governor.now))
        (AnsweredBy (P.post handlers.now.0) (T.post handlers.now.1)) [] 1 (lines_of bytes.now)
        lines.new.items) }
    ensures bad { IfErr result (λ fault. fault ≢ faults.Memory →
        first_bad plan.now 1 (lines_of bytes.now) ≡ Some fault) }
{
    let mut number = 0;
    let mut left = bytes;
    while !left.is_empty() {
        let (text, rest) = first_line(left);
        number += 1;
        match wish_in(plan, index, room, text)? {
            Err(why) => return Err(ScriptFault::Line { number, why }),
            Ok(None) => {}
            Ok(Some(wish)) => {
                let request = request_of(plan, state, governor, handlers, wish);
                note(plan, state, request);
                lines.push(Line { number, request })?;
            }
        }
        left = rest;
    }
    Ok(())
}

/// The lines that ask for something.
fn read_lines<
    F: Fn(&IdleTable, u32, u32) -> u32,
    P: Fn(u32, u32, u32) -> u32,
    T: Fn(u32, u32, u32) -> u32,
>(
    alloc: Global,
    bytes: &[u8],
    plan: &Plan,
    governor: &Governor<F>,
    handlers: &Handlers<P, T>,
) -> Result<Vec<Line>, ScriptFault>
    requires chooses { Chooses (F.pre governor.now) (F.post governor.now) }
    requires perf { Handles (P.pre handlers.now.0) (P.post handlers.now.0) }
    requires throttle { Handles (T.pre handlers.now.1) (T.post handlers.now.1) }
    requires few { length (lines_of bytes.now) ≤ MOST_LINES }
    ensures good { IfOk result (λ lines. first_bad plan.now 1 (lines_of bytes.now) ≡ None) }
    ensures read { IfOk result (λ lines. AreLines plan.now (LawfullyChosen (F.post governor.now))
        (AnsweredBy (P.post handlers.now.0) (T.post handlers.now.1)) [] 1 (lines_of bytes.now) lines.items) }
    ensures bad { IfErr result (λ fault. fault ≢ faults.Memory →
        first_bad plan.now 1 (lines_of bytes.now) ≡ Some fault) }
{
    let mut state = State::open(alloc, plan)?;
    let index = index_of(alloc, plan)?;
    let mut room = Spelled {
        bytes: Vec::new(alloc),
    };
    let mut lines = Vec::new(alloc);
    let read = read_into(
        plan, governor, handlers, &index, &mut room, &mut state, bytes, &mut lines,
    );
    drop(state);
    read?;
    Ok(lines)
}

/// The script that these bytes spell, with what the governor chooses and the handlers answer. A fault is
/// the first of these: there are more than 4,194,304 bytes; more than 65,536 lines; a bad line; with those
/// at the start more operations than 1,048,576 may come about.
#[tactic(auto, using(crate::proofs::Existing::lines_fit))]
pub fn parse<
    F: Fn(&IdleTable, u32, u32) -> u32,
    P: Fn(u32, u32, u32) -> u32,
    T: Fn(u32, u32, u32) -> u32,
>(
    alloc: Global,
    bytes: &[u8],
    plan: &Plan,
    governor: &Governor<F>,
    handlers: &Handlers<P, T>,
) -> Result<Script, ScriptFault>
    requires chooses { Chooses (F.pre governor.now) (F.post governor.now) }
    requires perf { Handles (P.pre handlers.now.0) (P.post handlers.now.0) }
    requires throttle { Handles (T.pre handlers.now.1) (T.post handlers.now.1) }
    ensures good { IfOk result (λ script. refused plan.now bytes.now ≡ None) }
    ensures read { IfOk result (λ script. AreLines plan.now (LawfullyChosen (F.post governor.now))
        (AnsweredBy (P.post handlers.now.0) (T.post handlers.now.1)) [] 1 (lines_of bytes.now) script.lines) }
    ensures fit { IfOk result (λ script. Fit plan.now (lines_of bytes.now) script.lines) }
    // Each line's processor exists, and its numbers are of 32 bits.
    ensures asked { IfOk result (λ script. CanBeAsked plan.now (requests_of script.lines)) }
    ensures fits { IfOk result (λ script. operations plan.now script.lines ≤ MOST_OPERATIONS) }
    // A fault is that of the bytes, or want of memory, or the lines have too many operations.
    ensures fault { IfErr result (λ fault. fault ≢ faults.Memory → (refused plan.now bytes.now ≡ Some fault)
        ⊎ ((refused plan.now bytes.now ≡ None) × (fault ≡ faults.TooLong MOST_OPERATIONS)
        × (lines : list line) × AreLines plan.now (LawfullyChosen (F.post governor.now))
        (AnsweredBy (P.post handlers.now.0) (T.post handlers.now.1)) [] 1 (lines_of bytes.now) lines
        × (MOST_OPERATIONS < operations plan.now lines))) }
{
    if let Some(fault) = too_long(bytes) {
        return Err(fault);
    }
    let lines = read_lines(alloc, bytes, plan, governor, handlers)?;
    if has_too_many(plan, lines.as_slice()) {
        return Err(ScriptFault::TooLong {
            bound: MOST_OPERATIONS,
        });
    }
    Ok(Script {
        lines: List::from_vec(lines),
    })
}
