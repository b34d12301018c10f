ghost use Rattle.std.specs.Prelude.{◌≡◌, [], map};
ghost use Rattle.pw_base.specs.Outside.{KeepsFiles, KeepsSink};
ghost use Rattle.pw_base.specs.Seen.{files_seen};
ghost use Rattle.aml_block.specs.Held.{names_of};
ghost use Rattle.pw_load.specs.Seen.{outputs_seen};
ghost use Rattle.pw_load.specs.Ends.{Did};
ghost use Rattle.pw_runs.specs.CppcReviews.{reviewing as reviewing_cppc};
ghost use Rattle.pw_runs.specs.Reviews.{reviewing};
ghost use Rattle.pw_runs.specs.inner.AuditParts.{judging};

use crate::audit_print::print_lawful;
use crate::audit_refusal::refuse_history;
use crate::cppc_given::read_given as read_steered;
use crate::history::{Unlawful, read_history};
use crate::read_given;
use pw_audit::{Audited, Form, Performance, Power};
use pw_base::{Files, Sink};
use pw_load::{read_fault, without_memory};
use pw_text::Page;
use std::alloc::Global;

/// Judges the history in the file of this name, a text of this form, by the plan and the script's lines that
/// are given, with an empty page. It says the status.
fn judge<T: Audited, F: Files, K: Sink>(
    form: Form,
    alloc: Global,
    files: &mut F,
    name: &str,
    plan: &T::Plan,
    lines: &[T::Line],
    page: &mut Page,
    out: &mut K,
    err: &mut K,
) -> u8
    requires { page.old ≡ [] }
    ensures keeps_files { KeepsFiles F.told F.holds F.faults files.old files.new }
    ensures keeps_out { KeepsSink K.told K.faults out.old out.new }
    ensures keeps_err { KeepsSink K.told K.faults err.old err.new }
    ensures did { Did (judging T.words form (files_seen F.Files files.old) (files_seen F.Files files.new)
        name.now plan.now (map T.ask lines.now))
        (outputs_seen K.Sink out.old err.old) (outputs_seen K.Sink out.new err.new) result }
{
    match read_history::<T, F>(form, alloc, files, name, plan, lines) {
        Ok(entries) => print_lawful(page, out, err, entries),
        Err(Unlawful::Unread) => read_fault(err),
        Err(Unlawful::Fault(fault)) => refuse_history(page, err, fault),
    }
}

/// Does `audit`: whether the history in a file, printed or as a trace of a running system, is one that
/// the script allows on the machine that the blocks describe, wherever it came from. The blocks come
/// first, then the script, and then the history. Says the status.
pub fn audit<F: Files, K: Sink>(
    alloc: Global,
    form: Form,
    step: bool,
    script: &str,
    history: &str,
    blocks: &[&str],
    files: &mut F,
    out: &mut K,
    err: &mut K,
) -> u8
    ensures keeps_files { KeepsFiles F.told F.holds F.faults files.old files.new }
    ensures keeps_out { KeepsSink K.told K.faults out.old out.new }
    ensures keeps_err { KeepsSink K.told K.faults err.old err.new }
    ensures did { Did (reviewing form step script.now history.now (names_of blocks.now)
        (files_seen F.Files files.old) (files_seen F.Files files.new))
        (outputs_seen K.Sink out.old err.old) (outputs_seen K.Sink out.new err.new) result }
{
    let Ok(mut page) = Page::new(alloc) else {
        return without_memory(err);
    };
    match read_given(alloc, files, step, script, blocks, &mut page, err) {
        Err(status) => status,
        Ok((plan, script)) => {
            let lines = script.lines.as_slice();
            let status = judge::<Power, F, K>(
                form, alloc, files, history, &plan, lines, &mut page, out, err,
            );
            drop(plan);
            status
        }
    }
}

/// Does `audit --cppc`: the same for the history of a script of requests for performance on the processors
/// that the blocks describe.
pub fn audit_cppc<F: Files, K: Sink>(
    alloc: Global,
    form: Form,
    script: &str,
    history: &str,
    blocks: &[&str],
    files: &mut F,
    out: &mut K,
    err: &mut K,
) -> u8
    ensures keeps_files { KeepsFiles F.told F.holds F.faults files.old files.new }
    ensures keeps_out { KeepsSink K.told K.faults out.old out.new }
    ensures keeps_err { KeepsSink K.told K.faults err.old err.new }
    ensures did { Did (reviewing_cppc form script.now history.now (names_of blocks.now)
        (files_seen F.Files files.old) (files_seen F.Files files.new))
        (outputs_seen K.Sink out.old err.old) (outputs_seen K.Sink out.new err.new) result }
{
    let Ok(mut page) = Page::new(alloc) else {
        return without_memory(err);
    };
    match read_steered(alloc, files, script, blocks, &mut page, err) {
        Err(status) => status,
        Ok((plan, script)) => {
            let lines = script.lines.as_slice();
            let status = judge::<Performance, F, K>(
                form, alloc, files, history, &plan, lines, &mut page, out, err,
            );
            drop(plan);
            status
        }
    }
}
