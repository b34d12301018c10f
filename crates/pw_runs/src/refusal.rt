ghost use Rattle.std.specs.Prelude.{◌≡◌, ◌∷◌, ◌++◌, [], codes};
ghost use Rattle.pw_base.specs.Outside.{KeepsSink};
ghost use Rattle.pw_base.specs.Seen.{sink_seen, GrewByLine};
ghost use Rattle.pw_runs.specs.Runs.{register_line};
ghost use Rattle.pw_runs.specs.Scripts.{script_line, script_status, why_word};

use crate::say::say_number;
use pw_base::Sink;
use pw_load::without_memory;
use pw_text::{LineWhy, Page, ScriptFault};

/// How the line of a bad line ends.
fn why_ending(why: LineWhy) -> &'static [u8]
    ensures { result.now ≡ 32 ∷ (why_word why ++ codes "\n") }
{
    match why {
        LineWhy::Grammar => b" grammar\n",
        LineWhy::Processor => b" processor\n",
        LineWhy::Number => b" number\n",
    }
}

/// Says why there is no script, by way of an empty page, and the status.
#[tactic(auto, unfolding(pw_text::specs::Lines::line_of))]
pub fn refuse_script<K: Sink>(page: &mut Page, err: &mut K, fault: ScriptFault) -> u8
    requires { page.old ≡ [] }
    ensures keeps { KeepsSink K.told K.faults err.old err.new }
    ensures status { result ≡ script_status fault }
    ensures line { GrewByLine (sink_seen K.Sink err.old) (sink_seen K.Sink err.new) (script_line fault) }
{
    match fault {
        ScriptFault::Memory => without_memory(err),
        ScriptFault::TooLong { bound } => {
            say_number(page, err, b"script: longer than ", bound, b"\n");
            7
        }
        ScriptFault::Line { number, why } => {
            say_number(page, err, b"script: line ", number, why_ending(why));
            7
        }
    }
}

/// Says after how many operations of the start, or of a request, a register failed, by way of an empty page.
#[tactic(auto, unfolding(pw_text::specs::Lines::line_of))]
pub fn say_register<K: Sink>(page: &mut Page, err: &mut K, done: u32)
    requires { page.old ≡ [] }
    ensures keeps { KeepsSink K.told K.faults err.old err.new }
    ensures line { GrewByLine (sink_seen K.Sink err.old) (sink_seen K.Sink err.new) (register_line done) }
{
    say_number(page, err, b"register fault after ", done, b"\n");
}
