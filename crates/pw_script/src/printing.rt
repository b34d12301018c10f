ghost use Rattle.std.specs.Prelude.{◌≡◌, ◌++◌, true, Err, IfSome, OnOk};
ghost use Rattle.std.specs.List.{AllByRecursion};
ghost use Rattle.pw_base.specs.Outside.{GrewByPart, KeepsSink, Rose};
ghost use Rattle.pw_text.specs.declared.fault.PrintFault.TheVariants as faults;
ghost use Rattle.pw_model.specs.History.{StatesRequest, replies};
ghost use Rattle.pw_script.specs.HistoryText.{history_text};

use crate::kind::Power;
use pw_base::Sink;
use pw_model::{HistoryEntry, Reply};
use pw_plan::Plan;
use pw_text::PrintFault;
use std::alloc::Global;

/// Prints the text of a history as `print_history` does, with the replies to its entries where they are
/// known: then, unless a register failed, they aren't worked out again.
pub fn print_known<K: Sink>(
    alloc: Global,
    plan: &Plan,
    opening: Option<u32>,
    entries: &[HistoryEntry],
    known: Option<&[Reply]>,
    out: &mut K,
) -> Result<(), PrintFault>
    requires entries { AllByRecursion (StatesRequest plan.now) entries.now }
    requires known { IfSome known (λ told. told.now ≡ replies plan.now entries.now) }
    ensures keeps { KeepsSink K.told K.faults out.old out.new }
    ensures whole { OnOk result (K.told out.old ≡ true →
        K.written out.new ≡ K.written out.old ++ history_text plan.now opening entries.now) }
    // Whatever fails, the sink has a beginning of the text.
    ensures part { K.told out.old ≡ true →
        GrewByPart (K.written out.old) (K.written out.new) (history_text plan.now opening entries.now) }
    ensures sink { result ≡ Err faults.Sink → Rose (K.faults out.old) (K.faults out.new) }
    ensures memory { result ≡ Err faults.Memory → out.new ≡ out.old }
{
    pw_history::print_history::<Power, K>(alloc, plan, opening, entries, known, out)
}

/// Prints the text of a history: the opening with its operations, and each entry with its reply and its
/// operations. `opening` is how many operations were done where the opening was ended by a fault. Memory is
/// taken before the sink sees a byte.
pub fn print_history<K: Sink>(
    alloc: Global,
    plan: &Plan,
    opening: Option<u32>,
    entries: &[HistoryEntry],
    out: &mut K,
) -> Result<(), PrintFault>
    requires { AllByRecursion (StatesRequest plan.now) entries.now }
    ensures keeps { KeepsSink K.told K.faults out.old out.new }
    ensures whole { OnOk result (K.told out.old ≡ true →
        K.written out.new ≡ K.written out.old ++ history_text plan.now opening entries.now) }
    // Whatever fails, the sink has a beginning of the text.
    ensures part { K.told out.old ≡ true →
        GrewByPart (K.written out.old) (K.written out.new) (history_text plan.now opening entries.now) }
    ensures sink { result ≡ Err faults.Sink → Rose (K.faults out.old) (K.faults out.new) }
    ensures memory { result ≡ Err faults.Memory → out.new ≡ out.old }
{
    pw_history::print_history::<Power, K>(alloc, plan, opening, entries, None, out)
}
