ghost use Rattle.std.specs.Prelude.{◌≡◌, []};
ghost use Rattle.pw_base.specs.Outside.{KeepsSink};
ghost use Rattle.pw_base.specs.Seen.{sink_seen, GrewByLine};
ghost use Rattle.pw_check.specs.Refusals.{refusal_line};
ghost use Rattle.pw_load.specs.Lines.{blocks_line};
ghost use Rattle.pw_load.specs.Steps.{fault_status, plan_status};

use crate::saying::{say_fault, say_refusal};
use crate::{read_fault, say, without_memory};
use acpi_build::BuildFault;
use aml_block::BlocksFault;
use pw_base::Sink;
use pw_text::Page;

/// Says why objects make no plan, by way of an empty page, and the status.
pub fn refuse_plan<K: Sink>(page: &mut Page, err: &mut K, fault: &BuildFault) -> u8
    requires { page.old ≡ [] }
    ensures keeps { KeepsSink K.told K.faults err.old err.new }
    ensures status { result ≡ plan_status fault.now }
    ensures line { GrewByLine (sink_seen K.Sink err.old) (sink_seen K.Sink err.new) (refusal_line fault.now) }
{
    say_refusal(page, err, fault);
    match fault {
        BuildFault::Object { .. } => 1,
        BuildFault::Limit { .. } => 1,
        BuildFault::Memory => 6,
    }
}

/// Says why the blocks weren't read, of which so many are named, by way of an empty page, and the status.
pub fn refuse<K: Sink>(page: &mut Page, err: &mut K, many: usize, fault: BlocksFault) -> u8
    requires { page.old ≡ [] }
    ensures keeps { KeepsSink K.told K.faults err.old err.new }
    ensures status { result ≡ fault_status fault }
    ensures line { GrewByLine (sink_seen K.Sink err.old) (sink_seen K.Sink err.new) (blocks_line many fault) }
{
    match fault {
        BlocksFault::Memory => without_memory(err),
        BlocksFault::ReadFault { .. } => read_fault(err),
        BlocksFault::Large => {
            say(err, b"blocks: larger than 16777216\n");
            1
        }
        BlocksFault::Block { number, fault } => {
            say_fault(page, err, many, number, fault);
            1
        }
    }
}
