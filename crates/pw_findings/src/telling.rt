ghost use Rattle.std.specs.Prelude.{◌≡◌, is_ok};
ghost use Rattle.pw_text.specs.Puts.{PutsText};
ghost use Rattle.pw_findings.specs.Words.{behind, cpc_words, cst_words, device_words, entry_words};
ghost use Rattle.pw_findings.specs.Words.{idle_words};
ghost use Rattle.pw_findings.specs.Words.{kind_words, object_words, parent_words};
ghost use Rattle.pw_findings.specs.declared.finding.OfCst.TheVariants.{PowerRises};
ghost use Rattle.pw_findings.specs.declared.finding.OfParent.TheVariants.{Overflows, Past};

use crate::finding::{FindingKind, OfCpc, OfCst, OfDevice, OfEntry, OfIdle, OfObject, OfParent};
use crate::putting::{Word, put_words};
use crate::telling_domains::{put_declared, put_member};
use crate::telling_states::{put_control, put_limit, put_rate, put_scale};
use crate::words::Name;
use aml_data::FullPath;
use pw_base::{Failed, Sink};
use pw_text::Page;

/// Puts what is amiss with an object.
fn put_object<K: Sink>(page: &mut Page, sink: &mut K, amiss: &OfObject) -> Result<(), Failed>
    ensures { PutsText K.Sink sink.old sink.new page.old page.new
        (behind (object_words amiss.now)) (is_ok result) }
{
    match amiss {
        OfObject::Meaningless { place, why } => put_words(
            page,
            sink,
            &[
                Word::Text(b"W-OBJECT"),
                Word::Place(*place),
                Word::Name(Name::Why(*why)),
            ],
        ),
        OfObject::PastLimit { which, number } => put_words(
            page,
            sink,
            &[
                Word::Text(b"U-LARGE has"),
                Word::Number(*number),
                Word::Name(Name::Bounded(*which)),
            ],
        ),
        OfObject::Unused(why) => put_words(page, sink, &[Word::Name(Name::Unused(*why))]),
    }
}

/// Puts what is amiss with a container or a processor as a device.
fn put_device<K: Sink>(page: &mut Page, sink: &mut K, amiss: &OfDevice) -> Result<(), Failed>
    ensures { PutsText K.Sink sink.old sink.new page.old page.new
        (behind (device_words amiss.now)) (is_ok result) }
{
    match amiss {
        OfDevice::NotPresent { status } => put_words(
            page,
            sink,
            &[
                Word::Text(b"U-STA-ABSENT isn't present by its _STA of"),
                Word::Long(*status),
                Word::Text(b"and is counted"),
            ],
        ),
        OfDevice::NotEnabled { status } => put_words(
            page,
            sink,
            &[
                Word::Text(b"U-STA-DISABLED is present and not enabled by its _STA of"),
                Word::Long(*status),
                Word::Text(b"and is counted"),
            ],
        ),
        OfDevice::NoUid => put_words(page, sink, &[Word::Text(b"W-UID-NONE has no _UID")]),
        OfDevice::SameUid { uid, earlier } => put_words(
            page,
            sink,
            &[
                Word::Text(b"W-UID-TWICE has _UID"),
                Word::Long(*uid),
                Word::Text(b"as"),
                Word::Path(earlier),
            ],
        ),
    }
}

/// Puts what is amiss with idle states.
fn put_idle<K: Sink>(page: &mut Page, sink: &mut K, amiss: &OfIdle) -> Result<(), Failed>
    ensures { PutsText K.Sink sink.old sink.new page.old page.new
        (behind (idle_words amiss.now)) (is_ok result) }
{
    match amiss {
        OfIdle::LatencyFalls {
            state,
            latency,
            before,
        } => put_words(
            page,
            sink,
            &[
                Word::Text(b"U-IDLE-LATENCY wakes from idle state"),
                Word::Count(*state),
                Word::Text(b"in"),
                Word::Number(*latency),
                Word::Text(b"us, and from the one before it in"),
                Word::Number(*before),
            ],
        ),
        OfIdle::ResidencyFalls {
            state,
            residency,
            before,
        } => put_words(
            page,
            sink,
            &[
                Word::Text(b"U-LPI-RESIDENCY wants"),
                Word::Number(*residency),
                Word::Text(b"us in idle state"),
                Word::Count(*state),
                Word::Text(b"and in the one before it"),
                Word::Number(*before),
            ],
        ),
    }
}

/// Puts that a C state takes more power than the one before it.
fn put_costlier<K: Sink>(
    page: &mut Page,
    sink: &mut K,
    state: usize,
    power: u32,
    before: u32,
) -> Result<(), Failed>
    ensures { PutsText K.Sink sink.old sink.new page.old page.new
        (behind (cst_words (PowerRises state power before))) (is_ok result) }
{
    let words = [
        Word::Text(b"U-CST-POWER takes"),
        Word::Number(power),
        Word::Text(b"mW in C state"),
        Word::Count(state),
        Word::Text(b"and in the one before it"),
        Word::Number(before),
    ];
    put_words(page, sink, &words)
}

/// Puts what is amiss with C states.
fn put_cst<K: Sink>(page: &mut Page, sink: &mut K, amiss: &OfCst) -> Result<(), Failed>
    ensures { PutsText K.Sink sink.old sink.new page.old page.new
        (behind (cst_words amiss.now)) (is_ok result) }
{
    match amiss {
        OfCst::NoC1 { kind } => put_words(
            page,
            sink,
            &[
                Word::Text(b"U-CST-C1 has no C1: C state 1 is of type"),
                Word::Byte(*kind),
            ],
        ),
        OfCst::TypeFalls {
            state,
            kind,
            before,
        } => put_words(
            page,
            sink,
            &[
                Word::Text(b"U-CST-TYPE has C state"),
                Word::Count(*state),
                Word::Text(b"of type"),
                Word::Byte(*kind),
                Word::Text(b"and the one before it of type"),
                Word::Byte(*before),
            ],
        ),
        OfCst::PowerRises {
            state,
            power,
            before,
        } => put_costlier(page, sink, *state, *power, *before),
    }
}

/// Puts what is amiss with how idle states are entered, or with how many there are.
fn put_entry<K: Sink>(page: &mut Page, sink: &mut K, amiss: &OfEntry) -> Result<(), Failed>
    ensures { PutsText K.Sink sink.old sink.new page.old page.new
        (behind (entry_words amiss.now)) (is_ok result) }
{
    match amiss {
        OfEntry::NullState { state } => put_words(
            page,
            sink,
            &[
                Word::Text(b"W-CST-REGISTER has the null register for C state"),
                Word::Count(*state),
            ],
        ),
        OfEntry::IntegerState { state } => put_words(
            page,
            sink,
            &[
                Word::Text(b"U-LPI-INTEGER has an integer for the entry of idle state"),
                Word::Count(*state),
            ],
        ),
        OfEntry::OtherCount {
            count,
            first,
            there,
        } => put_words(
            page,
            sink,
            &[
                Word::Text(b"U-CST-STATES has"),
                Word::Count(*count),
                Word::Text(b"C states, and"),
                Word::Path(first),
                Word::Text(b"has"),
                Word::Count(*there),
            ],
        ),
    }
}

/// Puts that a state enables one that the container doesn't have.
fn put_past<K: Sink>(
    page: &mut Page,
    sink: &mut K,
    state: usize,
    enables: u32,
    parent: &FullPath,
    count: usize,
) -> Result<(), Failed>
    ensures { PutsText K.Sink sink.old sink.new page.old page.new
        (behind (parent_words (Past state enables parent.now count))) (is_ok result) }
{
    let words = [
        Word::Text(b"W-LPI-PARENT enables in idle state"),
        Word::Count(state),
        Word::Text(b"state"),
        Word::Number(enables),
        Word::Text(b"of"),
        Word::Path(parent),
        Word::Text(b"which has"),
        Word::Count(count),
    ];
    put_words(page, sink, &words)
}

/// Puts that a state of the container adds too much to the number of a state, each with its number.
fn put_overflow<K: Sink>(
    page: &mut Page,
    sink: &mut K,
    below: (usize, u64),
    above: (usize, u64),
    parent: &FullPath,
) -> Result<(), Failed>
    ensures { PutsText K.Sink sink.old sink.new page.old page.new
        (behind (parent_words (Overflows below.0 below.1 above.0 parent.now above.1))) (is_ok result) }
{
    let (state, number) = below;
    let (enables, added) = above;
    let words = [
        Word::Text(b"W-LPI-SUM enters idle state"),
        Word::Count(state),
        Word::Text(b"at"),
        Word::Long(number),
        Word::Text(b"and enables state"),
        Word::Count(enables),
        Word::Text(b"of"),
        Word::Path(parent),
        Word::Text(b"which adds"),
        Word::Long(added),
        Word::Text(b"and ends past 64 bits"),
    ];
    put_words(page, sink, &words)
}

/// Puts what is amiss between idle states and those of the container around.
fn put_parent<K: Sink>(page: &mut Page, sink: &mut K, amiss: &OfParent) -> Result<(), Failed>
    ensures { PutsText K.Sink sink.old sink.new page.old page.new
        (behind (parent_words amiss.now)) (is_ok result) }
{
    match amiss {
        OfParent::Past {
            state,
            enables,
            parent,
            count,
        } => put_past(page, sink, *state, *enables, parent, *count),
        OfParent::Absent { state, enables } => put_words(
            page,
            sink,
            &[
                Word::Text(b"W-LPI-NOWHERE enables in idle state"),
                Word::Count(*state),
                Word::Text(b"state"),
                Word::Number(*enables),
                Word::Text(b"of a container, and is in none"),
            ],
        ),
        OfParent::Unreached { parent, count } => put_words(
            page,
            sink,
            &[
                Word::Text(b"U-LPI-NEVER never enables state"),
                Word::Count(*count),
                Word::Text(b"of"),
                Word::Path(parent),
            ],
        ),
        OfParent::Overflows {
            state,
            number,
            enables,
            parent,
            added,
        } => put_overflow(page, sink, (*state, *number), (*enables, *added), parent),
    }
}

/// Puts what is amiss with continuous performance control.
fn put_cpc<K: Sink>(page: &mut Page, sink: &mut K, amiss: &OfCpc) -> Result<(), Failed>
    ensures { PutsText K.Sink sink.old sink.new page.old page.new
        (behind (cpc_words amiss.now)) (is_ok result) }
{
    match amiss {
        OfCpc::Disorder {
            upper,
            number,
            lower,
            there,
        } => put_words(
            page,
            sink,
            &[
                Word::Text(b"W-CPC-ORDER has"),
                Word::Name(Name::Level(*lower)),
                Word::Long(*there),
                Word::Text(b"above"),
                Word::Name(Name::Level(*upper)),
                Word::Long(*number),
            ],
        ),
        OfCpc::NoRange => put_words(
            page,
            sink,
            &[Word::Text(
                b"U-CPC-RANGE gives its highest or lowest performance by a register, whose value isn't known",
            )],
        ),
        OfCpc::NoDesired => put_words(
            page,
            sink,
            &[Word::Text(b"W-CPC-DESIRED has no register for desired performance")],
        ),
    }
}

/// Puts the code of a finding, and what it says, behind a space.
pub(crate) fn put_kind<K: Sink>(
    page: &mut Page,
    sink: &mut K,
    kind: &FindingKind,
) -> Result<(), Failed>
    ensures { PutsText K.Sink sink.old sink.new page.old page.new
        (behind (kind_words kind.now)) (is_ok result) }
{
    match kind {
        FindingKind::Object(amiss) => put_object(page, sink, amiss),
        FindingKind::Device(amiss) => put_device(page, sink, amiss),
        FindingKind::Idle(amiss) => put_idle(page, sink, amiss),
        FindingKind::Cst(amiss) => put_cst(page, sink, amiss),
        FindingKind::Entry(amiss) => put_entry(page, sink, amiss),
        FindingKind::Parent(amiss) => put_parent(page, sink, amiss),
        FindingKind::Scale { kind, of } => put_scale(page, sink, *kind, of),
        FindingKind::Rate { kind, of } => put_rate(page, sink, *kind, of),
        FindingKind::Limit { kind, of } => put_limit(page, sink, *kind, of),
        FindingKind::Control { kind, of } => put_control(page, sink, *kind, of),
        FindingKind::Domain { domain, of } => put_declared(page, sink, *domain, of),
        FindingKind::Member { domain, of } => put_member(page, sink, *domain, of),
        FindingKind::Cpc(amiss) => put_cpc(page, sink, amiss),
    }
}
