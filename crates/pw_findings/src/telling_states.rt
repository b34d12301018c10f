ghost use Rattle.std.specs.Prelude.{◌≡◌, is_ok};
ghost use Rattle.pw_text.specs.Puts.{PutsText};
ghost use Rattle.pw_findings.specs.declared.finding.OfControl.TheVariants.{PastAccess};
ghost use Rattle.pw_findings.specs.declared.finding.OfScale.TheVariants.{ControlRepeats};
ghost use Rattle.pw_findings.specs.Words.{behind, control_words, limit_words, rate_words, scale_words};

use crate::finding::{OfControl, OfLimit, OfRate, OfScale, Repeat};
use crate::putting::{Word, put_words};
use crate::words::Name;
use pw_base::{Failed, Sink};
use pw_plan::DomainKind;
use pw_text::Page;

/// Puts that two states have one control value.
fn put_alike<K: Sink>(
    page: &mut Page,
    sink: &mut K,
    kind: DomainKind,
    repeat: Repeat,
) -> Result<(), Failed>
    ensures { PutsText K.Sink sink.old sink.new page.old page.new
        (behind (scale_words kind (ControlRepeats repeat))) (is_ok result) }
{
    let words = [
        Word::Text(b"U-STATES-CONTROL has"),
        Word::State(kind, repeat.place),
        Word::Text(b"of control value"),
        Word::Number(repeat.number),
        Word::Text(b"as state"),
        Word::Count(repeat.earlier),
    ];
    put_words(page, sink, &words)
}

/// Puts what is amiss with performance or throttling states.
pub(crate) fn put_scale<K: Sink>(
    page: &mut Page,
    sink: &mut K,
    kind: DomainKind,
    amiss: &OfScale,
) -> Result<(), Failed>
    ensures { PutsText K.Sink sink.old sink.new page.old page.new
        (behind (scale_words kind amiss.now)) (is_ok result) }
{
    match amiss {
        OfScale::OneState => put_words(
            page,
            sink,
            &[
                Word::Text(b"U-STATES-ONE has one"),
                Word::Name(Name::States(kind)),
                Word::Text(b"state alone"),
            ],
        ),
        OfScale::NoDomain { other } => put_words(
            page,
            sink,
            &[
                Word::Text(b"U-DOMAIN-NONE has"),
                Word::Name(Name::States(kind)),
                Word::Text(b"states and no"),
                Word::Name(Name::Domains(kind)),
                Word::Text(b"while one stands at"),
                Word::Path(other),
            ],
        ),
        OfScale::ControlRepeats(repeat) => put_alike(page, sink, kind, *repeat),
        OfScale::NoLatency { state } => put_words(
            page,
            sink,
            &[
                Word::Text(b"U-STATES-LATENCY changes to"),
                Word::State(kind, *state),
                Word::Text(b"in 0 us"),
            ],
        ),
    }
}

/// Puts what is amiss with how fast states are.
pub(crate) fn put_rate<K: Sink>(
    page: &mut Page,
    sink: &mut K,
    kind: DomainKind,
    amiss: &OfRate,
) -> Result<(), Failed>
    ensures { PutsText K.Sink sink.old sink.new page.old page.new
        (behind (rate_words kind amiss.now)) (is_ok result) }
{
    match amiss {
        OfRate::Zero { state } => put_words(
            page,
            sink,
            &[
                Word::Text(b"W-STATES-ZERO has"),
                Word::State(kind, *state),
                Word::Text(b"of"),
                Word::Rate(kind, 0),
            ],
        ),
        OfRate::Rises {
            state,
            rate,
            before,
        } => put_words(
            page,
            sink,
            &[
                Word::Text(b"W-STATES-ORDER has"),
                Word::State(kind, *state),
                Word::Text(b"of"),
                Word::Rate(kind, *rate),
                Word::Text(b"and the one before it of"),
                Word::Number(*before),
            ],
        ),
        OfRate::Repeats(repeat) => put_words(
            page,
            sink,
            &[
                Word::Text(b"U-STATES-TWICE has"),
                Word::State(kind, repeat.place),
                Word::Text(b"of"),
                Word::Rate(kind, repeat.number),
                Word::Text(b"as state"),
                Word::Count(repeat.earlier),
            ],
        ),
    }
}

/// Puts what is amiss with limits of states.
pub(crate) fn put_limit<K: Sink>(
    page: &mut Page,
    sink: &mut K,
    kind: DomainKind,
    amiss: &OfLimit,
) -> Result<(), Failed>
    ensures { PutsText K.Sink sink.old sink.new page.old page.new
        (behind (limit_words kind amiss.now)) (is_ok result) }
{
    match amiss {
        OfLimit::Past { limit, count } => put_words(
            page,
            sink,
            &[
                Word::Text(b"W-LIMIT-PAST has"),
                Word::Count(*count),
                Word::Name(Name::States(kind)),
                Word::Text(b"states, and"),
                Word::Name(Name::Limit(kind)),
                Word::Text(b"is"),
                Word::Number(*limit),
            ],
        ),
        OfLimit::AtStart { limit } => put_words(
            page,
            sink,
            &[
                Word::Text(b"U-LIMIT-START may not use"),
                Word::Name(Name::States(kind)),
                Word::Text(b"states before state"),
                Word::Number(*limit),
                Word::Text(b"at the start"),
            ],
        ),
        OfLimit::Absent => put_words(
            page,
            sink,
            &[
                Word::Text(b"U-LIMIT-NONE has"),
                Word::Name(Name::States(kind)),
                Word::Text(b"states and no"),
                Word::Name(Name::Limit(kind)),
            ],
        ),
    }
}

/// Puts that the bits of a control register end behind those that an access takes.
fn put_wide<K: Sink>(
    page: &mut Page,
    sink: &mut K,
    kind: DomainKind,
    end: u32,
    room: u32,
) -> Result<(), Failed>
    ensures { PutsText K.Sink sink.old sink.new page.old page.new
        (behind (control_words kind (PastAccess end room))) (is_ok result) }
{
    let words = [
        Word::Text(b"W-REGISTER-WIDTH has in"),
        Word::Name(Name::Control(kind)),
        Word::Text(b"a control register of"),
        Word::Number(end),
        Word::Text(b"bits with its offset, where an access takes"),
        Word::Number(room),
    ];
    put_words(page, sink, &words)
}

/// Puts what is amiss with the registers of states.
pub(crate) fn put_control<K: Sink>(
    page: &mut Page,
    sink: &mut K,
    kind: DomainKind,
    amiss: &OfControl,
) -> Result<(), Failed>
    ensures { PutsText K.Sink sink.old sink.new page.old page.new
        (behind (control_words kind amiss.now)) (is_ok result) }
{
    match amiss {
        OfControl::Absent => put_words(
            page,
            sink,
            &[
                Word::Text(b"W-STATES-REGISTER has"),
                Word::Name(Name::States(kind)),
                Word::Text(b"states and no control register in"),
                Word::Name(Name::Control(kind)),
            ],
        ),
        OfControl::Shared => put_words(
            page,
            sink,
            &[
                Word::Text(b"U-REGISTER-SHARED has the control register of performance states in"),
                Word::Name(Name::Control(kind)),
                Word::Text(b"too"),
            ],
        ),
        OfControl::TwoSpaces { control, status } => put_words(
            page,
            sink,
            &[
                Word::Text(b"U-REGISTER-SPACES has in"),
                Word::Name(Name::Control(kind)),
                Word::Text(b"a control register in space"),
                Word::Byte(*control),
                Word::Text(b"and a status register in space"),
                Word::Byte(*status),
            ],
        ),
        OfControl::PastAccess { end, room } => put_wide(page, sink, kind, *end, *room),
    }
}
