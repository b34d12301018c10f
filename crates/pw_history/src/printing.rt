ghost use Rattle.std.specs.Prelude.{◌≡◌, ◌≤◌, ◌∷◌, ◌++◌, Err, IfOk, IfSome, OnOk, [], is_ok, is_some, length, map};
ghost use Rattle.std.specs.Prelude.{option_copied, true};
ghost use Rattle.std.specs.List.{AllByRecursion, flat_map};
ghost use Rattle.pw_base.specs.Outside.{GrewByPart, KeepsSink, Rose};
ghost use Rattle.pw_text.specs.Lines.{text_of};
ghost use Rattle.pw_text.specs.Puts.{PutsText};
ghost use Rattle.pw_text.specs.declared.fault.PrintFault.TheVariants as faults;
ghost use Rattle.pw_text.specs.Behind.{asked_head};
ghost use Rattle.pw_text.specs.HistoryText.{fault_words};
ghost use Rattle.pw_kind.specs.History.{after_entry, replies};
ghost use Rattle.pw_history.specs.HistoryText.{entry_lines, history_text, lines_from, op_line};
ghost use Rattle.pw_history.specs.HistoryText.{opening_lines, request_line};
ghost use Rattle.pw_history.specs.Paths.{ArePaths};
ghost use Rattle.pw_history.specs.inner.Known.{AreKnown, IsKnown, first_known, for_each, others_known};

use crate::kind::Kind;
use acpi_values::Op;
use pw_base::{Failed, Memory, Sink};
use pw_regs::Ops;
use pw_text::{Page, PathTexts, PrintFault, first_of, put_asker, put_fault, put_opened, put_ops};
use std::alloc::Global;

/// A plan with the texts of its processors' paths, which are made once.
#[derive(Drop)]
struct NamedPlan<'a, T: Kind> {
    plan: &'a T::Plan,
    paths: PathTexts,
    ghost named: { ArePaths T.words plan.now paths },
}

/// Puts the lines of operations that were done, in order.
fn put_done<T: Kind, K: Sink>(
    page: &mut Page,
    sink: &mut K,
    named: &NamedPlan<T>,
    ops: &[Op],
) -> Result<(), Failed>
    ensures { PutsText K.Sink sink.old sink.new page.old page.new
        (flat_map (λ o. op_line T.words named.now.plan.now o ++ (10 ∷ [])) ops.now) (is_ok result) }
{
    put_ops(page, sink, &named.paths, ops)
}

/// Puts the number of an entry, and what was asked.
fn put_head<T: Kind, K: Sink>(
    page: &mut Page,
    sink: &mut K,
    named: &NamedPlan<T>,
    number: u64,
    request: T::Request,
) -> Result<(), Failed>
    ensures { PutsText K.Sink sink.old sink.new page.old page.new
        (asked_head number (T.words.path named.now.plan.now (T.words.cpu request))
        (T.words.request_words request)) (is_ok result) }
{
    put_asker(page, sink, number, named.paths.path(T::cpu(request)))?;
    T::put_request(page, sink, request)?;
    page.put(sink, b" ->")
}

/// Puts the lines of an entry that was answered.
fn put_answered<T: Kind, K: Sink>(
    page: &mut Page,
    sink: &mut K,
    named: &NamedPlan<T>,
    number: u64,
    request: T::Request,
    reply: T::Reply,
    ops: &[Op],
) -> Result<(), Failed>
    ensures { PutsText K.Sink sink.old sink.new page.old page.new
        (text_of (request_line T.words named.now.plan.now number (T.words.cpu request) request
        (T.words.reply_words reply) ∷ map (op_line T.words named.now.plan.now) ops.now)) (is_ok result) }
{
    put_head::<T, K>(page, sink, named, number, request)?;
    T::put_reply(page, sink, reply)?;
    page.put(sink, b"\n")?;
    put_done::<T, K>(page, sink, named, ops)
}

/// Puts the lines of an entry that a fault ended after so many operations.
fn put_faulted<T: Kind, K: Sink>(
    page: &mut Page,
    sink: &mut K,
    named: &NamedPlan<T>,
    number: u64,
    request: T::Request,
    done: u32,
    ops: &[Op],
) -> Result<(), Failed>
    ensures { PutsText K.Sink sink.old sink.new page.old page.new
        (text_of (request_line T.words named.now.plan.now number (T.words.cpu request) request
        (fault_words done) ∷ map (op_line T.words named.now.plan.now) ops.now)) (is_ok result) }
{
    put_head::<T, K>(page, sink, named, number, request)?;
    put_fault(page, sink, done)?;
    page.put(sink, b"\n")?;
    put_done::<T, K>(page, sink, named, ops)
}

/// Puts the lines of an entry, with its reply where that is known, and keeps what follows of the state.
fn put_entry<T: Kind, K: Sink>(
    page: &mut Page,
    sink: &mut K,
    named: &NamedPlan<T>,
    kept: &mut T::Followed,
    ops: &mut Ops,
    number: u64,
    entry: &T::Entry,
    known: Option<T::Reply>,
) -> Result<(), Failed>
    requires entry { T.states named.now.plan.now entry.now }
    requires kept { (S : T.State) × T.keeps named.now.plan.now (is_some known) S kept.old
        × IsKnown T.words.kind named.now.plan.now S entry.now known }
    requires room { T.most named.now.plan.now ≤ ops.old.capacity }
    ensures text { (S : T.State) → T.keeps named.now.plan.now (is_some known) S kept.old
        → IsKnown T.words.kind named.now.plan.now S entry.now known
        → PutsText K.Sink sink.old sink.new page.old page.new
        (text_of (entry_lines T.words named.now.plan.now S number entry.now)) (is_ok result) }
    ensures after { (S : T.State) → T.keeps named.now.plan.now (is_some known) S kept.old
        → IsKnown T.words.kind named.now.plan.now S entry.now known
        → T.keeps named.now.plan.now (is_some known)
        (after_entry T.words.kind named.now.plan.now S entry.now) kept.new }
    ensures room { ops.new.capacity ≡ ops.old.capacity }
{
    let request = T::request(named.plan, entry);
    let fault = T::fault(entry);
    ops.clear();
    if fault == 0 {
        let reply = T::step(named.plan, kept, request, known, ops);
        return put_answered::<T, K>(page, sink, named, number, request, reply, ops.list());
    }
    T::operations(named.plan, kept, request, ops);
    let done = fault - 1;
    let ops = first_of(ops.list(), done);
    put_faulted::<T, K>(page, sink, named, number, request, done, ops)
}

/// The first of known replies.
#[inline]
fn first_known<R: Copy>(known: Option<&[R]>) -> Option<R>
    ensures { result ≡ first_known (option_copied known.entry) }
{
    match known {
        Some([reply, ..]) => Some(*reply),
        _ => None,
    }
}

/// Those behind it.
#[inline]
fn others_known<R: Copy>(known: Option<&[R]>) -> Option<&[R]>
    ensures { option_copied result ≡ others_known (option_copied known.entry) }
{
    match known {
        Some([_, rest @ ..]) => Some(rest),
        _ => known,
    }
}

/// Puts the lines of entries, numbered from 1, with the replies to all of them where these are known.
fn put_entries<T: Kind, K: Sink>(
    page: &mut Page,
    sink: &mut K,
    named: &NamedPlan<T>,
    kept: &mut T::Followed,
    ops: &mut Ops,
    entries: &[T::Entry],
    known: Option<&[T::Reply]>,
) -> Result<(), Failed>
    requires entries { AllByRecursion (T.states named.now.plan.now) entries.now }
    requires kept { T.keeps named.now.plan.now (is_some known)
        (T.words.kind.opening named.now.plan.now) kept.old }
    requires known { AreKnown T.words.kind named.now.plan.now (T.words.kind.opening named.now.plan.now)
        entries.now (option_copied known) }
    requires room { T.most named.now.plan.now ≤ ops.old.capacity }
    ensures { PutsText K.Sink sink.old sink.new page.old page.new
        (text_of (lines_from T.words named.now.plan.now (T.words.kind.opening named.now.plan.now) 1
        entries.now)) (is_ok result) }
{
    let mut left = entries;
    let mut replies = known;
    while let [entry, rest @ ..] = left {
        let number = (entries.len() - left.len()) as u64 + 1;
        put_entry::<T, K>(
            page,
            sink,
            named,
            kept,
            ops,
            number,
            entry,
            first_known(replies),
        )?;
        left = rest;
        replies = others_known(replies);
    }
    Ok(())
}

/// Puts the lines of the opening, which has these operations.
fn put_opening<T: Kind, K: Sink>(
    page: &mut Page,
    sink: &mut K,
    named: &NamedPlan<T>,
    opening: Option<u32>,
    ops: &[Op],
) -> Result<(), Failed>
    requires { ops.now ≡ T.words.opening_ops named.now.plan.now }
    ensures { PutsText K.Sink sink.old sink.new page.old page.new
        (text_of (opening_lines T.words named.now.plan.now opening)) (is_ok result) }
{
    put_opened(page, sink, &named.paths, opening, ops)
}

/// What printing takes memory for.
#[derive(Drop)]
struct Held<'a, T: Kind> {
    named: NamedPlan<'a, T>,
    page: Page,
    kept: T::Followed,
    ops: Ops,
}

/// A plan with its texts.
fn name<'a, T: Kind>(alloc: Global, plan: &'a T::Plan) -> Result<NamedPlan<'a, T>, Memory>
    ensures { IfOk result (λ named. named.plan.now ≡ plan.now) }
{
    Ok(NamedPlan {
        paths: T::paths(alloc, plan)?,
        plan,
    })
}

/// Takes it: the page is empty, and the opening is kept.
fn hold<'a, T: Kind>(alloc: Global, plan: &'a T::Plan, known: bool) -> Result<Held<'a, T>, Memory>
    ensures named { IfOk result (λ h. h.named.plan.now ≡ plan.now) }
    ensures page { IfOk result (λ h. h.page ≡ []) }
    ensures kept { IfOk result (λ h. T.keeps plan.now known (T.words.kind.opening plan.now) h.kept) }
    ensures none { IfOk result (λ h. h.ops.elements ≡ []) }
    ensures room { IfOk result (λ h. T.most plan.now ≤ h.ops.capacity) }
{
    Ok(Held {
        named: name::<T>(alloc, plan)?,
        page: Page::new(alloc)?,
        ops: Ops::new(alloc, T::most_operations(plan))?,
        kept: T::open(alloc, plan, known)?,
    })
}

/// Puts the text of a history, with the replies to all entries where these are known, by way of the page,
/// and hands all of it to the sink.
fn put_history<T: Kind, K: Sink>(
    held: &mut Held<T>,
    sink: &mut K,
    opening: Option<u32>,
    entries: &[T::Entry],
    known: Option<&[T::Reply]>,
) -> Result<(), Failed>
    requires entries { AllByRecursion (T.states held.old.named.plan.now) entries.now }
    requires kept { T.keeps held.old.named.plan.now (is_some known)
        (T.words.kind.opening held.old.named.plan.now) held.old.kept }
    requires known { AreKnown T.words.kind held.old.named.plan.now
        (T.words.kind.opening held.old.named.plan.now) entries.now (option_copied known) }
    requires none { held.old.ops.elements ≡ [] }
    requires room { T.most held.old.named.plan.now ≤ held.old.ops.capacity }
    ensures text { PutsText K.Sink sink.old sink.new held.old.page held.new.page
        (history_text T.words held.old.named.plan.now opening entries.now) (is_ok result) }
    ensures empty { OnOk result (held.new.page ≡ []) }
{
    let Held {
        named,
        page,
        kept,
        ops,
    } = held;
    T::open_all(named.plan, ops);
    put_opening::<T, K>(page, sink, named, opening, ops.list())?;
    put_entries::<T, K>(page, sink, named, kept, ops, entries, known)?;
    page.flush(sink)
}

/// The known replies where there is one for each entry: a fault has none.
fn for_each<'a, E, R>(entries: &[E], known: Option<&'a [R]>) -> Option<&'a [R]>
    ensures { option_copied result ≡ for_each (length entries.now) (option_copied known.entry) }
{
    match known {
        Some(replies) if replies.len() == entries.len() => known,
        _ => None,
    }
}

/// Prints the text of a history: the opening with its operations, and each entry with its reply and its
/// operations. `opening` is how many operations were done where the opening was ended by a fault. Where the
/// replies to the entries are known, and no register failed, none is worked out again. Memory is taken
/// before the sink sees a byte.
pub fn print_history<T: Kind, K: Sink>(
    alloc: Global,
    plan: &T::Plan,
    opening: Option<u32>,
    entries: &[T::Entry],
    known: Option<&[T::Reply]>,
    out: &mut K,
) -> Result<(), PrintFault>
    requires entries { AllByRecursion (T.states plan.now) entries.now }
    requires known { IfSome known (λ told. told.now ≡ replies T.words.kind plan.now entries.now) }
    ensures keeps { KeepsSink K.told K.faults out.old out.new }
    ensures whole { OnOk result (K.told out.old ≡ true → K.written out.new
        ≡ K.written out.old ++ history_text T.words plan.now opening entries.now) }
    // Whatever fails, the sink has a beginning of the text.
    ensures part { K.told out.old ≡ true → GrewByPart (K.written out.old) (K.written out.new)
        (history_text T.words plan.now opening entries.now) }
    ensures sink { result ≡ Err faults.Sink → Rose (K.faults out.old) (K.faults out.new) }
    ensures memory { result ≡ Err faults.Memory → out.new ≡ out.old }
{
    let known = for_each(entries, known);
    let mut held = hold::<T>(alloc, plan, known.is_some())?;
    let put = put_history::<T, K>(&mut held, out, opening, entries, known);
    drop(held);
    put?;
    Ok(())
}
