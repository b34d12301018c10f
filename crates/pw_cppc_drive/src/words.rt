ghost use Rattle.std.specs.Prelude.{◌∷◌, ◌++◌, codes, decimal, is_ok};
ghost use Rattle.pw_text.specs.Puts.{PutsText};
ghost use Rattle.pw_text.specs.Behind.{behind};
ghost use Rattle.pw_cppc_drive.specs.HistoryText.{reply_words, request_words};

use pw_base::{Failed, Sink};
use pw_cppc::{CppcReply, CppcRequest};
use pw_text::{Page, put_decimal, put_labelled};

/// Puts what was asked behind its processor's path.
pub(crate) fn put_request<K: Sink>(
    page: &mut Page,
    sink: &mut K,
    request: CppcRequest,
) -> Result<(), Failed>
    ensures { PutsText K.Sink sink.old sink.new page.old page.new
        (behind (request_words request)) (is_ok result) }
{
    match request {
        CppcRequest::Desired { value, .. } => put_labelled(page, sink, b" desired ", value),
        CppcRequest::Minimum { value, .. } => put_labelled(page, sink, b" minimum ", value),
        CppcRequest::Maximum { value, .. } => put_labelled(page, sink, b" maximum ", value),
    }
}

/// Puts a performance behind a text.
fn put_performance<K: Sink>(
    page: &mut Page,
    sink: &mut K,
    label: &[u8],
    value: u64,
) -> Result<(), Failed>
    ensures { PutsText K.Sink sink.old sink.new page.old page.new
        (label.now ++ decimal value) (is_ok result) }
{
    page.put(sink, label)?;
    put_decimal(page, sink, value)
}

/// Puts that a value isn't from the lowest to the highest performance.
fn put_range<K: Sink>(
    page: &mut Page,
    sink: &mut K,
    lowest: u64,
    highest: u64,
) -> Result<(), Failed>
    ensures { PutsText K.Sink sink.old sink.new page.old page.new
        ((codes " refused out of range " ++ decimal lowest) ++ (32 ∷ decimal highest))
        (is_ok result) }
{
    put_performance(page, sink, b" refused out of range ", lowest)?;
    put_performance(page, sink, b" ", highest)
}

/// Puts what a request was answered.
pub(crate) fn put_reply<K: Sink>(
    page: &mut Page,
    sink: &mut K,
    reply: CppcReply,
) -> Result<(), Failed>
    ensures { PutsText K.Sink sink.old sink.new page.old page.new
        (behind (reply_words reply)) (is_ok result) }
{
    match reply {
        CppcReply::Stands { value } => put_performance(page, sink, b" stands ", value),
        CppcReply::NoTable => page.put(sink, b" refused no table"),
        CppcReply::Unfit { why } => put_performance(page, sink, b" refused unfit ", u64::from(why)),
        CppcReply::OutOfRange { lowest, highest } => put_range(page, sink, lowest, highest),
        CppcReply::Crossed { bound } => put_performance(page, sink, b" refused crossed ", bound),
    }
}
