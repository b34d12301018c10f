ghost use Rattle.std.specs.Prelude.{◌≡◌, ◌++◌, [], is_ok, true};
ghost use Rattle.std.specs.Prelude.{Err, OnOk};
ghost use Rattle.std.specs.List.{flat_map};
ghost use Rattle.pw_base.specs.Outside.{GrewByPart, KeepsSink, Rose};
ghost use Rattle.pw_text.specs.Puts.{PutsText};
ghost use Rattle.pw_text.specs.declared.fault.PrintFault.TheVariants as faults;
ghost use Rattle.pw_findings.specs.Words.{count_line, finding_line, findings_text};

use crate::finding::Finding;
use crate::telling::put_kind;
use pw_base::{Failed, Sink};
use pw_text::{Page, PrintFault, put_number, put_place};
use std::alloc::Global;

/// Puts the line of a finding.
fn put_finding<K: Sink>(page: &mut Page, sink: &mut K, finding: &Finding) -> Result<(), Failed>
    ensures { PutsText K.Sink sink.old sink.new page.old page.new
        (finding_line finding.now) (is_ok result) }
{
    put_place(page, sink, finding.path.segs.as_slice())?;
    put_kind(page, sink, &finding.kind)?;
    page.put(sink, b"\n")
}

/// Puts the lines of findings, in order.
fn put_findings<K: Sink>(page: &mut Page, sink: &mut K, findings: &[Finding]) -> Result<(), Failed>
    ensures { PutsText K.Sink sink.old sink.new page.old page.new
        (flat_map finding_line findings.now) (is_ok result) }
{
    for finding in findings {
        put_finding(page, sink, finding)?;
    }
    Ok(())
}

/// Puts the line that says how many findings there are.
fn put_finding_count<K: Sink>(page: &mut Page, sink: &mut K, count: usize) -> Result<(), Failed>
    ensures { PutsText K.Sink sink.old sink.new page.old page.new
        (count_line count) (is_ok result) }
{
    page.put(sink, b"findings ")?;
    put_number(page, sink, count as u64)?;
    page.put(sink, b"\n")
}

/// Puts all lines, and hands all of them to the sink.
fn put_whole<K: Sink>(page: &mut Page, sink: &mut K, findings: &[Finding]) -> Result<(), Failed>
    ensures text { PutsText K.Sink sink.old sink.new page.old page.new
        (findings_text findings.now) (is_ok result) }
    ensures empty { OnOk result (page.new ≡ []) }
{
    put_findings(page, sink, findings)?;
    put_finding_count(page, sink, findings.len())?;
    page.flush(sink)
}

/// Puts what `lint` prints of findings: a line for each, with the path of its object, its code and what it
/// says, and one for their number. Memory is taken before the sink sees a byte.
pub fn print_findings<K: Sink>(
    alloc: Global,
    findings: &[Finding],
    out: &mut K,
) -> Result<(), PrintFault>
    ensures keeps { KeepsSink K.told K.faults out.old out.new }
    ensures whole { OnOk result (K.told out.old ≡ true →
        K.written out.new ≡ K.written out.old ++ findings_text findings.now) }
    // Whatever fails, the sink has a beginning of the text.
    ensures part { K.told out.old ≡ true →
        GrewByPart (K.written out.old) (K.written out.new) (findings_text findings.now) }
    ensures sink { result ≡ Err faults.Sink → Rose (K.faults out.old) (K.faults out.new) }
    ensures memory { result ≡ Err faults.Memory → out.new ≡ out.old }
{
    let mut page = Page::new(alloc)?;
    put_whole(&mut page, out, findings)?;
    Ok(())
}
