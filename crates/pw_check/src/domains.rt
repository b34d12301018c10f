ghost use Rattle.std.specs.Prelude.{◌≡◌, ◌∷◌, is_ok};
ghost use Rattle.pw_text.specs.Puts.{PutsText};
ghost use Rattle.pw_check.specs.Numbers.{numbered};
ghost use Rattle.pw_check.specs.CheckText.{declared_text, domain_line, fit_text, group_line, number_text};

use crate::names::{coord_name, kind_name};
use crate::words::{put_count, put_labelled, put_pair, put_word};
use pw_base::{Failed, Sink};
use pw_plan::{Domain, DomainKind, Group};
use pw_text::Page;

/// Puts the number that a domain's members declare behind a space.
fn put_declared<K: Sink>(
    page: &mut Page,
    sink: &mut K,
    kind: DomainKind,
    number: u32,
    index: u32,
) -> Result<(), Failed>
    ensures { PutsText K.Sink sink.old sink.new page.old page.new
        (32 ∷ declared_text kind number index) (is_ok result) }
{
    match kind {
        DomainKind::Perf => put_labelled(page, sink, b" ", number),
        DomainKind::Throttle => put_labelled(page, sink, b" ", number),
        DomainKind::Idle => put_pair(page, sink, b" ", number, index),
    }
}

/// Puts the number of a domain behind a space, or that it has none.
fn put_domain_number<K: Sink>(
    page: &mut Page,
    sink: &mut K,
    kind: DomainKind,
    number: Option<u32>,
    index: u32,
) -> Result<(), Failed>
    ensures { PutsText K.Sink sink.old sink.new page.old page.new
        (32 ∷ number_text kind number index) (is_ok result) }
{
    match number {
        None => page.put(sink, b" own"),
        Some(declared) => put_declared(page, sink, kind, declared, index),
    }
}

/// Puts whether the members of a domain agree, behind a space.
fn put_fit<K: Sink>(page: &mut Page, sink: &mut K, unfit: u8) -> Result<(), Failed>
    ensures { PutsText K.Sink sink.old sink.new page.old page.new
        (32 ∷ fit_text unfit) (is_ok result) }
{
    if unfit == 0 {
        return page.put(sink, b" fit");
    }
    put_labelled(page, sink, b" unfit ", u32::from(unfit))
}

/// Puts the line of the domain of this number.
fn put_domain<K: Sink>(
    page: &mut Page,
    sink: &mut K,
    number: usize,
    domain: &Domain,
) -> Result<(), Failed>
    ensures { PutsText K.Sink sink.old sink.new page.old page.new
        (domain_line number domain.now) (is_ok result) }
{
    put_count(page, sink, b"domain ", number)?;
    put_word(page, sink, kind_name(domain.kind))?;
    put_domain_number(page, sink, domain.kind, domain.number, domain.index)?;
    put_word(page, sink, coord_name(domain.coord))?;
    put_count(page, sink, b" members ", domain.members.as_slice().len())?;
    put_fit(page, sink, domain.unfit)?;
    page.put(sink, b"\n")
}

/// Puts the lines of domains, in order, numbered from 0.
pub fn put_domains<K: Sink>(page: &mut Page, sink: &mut K, domains: &[Domain]) -> Result<(), Failed>
    ensures { PutsText K.Sink sink.old sink.new page.old page.new
        (numbered domain_line 0 domains.now) (is_ok result) }
{
    let mut number = 0;
    let mut left = domains;
    while let [domain, rest @ ..] = left {
        put_domain(page, sink, number, domain)?;
        number += 1;
        left = rest;
    }
    Ok(())
}

/// Puts the line of the group of this number.
fn put_group<K: Sink>(
    page: &mut Page,
    sink: &mut K,
    number: usize,
    group: &Group,
) -> Result<(), Failed>
    ensures { PutsText K.Sink sink.old sink.new page.old page.new
        (group_line number group.now) (is_ok result) }
{
    put_count(page, sink, b"group ", number)?;
    put_count(page, sink, b" members ", group.members.as_slice().len())?;
    page.put(sink, b"\n")
}

/// Puts the lines of groups, in order, numbered from 0.
pub fn put_groups<K: Sink>(page: &mut Page, sink: &mut K, groups: &[Group]) -> Result<(), Failed>
    ensures { PutsText K.Sink sink.old sink.new page.old page.new
        (numbered group_line 0 groups.now) (is_ok result) }
{
    let mut number = 0;
    let mut left = groups;
    while let [group, rest @ ..] = left {
        put_group(page, sink, number, group)?;
        number += 1;
        left = rest;
    }
    Ok(())
}
