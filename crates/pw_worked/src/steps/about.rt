ghost use Rattle.std.specs.Prelude.{◌<◌, length};

use crate::steps::records::{Note, domain_record, group_record, node_record};
use acpi_values::Coord;
use pw_machines::{request_of, u32_at, word_at};
use pw_plan::{Child, Domain, DomainKind, Plan};
use std::alloc::Global;

/// What a line that is no request asks for: `plan`; `bound REQUEST`, `has REQUEST`, `opening bound`; of the
/// plan `domains`, `domain N`, `groups`, `group N`, `children N`; of a record `node record N`,
/// `domain record N`, `group record N`.
pub(crate) fn put_about(
    text: &mut String,
    alloc: Global,
    plan: &Plan,
    notes: &[Note],
    line: &str,
) -> Option<()> {
    let (key, rest) = line.split_once(" ").unwrap_or((line, ""));
    if let Some(number) = rest.strip_prefix("record ") {
        return put_record(text, alloc, plan, notes, key, number.parse::<u32>().ok()?);
    }
    match key {
        "plan" => text.push_str("made").ok(),
        "opening" => {
            let bound = plan.opening_bound();
            write!(text, "{bound}").ok()
        }
        "bound" => {
            let bound = plan.ops_bound(&request_of(rest)?);
            write!(text, "{bound}").ok()
        }
        "has" => {
            let has = plan.has(&request_of(rest)?);
            write!(text, "{has}").ok()
        }
        _ => put_part(text, plan, key, u32_at(line, 1)),
    }
}

/// A part of the plan, or with no number how many there are.
fn put_part(text: &mut String, plan: &Plan, key: &str, number: Option<u32>) -> Option<()> {
    match key {
        "domains" => put_count(text, plan.domains.as_slice().len()),
        "groups" => put_count(text, plan.groups.as_slice().len()),
        "children" => put_children(text, plan, number?),
        "domain" => put_domain(text, plan.domains.as_slice().get(number? as usize)?),
        "group" => {
            let group = plan.groups.as_slice().get(number? as usize)?;
            put_numbers(text, "members", group.members.as_slice())
        }
        _ => None,
    }
}

fn put_count(text: &mut String, count: usize) -> Option<()> {
    write!(text, "{count}").ok()
}

/// A word, and numbers behind it.
fn put_numbers(text: &mut String, word: &str, numbers: &[u32]) -> Option<()> {
    text.push_str(word).ok()?;
    for number in numbers {
        write!(text, " {number}").ok()?;
    }
    Some(())
}

fn put_children(text: &mut String, plan: &Plan, node: u32) -> Option<()> {
    if node as usize >= plan.containers.as_slice().len() {
        return None;
    }
    text.push_str("children").ok()?;
    for child in plan.children_of(node) {
        match *child {
            Child::Cpu(cpu) => write!(text, " cpu {cpu}").ok()?,
            Child::Container(below) => write!(text, " container {below}").ok()?,
        }
    }
    Some(())
}

/// `perf 3 SW_ANY members 1 3`, an idle domain with its index, and why it is unfit.
fn put_domain(text: &mut String, domain: &Domain) -> Option<()> {
    let (index, unfit) = (domain.index, domain.unfit);
    text.push_str(kind_text(domain.kind)).ok()?;
    match domain.number {
        None => text.push_str(" -").ok()?,
        Some(number) => write!(text, " {number}").ok()?,
    }
    let coord = coord_text(domain.coord);
    write!(text, " index {index} {coord} ").ok()?;
    put_numbers(text, "members", domain.members.as_slice())?;
    write!(text, " unfit {unfit}").ok()
}

fn kind_text(kind: DomainKind) -> &'static str {
    match kind {
        DomainKind::Perf => "perf",
        DomainKind::Throttle => "throttle",
        DomainKind::Idle => "idle",
    }
}

fn coord_text(coord: Coord) -> &'static str {
    match coord {
        Coord::SwAll => "SW_ALL",
        Coord::SwAny => "SW_ANY",
        Coord::HwAll => "HW_ALL",
    }
}

fn put_record(
    text: &mut String,
    alloc: Global,
    plan: &Plan,
    notes: &[Note],
    key: &str,
    number: u32,
) -> Option<()> {
    match key {
        "node" => put_node(text, alloc, plan, notes, number),
        "domain" => put_scaled(text, alloc, plan, notes, number),
        "group" => put_group(text, alloc, plan, notes, number),
        _ => None,
    }
}

/// The state and the tolerance of the container, and of each child.
fn put_node(
    text: &mut String,
    alloc: Global,
    plan: &Plan,
    notes: &[Note],
    node: u32,
) -> Option<()> {
    if node as usize >= plan.containers.as_slice().len() {
        return None;
    }
    let record = node_record(alloc, plan, notes, node)?;
    let (state, tolerance) = (record.state(), record.tolerance());
    write!(text, "state {state} bears {tolerance} children").ok()?;
    for child in 0..u32::try_from(plan.children_of(node).len()).ok()? {
        let (state, tolerance) = (record.child(child), record.child_tolerance(child));
        write!(text, " {state}:{tolerance}").ok()?;
    }
    Some(())
}

/// What each member asks for, its limit, and where it stands.
fn put_scaled(
    text: &mut String,
    alloc: Global,
    plan: &Plan,
    notes: &[Note],
    domain: u32,
) -> Option<()> {
    let shared = plan.domains.as_slice().get(domain as usize)?;
    if shared.kind == DomainKind::Idle {
        return None;
    }
    let record = domain_record(alloc, plan, notes, domain)?;
    text.push_str("members").ok()?;
    for member in 0..u32::try_from(shared.members.as_slice().len()).ok()? {
        let (ask, limit) = (record.own_ask(member), record.own_limit(member));
        let stands = record.standing(member);
        write!(text, " {ask}:{limit}:{stands}").ok()?;
    }
    Some(())
}

/// What each member votes for, and its C state.
fn put_group(
    text: &mut String,
    alloc: Global,
    plan: &Plan,
    notes: &[Note],
    group: u32,
) -> Option<()> {
    let joined = plan.groups.as_slice().get(group as usize)?;
    let record = group_record(alloc, plan, notes, group)?;
    text.push_str("members").ok()?;
    for member in 0..u32::try_from(joined.members.as_slice().len()).ok()? {
        let (vote, level) = (record.own_vote(member), record.c_state(plan, member));
        write!(text, " {vote}:{level}").ok()?;
    }
    Some(())
}
