ghost use Rattle.std.specs.Prelude.{◌≡◌, ◌++◌, codes, is_ok};
ghost use Rattle.std.specs.List.{flat_map};
ghost use Rattle.pw_text.specs.Puts.{PutsText};
ghost use Rattle.pw_plan.specs.Parts.{container_in};
ghost use Rattle.pw_check.specs.CheckText.{container_line, cpc_revision, cpu_line, parent_text};

use crate::names::table_name;
use crate::words::{put_count, put_labelled, put_named, put_word};
use aml_data::Seg;
use pw_base::{Failed, Sink};
use pw_plan::{ContainerParts, CpuParts, DomainKind};
use pw_text::Page;

/// The path of the container of this number.
#[tactic(auto, unfolding(pw_plan::specs::Parts::no_container))]
fn container_path(containers: &[ContainerParts], number: u32) -> &[Seg]
    ensures { result.now ≡ (container_in containers.now number).path.segs }
{
    match containers.get(number as usize) {
        None => &[],
        Some(container) => container.path.segs.as_slice(),
    }
}

/// Puts the path of the container around, or that there is none.
fn put_parent<K: Sink>(
    page: &mut Page,
    sink: &mut K,
    containers: &[ContainerParts],
    parent: Option<u32>,
) -> Result<(), Failed>
    ensures { PutsText K.Sink sink.old sink.new page.old page.new
        (codes " parent " ++ parent_text containers.now parent) (is_ok result) }
{
    match parent {
        None => page.put(sink, b" parent none"),
        Some(number) => put_named(page, sink, b" parent ", container_path(containers, number)),
    }
}

/// Puts the line of a container.
fn put_container<K: Sink>(
    page: &mut Page,
    sink: &mut K,
    containers: &[ContainerParts],
    container: &ContainerParts,
) -> Result<(), Failed>
    ensures { PutsText K.Sink sink.old sink.new page.old page.new
        (container_line containers.now container.now) (is_ok result) }
{
    put_named(page, sink, b"container ", container.path.segs.as_slice())?;
    put_parent(page, sink, containers, container.parent)?;
    put_count(page, sink, b" lpi ", container.idle.states().len())?;
    page.put(sink, b"\n")
}

/// Puts the lines of containers, in order.
pub fn put_containers<K: Sink>(
    page: &mut Page,
    sink: &mut K,
    containers: &[ContainerParts],
) -> Result<(), Failed>
    ensures { PutsText K.Sink sink.old sink.new page.old page.new
        (flat_map (container_line containers.now) containers.now) (is_ok result) }
{
    for container in containers {
        put_container(page, sink, containers, container)?;
    }
    Ok(())
}

/// The revision of a processor's `_CPC`, 0 where it has none.
fn revision_of(cpu: &CpuParts) -> u32
    ensures { result ≡ cpc_revision cpu.now.cpc }
{
    match &cpu.cpc {
        None => 0,
        Some(cpc) => u32::from(cpc.revision),
    }
}

/// Puts the line of a processor, whose parent is among these containers.
fn put_cpu<K: Sink>(
    page: &mut Page,
    sink: &mut K,
    containers: &[ContainerParts],
    cpu: &CpuParts,
) -> Result<(), Failed>
    ensures { PutsText K.Sink sink.old sink.new page.old page.new
        (cpu_line containers.now cpu.now) (is_ok result) }
{
    put_named(page, sink, b"processor ", cpu.path.segs.as_slice())?;
    put_parent(page, sink, containers, cpu.parent)?;
    page.put(sink, b" idle")?;
    put_word(page, sink, table_name(cpu.idle.kind))?;
    put_count(page, sink, b" ", cpu.idle.states().len())?;
    put_count(page, sink, b" perf ", cpu.state_count(DomainKind::Perf))?;
    put_count(
        page,
        sink,
        b" throttle ",
        cpu.state_count(DomainKind::Throttle),
    )?;
    put_labelled(page, sink, b" cpc ", revision_of(cpu))?;
    page.put(sink, b"\n")
}

/// Puts the lines of processors, in order, whose parents are among these containers.
pub fn put_cpus<K: Sink>(
    page: &mut Page,
    sink: &mut K,
    containers: &[ContainerParts],
    cpus: &[CpuParts],
) -> Result<(), Failed>
    ensures { PutsText K.Sink sink.old sink.new page.old page.new
        (flat_map (cpu_line containers.now) cpus.now) (is_ok result) }
{
    for cpu in cpus {
        put_cpu(page, sink, containers, cpu)?;
    }
    Ok(())
}
