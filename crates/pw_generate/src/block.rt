ghost use Rattle.std.specs.Prelude.{◌≡◌, ◌≤◌, ◌<◌, ◌∷◌, [], ◌++◌, codes, length, map, IfOk, OnOk};
ghost use Rattle.std.specs.List.{range_with_len};
ghost use Rattle.aml_data.specs.declared.data.Data.TheVariants.{Text as string};
ghost use Rattle.aml_data.specs.Segment.{IsSegment};
ghost use Rattle.aml_block.specs.declared.term.Term.TheVariants.{Device as device};
ghost use Rattle.aml_block.specs.Written.{IsWritableBlock};
ghost use Rattle.acpi_idle.specs.Written.{lpi_object};
ghost use Rattle.acpi_perf.specs.Written.{control_object, domain_object, pss_object};
ghost use Rattle.pw_generate.specs.Machines.{container_objects, container_term, cpu_objects, cpu_term};
ghost use Rattle.pw_generate.specs.Machines.{from_here, from_root, machine_block, named};
ghost use Rattle.pw_generate.specs.Tables.{cpu_control, cpu_domain, cpu_idle, cpu_perf};

use crate::names::{container_seg, cpu_seg};
use crate::tables::{
    CPUS_EACH, MOST_CONTAINERS, block_header, container_lpi, control_pair, cpu_lpi, dependency,
    p_states,
};
use acpi_idle::write_lpi;
use acpi_perf::{write_control, write_dependency, write_pss};
use acpi_values::Lpi;
use aml_block::{Block, Term};
use aml_data::{Data, Path, Seg};
use pw_base::{CompactList, List, Memory};
use std::alloc::Global;

/// The path of one segment from where it stands.
fn relative(alloc: Global, seg: Seg) -> Result<Path, Memory>
    ensures { IfOk result (λ path. path ≡ from_here seg) }
{
    let segs = CompactList::from_slice(alloc, &[seg])?;
    Ok(Path {
        root: false,
        ups: 0,
        segs,
    })
}

/// The path from the root by one segment.
fn absolute(alloc: Global, seg: Seg) -> Result<Path, Memory>
    ensures { IfOk result (λ path. path ≡ from_root seg) }
{
    let segs = CompactList::from_slice(alloc, &[seg])?;
    Ok(Path {
        root: true,
        ups: 0,
        segs,
    })
}

/// A string.
fn text_of(alloc: Global, text: &[u8]) -> Result<Data, Memory>
    ensures { IfOk result (λ object. object ≡ string text.now) }
{
    Ok(Data::Text(CompactList::from_slice(alloc, text)?))
}

/// A device of this name, with these terms in it.
fn make_device(alloc: Global, seg: Seg, terms: Vec<Term>) -> Result<Term, Memory>
    ensures { IfOk result (λ term. term ≡ device (from_here seg) terms.items) }
{
    let path = relative(alloc, seg)?;
    Ok(Term::Device {
        path,
        terms: List::from_vec(terms),
    })
}

/// Appends an object of this name.
fn push_named(alloc: Global, terms: &mut Vec<Term>, seg: [u8; 4], value: Data) -> Result<(), Memory>
    requires { IsSegment seg }
    ensures { OnOk result (terms.new.items ≡ terms.old.items ++ named seg value ∷ []) }
{
    let path = relative(alloc, Seg::of_segment(seg))?;
    terms.push(Term::Name { path, value })?;
    Ok(())
}

/// Appends what a device of power management is, by its `_HID`, and its idle states.
fn push_idle(alloc: Global, terms: &mut Vec<Term>, kind: &[u8], idle: &Lpi) -> Result<(), Memory>
    requires { length idle.now.states ≤ 250 }
    ensures { OnOk result (terms.new.items ≡ terms.old.items ++ named (codes "_HID") (string kind.now)
        ∷ named (codes "_LPI") (lpi_object idle.now) ∷ []) }
{
    push_named(alloc, terms, *b"_HID", text_of(alloc, kind)?)?;
    push_named(alloc, terms, *b"_LPI", write_lpi(alloc, idle)?)
}

/// Appends the performance states of a processor of this container.
#[tactic(auto, unfolding(crate::specs::Tables::cpu_perf))]
fn push_perf(alloc: Global, terms: &mut Vec<Term>, container: u32) -> Result<(), Memory>
    ensures { OnOk result (terms.new.items ≡ terms.old.items ++ named (codes "_PSS") (pss_object cpu_perf)
        ∷ named (codes "_PCT") (control_object cpu_control)
        ∷ named (codes "_PSD") (domain_object (cpu_domain container)) ∷ []) }
{
    push_named(alloc, terms, *b"_PSS", write_pss(alloc, &p_states())?)?;
    push_named(
        alloc,
        terms,
        *b"_PCT",
        write_control(alloc, &control_pair())?,
    )?;
    let domain = write_dependency(alloc, &dependency(container))?;
    push_named(alloc, terms, *b"_PSD", domain)
}

/// The objects of a processor of this container, with these idle states.
#[tactic(auto, unfolding(crate::specs::Tables::cpu_idle))]
fn tables_of_cpu(alloc: Global, container: u32, idle: &Lpi) -> Result<Vec<Term>, Memory>
    requires { idle.now ≡ cpu_idle }
    ensures { IfOk result (λ terms. terms.items ≡ cpu_objects container) }
{
    let mut terms = Vec::with_capacity(alloc, 5)?;
    push_idle(alloc, &mut terms, b"ACPI0007", idle)?;
    push_perf(alloc, &mut terms, container)?;
    Ok(terms)
}

/// The objects of a container, without its processors.
#[tactic(auto, unfolding(crate::specs::Tables::container_idle))]
fn tables_of_container(alloc: Global) -> Result<Vec<Term>, Memory>
    ensures { IfOk result (λ terms. terms.items ≡ container_objects) }
{
    let idle = container_lpi(alloc)?;
    let mut terms = Vec::new(alloc);
    push_idle(alloc, &mut terms, b"ACPI0010", &idle)?;
    Ok(terms)
}

/// A processor of a container.
#[tactic(auto, unfolding(crate::specs::Machines::cpu_term))]
fn make_cpu(alloc: Global, container: u32, cpu: u32, idle: &Lpi) -> Result<Term, Memory>
    requires { idle.now ≡ cpu_idle }
    ensures { IfOk result (λ term. term ≡ cpu_term container cpu) }
{
    let terms = tables_of_cpu(alloc, container, idle)?;
    make_device(alloc, cpu_seg(cpu), terms)
}

/// A container, with its processors.
#[tactic(auto, unfolding(crate::specs::Machines::container_term))]
fn make_container(alloc: Global, container: u32, idle: &Lpi) -> Result<Term, Memory>
    requires few { container < MOST_CONTAINERS }
    requires idle { idle.now ≡ cpu_idle }
    ensures { IfOk result (λ term. term ≡ container_term container) }
{
    let mut terms = tables_of_container(alloc)?;
    let first = CPUS_EACH * container;
    for cpu in first..first + CPUS_EACH {
        terms.push(make_cpu(alloc, container, cpu, idle)?)?;
    }
    make_device(alloc, container_seg(container), terms)
}

/// So many containers.
fn make_containers(alloc: Global, n: u32) -> Result<List<Term>, Memory>
    requires { n ≤ MOST_CONTAINERS }
    ensures { IfOk result (λ terms. terms ≡ map container_term (range_with_len 0 n)) }
{
    let idle = cpu_lpi(alloc)?;
    let mut terms = Vec::new(alloc);
    for container in 0..n {
        terms.push(make_container(alloc, container, &idle)?)?;
    }
    Ok(List::from_vec(terms))
}

/// The definition block of a machine of so many containers, each of eight processors, which can be
/// written (ACPI 6.5, 8.4.2).
#[tactic(auto, unfolding(crate::specs::Machines::machine_block))]
pub fn generate_block(alloc: Global, n: u32) -> Result<Block, Memory>
    requires { n ≤ MOST_CONTAINERS }
    ensures value { IfOk result (λ block. block ≡ machine_block n) }
    ensures writable { IfOk result IsWritableBlock }
{
    let terms = make_containers(alloc, n)?;
    let path = absolute(alloc, Seg::of_segment(*b"_SB_"))?;
    let scope = Term::Scope { path, terms };
    Ok(Block {
        header: block_header(),
        terms: List::from_vec(vec![in alloc; scope]?),
    })
}
