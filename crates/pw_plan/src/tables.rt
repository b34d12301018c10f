ghost use Rattle.std.specs.Prelude.{◌≡◌, ◌<◌, ◌≤◌, ℕ, [], true, false, find, length, slice_index_or, AllPairs, IfOk};
ghost use Rattle.std.specs.Option.{option_map};
ghost use Rattle.acpi_values.specs.declared.dependency.CDependency.{CDependency as entry_parts};
ghost use Rattle.pw_plan.specs.Domains.{as_dependency};
ghost use Rattle.pw_plan.specs.Parts.{FitsCsd, cpu_in, is_entry};
ghost use Rattle.pw_plan.specs.inner.DomainList.{is_before};
ghost use Rattle.pw_plan.specs.inner.EntryTables.{AreTables, IsTable, entry_before, name_from};

use crate::domains::{DomainName, is_entry};
use crate::parts::CpuParts;
use crate::tree::cpu_in;
use acpi_values::{CDependency, Dependency};
use pw_base::{List, Memory};
use std::alloc::Global;

/// The entries of a processor's `_CSD`, by domain and index.
fn table_of(alloc: Global, cpu: &CpuParts) -> Result<List<CDependency>, Memory>
    requires { FitsCsd cpu.now }
    ensures { IfOk result (λ table. IsTable cpu.now.csd table) }
{
    let mut entries = Vec::from_slice(alloc, cpu.csd.as_slice())?;
    entries.sort_by_key(|entry| entry.index)?;
    entries.sort_by_key(|entry| entry.domain)?;
    Ok(List::from_vec(entries))
}

/// The entries of each processor's `_CSD`, by domain and index.
pub fn entry_tables(alloc: Global, cpus: &[CpuParts]) -> Result<List<List<CDependency>>, Memory>
    requires few { length cpus.now ≤ 256 }
    requires csd { (p : ℕ) → p < length cpus.now → FitsCsd (cpu_in cpus.now p) }
    ensures { IfOk result (λ tables. AreTables cpus.now tables) }
{
    let mut tables = Vec::new(alloc);
    for cpu in 0..cpus.len() {
        tables.push(table_of(alloc, cpu_in(cpus, cpu as u32))?)?;
    }
    Ok(List::from_vec(tables))
}

/// Those of one processor.
pub fn table_in<'a>(
    cpus: &[CpuParts],
    tables: &'a [List<CDependency>],
    cpu: u32,
) -> &'a [CDependency]
    requires cpu { cpu < length cpus.now }
    requires tables { AreTables cpus.now tables.now }
    ensures { IsTable (cpu_in cpus.now cpu).csd result.now }
{
    tables[cpu as usize].as_slice()
}

/// Whether an entry comes before those of a domain.
fn precedes(entry: &CDependency, name: DomainName) -> bool
    ensures { result ≡ is_before (name_from entry.now) name }
{
    entry.domain < name.number || (entry.domain == name.number && entry.index < name.index)
}

/// The place of the first entry that doesn't come before those of this domain.
fn place_of(name: DomainName, table: &[CDependency]) -> usize
    requires { AllPairs (λ e f. entry_before e f ≡ true) table.now }
    ensures below { (k : ℕ) (d : entry_parts) → k < result → k < length table.now
        → is_before (name_from (slice_index_or table.now k d)) name ≡ true }
    ensures above { (k : ℕ) (d : entry_parts) → result ≤ k → k < length table.now
        → is_before (name_from (slice_index_or table.now k d)) name ≡ false }
{
    table.partition_point(|entry| precedes(entry, name))
}

/// What the entries declare of this domain.
pub fn find_entry(name: DomainName, table: &[CDependency]) -> Option<Dependency>
    requires { AllPairs (λ e f. entry_before e f ≡ true) table.now }
    ensures { result ≡ option_map as_dependency (find (is_entry name.number name.index) table.now) }
{
    let place = place_of(name, table);
    if place < table.len() {
        let entry = table[place];
        if is_entry(name, &entry) {
            return Some(Dependency {
                domain: entry.domain,
                coord: entry.coord,
                processors: entry.processors,
            });
        }
    }
    None
}
