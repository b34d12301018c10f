use acpi_values::{Coord, Cpc, CpcEntry, Dependency, Register};
use aml_data::{FullPath, Seg};
use pw_base::List;
use pw_cppc::{CppcParts, CppcPlan, paths_differ};
use pw_machines::{number_at, u32_at, word_at};
use std::alloc::Global;

/// An element of `_CPC`: `-` for the integer 0, or the address of a register of 32 bits.
fn entry_at(line: &str, at: usize) -> Option<CpcEntry> {
    if word_at(line, at)? == "-" {
        return Some(CpcEntry::Number(0));
    }
    Some(CpcEntry::Register(Register {
        space: 0,
        width: 32,
        offset: 0,
        access: 3,
        address: number_at(line, at)?,
    }))
}

/// `COORD DOMAIN COUNT`, or three words for none.
fn dependency_of(line: &str) -> Option<Option<Dependency>> {
    let coord = match word_at(line, 3)? {
        "SW_ALL" => Coord::SwAll,
        "SW_ANY" => Coord::SwAny,
        "HW_ALL" => Coord::HwAll,
        _ => return Some(None),
    };
    Some(Some(Dependency {
        domain: u32_at(line, 4)?,
        coord,
        processors: u32_at(line, 5)?,
    }))
}

/// `cpu LOWEST HIGHEST COORD DOMAIN COUNT DESIRED MINIMUM MAXIMUM`, or `cpu -` for one without `_CPC`.
fn parts_of(alloc: Global, line: &str) -> Option<CppcParts> {
    if word_at(line, 1)? == "-" {
        return Some(CppcParts {
            cpc: None,
            dependency: None,
        });
    }
    let none = CpcEntry::Number(0);
    let entries = [
        CpcEntry::Number(number_at(line, 2)?),
        none,
        none,
        CpcEntry::Number(number_at(line, 1)?),
        none,
        entry_at(line, 6)?,
        entry_at(line, 7)?,
        entry_at(line, 8)?,
    ];
    Some(CppcParts {
        dependency: dependency_of(line)?,
        cpc: Some(Cpc {
            revision: 3,
            entries: List::from_vec(Vec::from_slice(alloc, &entries).ok()?),
        }),
    })
}

/// A path of one segment, which is another for each number below 676.
fn path_of(alloc: Global, number: usize) -> Option<FullPath> {
    let high = b'A' + (number / 26 % 26) as u8;
    let low = b'A' + (number % 26) as u8;
    let seg = Seg::new([b'C', high, low, b'_'])?;
    Some(FullPath {
        segs: List::from_vec(Vec::from_slice(alloc, &[seg]).ok()?),
    })
}

/// The plan of the processors that lines give, which are named by their numbers.
pub(crate) fn plan_of(alloc: Global, lines: &str) -> Option<CppcPlan> {
    let mut paths = Vec::new(alloc);
    let mut cpus = Vec::new(alloc);
    for line in lines.lines() {
        if line.starts_with("cpu ") {
            paths.push(path_of(alloc, paths.len())?).ok()?;
            cpus.push(parts_of(alloc, line)?).ok()?;
        }
    }
    if cpus.len() > 256 || paths.len() != cpus.len() || !paths_differ(paths.as_slice()) {
        return None;
    }
    CppcPlan::new(alloc, paths, cpus).ok()
}
