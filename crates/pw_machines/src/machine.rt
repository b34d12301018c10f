ghost use Rattle.std.specs.Prelude.{IfOk};
ghost use Rattle.pw_plan.specs.Parts.{PartsFit};

use crate::parts::Parts;
use crate::words::{u32_at, word_at};
use acpi_values::{IdleKind, IdleRow, IdleTable};
use aml_data::{FullPath, Seg};
use pw_base::List;
use pw_plan::{ContainerParts, CpuParts, Plan, PlanFault, parts_ok};
use std::alloc::Global;

/// What stands between a container or a processor and what it has.
const BAR: &str = " | ";

/// What stands in a line between what is asked and what must be told.
pub const ANSWER: &str = " -> ";

/// The containers and processors of a machine.
#[derive(Drop)]
struct Machine {
    containers: Vec<ContainerParts>,
    cpus: Vec<CpuParts>,
}

/// Why lines give no plan.
#[derive(Clone, Copy)]
pub enum NoPlan {
    /// They can't be read.
    Unread,
    /// Their containers and processors don't fit together.
    Unfit,
    Fault(PlanFault),
}

impl Machine {
    /// Reads a line: `container PARENT | PART | ..`, or the same of a `cpu`. The parent is a number, `-`
    /// for none, or `last` for the last container. A number behind it makes so many of them.
    fn read(&mut self, alloc: Global, line: &str) -> Option<()> {
        let (head, parts) = line.split_once(BAR).unwrap_or((line, ""));
        for _ in 0..u32_at(head, 2).unwrap_or(1) {
            self.add(alloc, head, parts)?;
        }
        Some(())
    }

    fn add(&mut self, alloc: Global, head: &str, parts: &str) -> Option<()> {
        let parent = self.parent_of(word_at(head, 1)?)?;
        match word_at(head, 0)? {
            "container" => self.add_container(parent, parts_of(alloc, parts)?),
            "cpu" => self.add_cpu(parent, parts_of(alloc, parts)?),
            _ => None,
        }
    }

    fn parent_of(&self, word: &str) -> Option<Option<u32>> {
        match word {
            "-" => Some(None),
            "last" => Some(u32::try_from(self.containers.len()).ok()?.checked_sub(1)),
            _ => Some(Some(word.parse::<u32>().ok()?)),
        }
    }

    fn add_container(&mut self, parent: Option<u32>, mut parts: Parts) -> Option<()> {
        parts.name(u32::try_from(self.containers.len()).ok()?)?;
        let Parts {
            segs,
            kind,
            rows,
            ..
        } = parts;
        self.containers
            .push(ContainerParts {
                path: path_of(segs),
                parent,
                idle: table_of(kind, rows),
            })
            .ok()
    }

    fn add_cpu(&mut self, parent: Option<u32>, mut parts: Parts) -> Option<()> {
        parts.name(u32::try_from(self.cpus.len()).ok()?)?;
        let Parts {
            segs,
            kind,
            rows,
            csd,
            perf,
            throttle,
        } = parts;
        self.cpus
            .push(CpuParts {
                path: path_of(segs),
                parent,
                idle: table_of(kind, rows),
                csd: List::from_vec(csd),
                perf,
                throttle,
                cpc: None,
            })
            .ok()
    }
}

fn parts_of(alloc: Global, parts: &str) -> Option<Parts> {
    let mut read = Parts::new(alloc);
    for part in parts.split(BAR) {
        read.put(alloc, part)?;
    }
    Some(read)
}

fn path_of(segs: Vec<Seg>) -> FullPath {
    FullPath {
        segs: List::from_vec(segs),
    }
}

fn table_of(kind: IdleKind, rows: Vec<IdleRow>) -> IdleTable {
    IdleTable {
        kind,
        rows: List::from_vec(rows),
    }
}

/// Reads the lines that aren't empty, nor comments, nor ask for something.
fn machine_of(alloc: Global, lines: &str) -> Option<Machine> {
    let mut machine = Machine {
        containers: Vec::new(alloc),
        cpus: Vec::new(alloc),
    };
    for line in lines.lines() {
        if !line.is_empty() && !line.starts_with("#") && !line.contains(ANSWER) {
            machine.read(alloc, line)?;
        }
    }
    Some(machine)
}

/// The plan of the machine that lines give. Empty lines, comments and lines that ask for something are
/// passed over.
pub fn plan_of(alloc: Global, lines: &str) -> Result<Plan, NoPlan>
    ensures { IfOk result (λ plan. PartsFit plan.containers plan.cpus) }
{
    let Some(Machine { containers, cpus }) = machine_of(alloc, lines) else {
        return Err(NoPlan::Unread);
    };
    if !parts_ok(containers.as_slice(), cpus.as_slice()) {
        return Err(NoPlan::Unfit);
    }
    Plan::new(alloc, containers, cpus).map_err(NoPlan::Fault)
}
