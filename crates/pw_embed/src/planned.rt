ghost use Rattle.std.specs.Prelude.{◌≡◌};
ghost use Rattle.pw_plan.specs.Requests.{opening_bound};
ghost use Rattle.pw_embed.specs.Planned.{counts_of, cpu_numbers, idle_code, ToldCpu};

use crate::blocks::Blocks;
use crate::paths::{path_length, write_path};
use crate::status::Status;
use acpi_values::{IdleKind, IdleTable};
use pw_plan::{CpuParts, DomainKind, Plan, in_32_bits};

/// Blocks with the plan that was made of them.
#[derive(Drop)]
pub struct Planned {
    pub blocks: Blocks,
    pub plan: Plan,
    /// How many notes there are of the plan.
    pub notes: u32,
}

/// How many there are of each part of a plan.
#[repr(C)]
#[derive(Clone, Copy)]
pub struct Counts {
    pub containers: u32,
    pub cpus: u32,
    pub domains: u32,
    pub groups: u32,
    pub notes: u32,
    /// How many operations there are at the start, at most.
    pub opening: u32,
}

/// What a processor has.
#[repr(C)]
#[derive(Clone, Copy)]
pub struct CpuNumbers {
    /// 0 no idle states, 1 those of `_LPI`, 2 those of `_CST`.
    pub idle_kind: u32,
    pub idle_states: u32,
    pub perf_states: u32,
    pub throttle_states: u32,
}

/// Counts the parts of a plan with so many notes.
pub fn count(plan: &Plan, notes: u32) -> Counts
    ensures { result ≡ counts_of plan.now notes }
{
    Counts {
        containers: in_32_bits(plan.containers.as_slice().len()),
        cpus: in_32_bits(plan.cpus.as_slice().len()),
        domains: in_32_bits(plan.domains.as_slice().len()),
        groups: in_32_bits(plan.groups.as_slice().len()),
        notes,
        opening: plan.opening_bound(),
    }
}

/// The number of a kind of idle states.
fn idle_code(table: &IdleTable) -> u32
    ensures { result ≡ idle_code table.now.kind }
{
    match table.kind {
        IdleKind::Absent => 0,
        IdleKind::Lpi => 1,
        IdleKind::Cst => 2,
    }
}

/// The numbers of a processor.
fn numbers(cpu: &CpuParts) -> CpuNumbers
    ensures { result ≡ cpu_numbers cpu.now }
{
    CpuNumbers {
        idle_kind: idle_code(&cpu.idle),
        idle_states: in_32_bits(cpu.idle.states().len()),
        perf_states: in_32_bits(cpu.state_count(DomainKind::Perf)),
        throttle_states: in_32_bits(cpu.state_count(DomainKind::Throttle)),
    }
}

/// Tells of a processor of the plan, with its path, where there is room for it.
#[tactic(auto, unfolding(crate::specs::Planned::ToldCpu))]
pub fn tell_cpu(
    plan: &Plan,
    cpu: u32,
    told: &mut CpuNumbers,
    path: &mut [u8],
    length: &mut usize,
) -> Status
    ensures { ToldCpu plan.now cpu (told.old, path.old, length.old) (told.new, path.new, length.new) result }
{
    let Some(parts) = plan.cpus.as_slice().get(cpu as usize) else {
        return Status::Range;
    };
    let segs = parts.path.segs.as_slice();
    *length = path_length(segs);
    if path.len() < *length {
        return Status::Room;
    }
    write_path(segs, path);
    *told = numbers(parts);
    Status::Done
}
