ghost use Rattle.std.specs.Prelude.{◌≡◌, ◌≤◌, ◌<◌, ◌++◌, IfOk, OnOk};
ghost use Rattle.pw_plan.specs.declared.request.Request.TheVariants.{Idle};
ghost use Rattle.pw_model.specs.States.{any_latency};
ghost use Rattle.pw_generate.specs.Loads.{load_line, load_request, machine_load, round_lines};

use crate::tables::{CPUS_EACH, MOST_CONTAINERS};
use pw_base::{List, Memory};
use pw_plan::{ANY_LATENCY, Request};
use pw_script::{Line, Script};
use std::alloc::Global;

/// How many processors a machine that is generated has at most.
const MOST_CPUS: u32 = CPUS_EACH * MOST_CONTAINERS;

/// To go idle in this state, bearing any latency.
#[tactic(auto, unfolding(pw_model::specs::States::any_latency))]
fn idle(cpu: u32, state: u32) -> Request
    ensures { result ≡ Idle cpu state any_latency }
{
    Request::Idle {
        cpu,
        state,
        tolerance: ANY_LATENCY,
    }
}

/// What a processor asks for in a round.
#[tactic(auto, unfolding(crate::specs::Loads::load_request))]
fn request_in(round: u32, cpu: u32) -> Request
    requires { (round < MOST_CPUS) × (cpu < MOST_CPUS) }
    ensures { result ≡ load_request round cpu }
{
    let sum = cpu + round;
    match (5 * cpu + 3 * round) % 8 {
        0 => idle(cpu, 1 + sum % 3),
        1 => Request::Wake { cpu },
        2 => Request::Perf {
            cpu,
            index: sum % 5,
        },
        3 => Request::PerfLimit { cpu, n: sum % 4 },
        4 => idle(cpu, 3),
        5 => Request::Perf { cpu, index: 3 },
        6 => Request::PerfLimit { cpu, n: 0 },
        _ => idle(cpu, 4),
    }
}

/// Appends the lines of a round, processor by processor.
fn push_round(cpus: u32, round: u32, lines: &mut Vec<Line>) -> Result<(), Memory>
    requires { (cpus ≤ MOST_CPUS) × (round < cpus) }
    ensures { OnOk result (lines.new.items ≡ lines.old.items ++ round_lines cpus round) }
{
    for cpu in 0..cpus {
        lines.push(Line {
            number: cpus * round + cpu + 1,
            request: request_in(round, cpu),
        })?;
    }
    Ok(())
}

/// The script for the machine of so many containers: as many rounds as it has processors, in each of
/// which every processor asks for something.
#[tactic(auto, unfolding(crate::specs::Loads::machine_load))]
pub fn generate_script(alloc: Global, n: u32) -> Result<Script, Memory>
    requires { n ≤ MOST_CONTAINERS }
    ensures { IfOk result (λ script. script ≡ machine_load n) }
{
    let cpus = CPUS_EACH * n;
    let mut lines = Vec::with_capacity(alloc, (cpus * cpus) as usize)?;
    for round in 0..cpus {
        push_round(cpus, round, &mut lines)?;
    }
    Ok(Script {
        lines: List::from_vec(lines),
    })
}
