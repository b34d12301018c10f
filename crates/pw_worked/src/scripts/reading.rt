ghost use Rattle.pw_notice.specs.Handling.{Handles};

use acpi_values::IdleTable;
use pw_governor::{Governor, deepest};
use pw_notice::{Handlers, follow, step};
use pw_plan::Plan;
use pw_script::{Script, ScriptFault, parse};
use std::alloc::Global;

/// A function that answers limits.
#[derive(Clone, Copy)]
pub(crate) enum Handler {
    Follow,
    Step,
}

/// A function that chooses idle states.
#[derive(Clone, Copy)]
pub(crate) enum Choice {
    Deepest,
    Nothing,
}

/// The functions that a script is read with.
#[derive(Clone, Copy)]
pub(crate) struct Functions {
    pub choice: Choice,
    pub perf: Handler,
    pub throttle: Handler,
}

// A function of another crate is passed in a closure, since its contract can't be seen where it is named
// alone.

/// What the bytes are read as, with these handlers and what this choice answers.
fn parse_by<P: Fn(u32, u32, u32) -> u32, T: Fn(u32, u32, u32) -> u32>(
    alloc: Global,
    bytes: &[u8],
    plan: &Plan,
    choice: Choice,
    handlers: &Handlers<P, T>,
) -> Result<Script, ScriptFault>
    requires perf { Handles (P.pre handlers.now.0) (P.post handlers.now.0) }
    requires throttle { Handles (T.pre handlers.now.1) (T.post handlers.now.1) }
{
    match choice {
        Choice::Deepest => {
            let governor = Governor::new(|table: &IdleTable, tolerance: u32, residency: u32| {
                deepest(table, tolerance, residency)
            });
            parse(alloc, bytes, plan, &governor, handlers)
        }
        Choice::Nothing => {
            let governor = Governor::new(|_table: &IdleTable, _tolerance: u32, _residency: u32| 0);
            parse(alloc, bytes, plan, &governor, handlers)
        }
    }
}

/// The same with this function for performance states.
fn parse_on<P: Fn(u32, u32, u32) -> u32>(
    alloc: Global,
    bytes: &[u8],
    plan: &Plan,
    functions: Functions,
    perf: P,
) -> Result<Script, ScriptFault>
    requires { Handles (P.pre perf) (P.post perf) }
{
    let choice = functions.choice;
    match functions.throttle {
        Handler::Follow => {
            let handlers = Handlers::new(perf, |count: u32, current: u32, value: u32| {
                follow(count, current, value)
            });
            parse_by(alloc, bytes, plan, choice, &handlers)
        }
        Handler::Step => {
            let handlers = Handlers::new(perf, |count: u32, current: u32, value: u32| {
                step(count, current, value)
            });
            parse_by(alloc, bytes, plan, choice, &handlers)
        }
    }
}

/// What the bytes are read as, with these functions.
pub(crate) fn parse_with(
    alloc: Global,
    bytes: &[u8],
    plan: &Plan,
    functions: Functions,
) -> Result<Script, ScriptFault> {
    match functions.perf {
        Handler::Follow => parse_on(
            alloc,
            bytes,
            plan,
            functions,
            |count: u32, current: u32, value: u32| follow(count, current, value),
        ),
        Handler::Step => parse_on(
            alloc,
            bytes,
            plan,
            functions,
            |count: u32, current: u32, value: u32| step(count, current, value),
        ),
    }
}
