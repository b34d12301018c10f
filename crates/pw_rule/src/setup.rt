use pw_plan::Plan;
use std::snapshot::Snapshot;

/// What was given to open: the plan, how many entries there may be, and the registers as they were.
#[derive(Drop)]
pub struct Setup<R> {
    pub plan: Plan,
    pub capacity: u64,
    pub regs: Snapshot<R>,
}
