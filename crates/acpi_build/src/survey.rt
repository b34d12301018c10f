use crate::fault::ObjectFault;
use crate::note::Note;
use pw_base::List;
use pw_plan::Plan;

/// What the objects that mean something make.
#[derive(Drop)]
pub enum Outcome {
    /// Their plan.
    Planned(Plan),
    /// They pass a limit of plans (`PlanFault::Limit`).
    PastLimit { which: u8, number: u32 },
}

/// All that objects tell of, where each that means nothing counts as absent.
#[derive(Drop)]
pub struct Survey {
    /// Those that mean nothing, in the order of containers, processors and names.
    pub faults: List<ObjectFault>,
    /// Notes of the others, and of the plan's domains.
    pub notes: List<Note>,
    pub outcome: Outcome,
}
