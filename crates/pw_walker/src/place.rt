use acpi_values::Chain;
use pw_model::{Reply, Vote};
use pw_plan::Child;

/// A climb: the child whose vote is handed to the container around it.
#[derive(Clone, Copy)]
pub struct Climb {
    pub child: Child,
    pub vote: Vote,
    /// The states that the request came to so far, the processor's own first.
    pub chain: Chain,
    /// Whether the states of the containers so far were all above 0.
    pub rising: bool,
}

/// Where a request stands: all its records are held and it has its answer; or the record that comes
/// next, of a domain of performance or throttling, of a group, or of a container in a climb.
#[derive(Clone, Copy)]
pub enum Place {
    Over { reply: Reply },
    Scaled { domain: u32 },
    Grouped { group: u32 },
    Climbing { node: u32, climb: Climb },
}

/// What a child of a container voted before a request.
#[derive(Clone, Copy)]
pub struct OldVote {
    /// The child's place among the container's children.
    pub child: u32,
    pub vote: Vote,
}

/// What a member of a domain asked for before a request, or its limit.
#[derive(Clone, Copy)]
pub enum OldLevel {
    Ask { member: u32, index: u8 },
    Limit { member: u32, limit: u8 },
}

/// The state of the vote of a group's member before a request.
#[derive(Clone, Copy)]
pub struct OldState {
    pub member: u32,
    pub state: u8,
}
