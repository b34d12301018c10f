use pw_base::List;

/// What a processor or a container votes: the state in which it idles, 0 where it runs, and the wake
/// latency that it bears.
#[derive(Clone, Copy)]
pub struct Vote {
    /// Counted from 1, 0 where it runs.
    pub state: u8,
    /// In microseconds; 4294967295 bears any latency, as who runs does.
    pub tolerance: u32,
}

/// Votes, asks and limits: in each list one for each processor of a plan.
#[derive(Drop)]
pub struct State {
    pub votes: List<Vote>,
    /// The performance state that is asked for, counted from 0, the fastest. 0 without such states.
    pub perf_asks: List<u8>,
    /// The first performance state that may be used: `_PPC` (ACPI 6.5, 8.4.5.3).
    pub perf_limits: List<u8>,
    /// The throttling state that is asked for, counted from 0, the fastest. 0 without such states.
    pub throttle_asks: List<u8>,
    /// The first throttling state that may be used: `_TPC` (ACPI 6.5, 8.4.4.3).
    pub throttle_limits: List<u8>,
}

/// The states that asks and limits speak of.
#[derive(Clone, Copy)]
pub enum ScaleKind {
    /// Performance states: `_PSS` (ACPI 6.5, 8.4.5.2).
    Perf,
    /// Throttling states: `_TSS` (ACPI 6.5, 8.4.4.2).
    Throttle,
}

/// What an accepted request changes: one entry of one list, or nothing.
#[derive(Clone, Copy)]
pub enum Change {
    Nothing,
    Vote {
        cpu: u32,
        vote: Vote,
    },
    /// The state that a processor asks for.
    Ask {
        kind: ScaleKind,
        cpu: u32,
        index: u8,
    },
    /// The first state that a processor may use.
    Limit {
        kind: ScaleKind,
        cpu: u32,
        n: u8,
    },
}
