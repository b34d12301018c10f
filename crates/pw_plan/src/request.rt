/// The tolerance that bears any wake latency.
pub const ANY_LATENCY: u32 = u32::MAX;

/// The most operations of one request: one for each processor of a domain or a group.
pub const MOST_OF_A_REQUEST: u32 = 256;

/// What a processor, or the platform in its name, asks of the coordinator.
#[derive(Clone, Copy)]
pub enum Request {
    /// It goes idle in this state, counted from 1, and bears this wake latency of its own state and of
    /// its containers' in microseconds; 4294967295 bears any.
    Idle {
        cpu: u32,
        state: u32,
        tolerance: u32,
    },
    /// It runs again.
    Wake {
        cpu: u32,
    },
    /// It asks for a performance state, counted from 0, the fastest.
    Perf {
        cpu: u32,
        index: u32,
    },
    /// It asks for a throttling state, counted from 0, the fastest.
    Throttle {
        cpu: u32,
        index: u32,
    },
    /// The first performance state that may be used is this one: `_PPC` (ACPI 6.5, 8.4.5.3).
    PerfLimit {
        cpu: u32,
        n: u32,
    },
    /// The first throttling state that may be used is this one: `_TPC` (ACPI 6.5, 8.4.4.3).
    ThrottleLimit {
        cpu: u32,
        n: u32,
    },
}

impl Request {
    ghost use Rattle.std.specs.Prelude.{◌≡◌};
    ghost use Rattle.pw_plan.specs.Requests.{cpu_of};

    /// The processor that the request is about.
    pub fn cpu(&self) -> u32
        ensures { result ≡ cpu_of self.now }
    {
        match *self {
            Request::Idle { cpu, .. } => cpu,
            Request::Wake { cpu } => cpu,
            Request::Perf { cpu, .. } => cpu,
            Request::Throttle { cpu, .. } => cpu,
            Request::PerfLimit { cpu, .. } => cpu,
            Request::ThrottleLimit { cpu, .. } => cpu,
        }
    }
}
