use pw_model::ScaleKind;
use pw_plan::Request;

/// What a line's word asks for, together with how many numbers follow it.
#[derive(Clone, Copy)]
pub enum Verb {
    Wake,
    /// `idle N`
    Idle,
    /// `idle N T`
    IdleBearing,
    Perf,
    Throttle,
    PerfLimit,
    ThrottleLimit,
    /// `within T R`
    Within,
    /// `notify N V`
    Notify,
}

/// What a line asks for, before a governor or a handler has answered.
#[derive(Clone, Copy)]
pub enum Wish {
    /// This request.
    Plain(Request),
    /// The state that the governor chooses for this latency and residency, in microseconds, or to wake
    /// where it chooses none.
    Within {
        cpu: u32,
        tolerance: u32,
        residency: u32,
    },
    /// The limit of this kind that the handler answers to the value that the platform's object has now.
    Notice {
        cpu: u32,
        kind: ScaleKind,
        value: u32,
    },
}
