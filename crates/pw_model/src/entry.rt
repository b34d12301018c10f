use pw_plan::Request;

/// A request that was made, as a history keeps it.
#[derive(Clone, Copy)]
pub struct HistoryEntry {
    /// Who made it.
    pub seat: u32,
    pub cpu: u32,
    /// 1 idle, 2 wake, 3 performance state, 4 throttling state, 5 performance limit, 6 throttling
    /// limit.
    pub code: u32,
    /// The state, the index or the limit that was asked for; 0 for a wake.
    pub argument: u32,
    /// The wake latency that an idle request bears, in microseconds; 4294967295 for the others.
    pub tolerance: u32,
    /// 0, or one more than the number of operations that were done before a register failed.
    pub fault: u32,
}

impl HistoryEntry {
    ghost use Rattle.std.specs.Prelude.{◌≡◌, ◌≤◌};
    ghost use Rattle.pw_model.specs.History.{request_of};

    /// The request that was made.
    pub fn request(&self) -> Request
        requires first { 1 ≤ self.now.code }
        requires last { self.now.code ≤ 6 }
        ensures { result ≡ request_of self.now }
    {
        let cpu = self.cpu;
        match self.code {
            1 => Request::Idle {
                cpu,
                state: self.argument,
                tolerance: self.tolerance,
            },
            2 => Request::Wake { cpu },
            3 => Request::Perf {
                cpu,
                index: self.argument,
            },
            4 => Request::Throttle {
                cpu,
                index: self.argument,
            },
            5 => Request::PerfLimit {
                cpu,
                n: self.argument,
            },
            _ => Request::ThrottleLimit {
                cpu,
                n: self.argument,
            },
        }
    }
}
