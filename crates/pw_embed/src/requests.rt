ghost use Rattle.std.specs.Prelude.{◌≡◌, MatchOption, Some};
ghost use Rattle.pw_plan.specs.declared.request.Request.{Request as request};
ghost use Rattle.pw_plan.specs.Requests.{Has};
ghost use Rattle.pw_embed.specs.Requests.{request_in};

use pw_plan::{Plan, Request};

/// What a processor asks for: 1 to go idle, 2 to run again, 3 a performance state, 4 a throttling state,
/// 5 a limit of performance states, 6 a limit of throttling states.
#[repr(C)]
#[derive(Clone, Copy)]
pub struct RequestNumbers {
    pub kind: u32,
    pub cpu: u32,
    /// The idle state, counted from 1; or the state or limit, counted from 0.
    pub argument: u32,
    /// Of 1 the wake latency that is borne, in microseconds; 4294967295 is any.
    pub tolerance: u32,
}

impl RequestNumbers {
    /// The request that the numbers ask for.
    pub fn request(&self) -> Option<Request>
        ensures { result ≡ request_in self.now }
    {
        let cpu = self.cpu;
        let argument = self.argument;
        match self.kind {
            1 => Some(Request::Idle {
                cpu,
                state: argument,
                tolerance: self.tolerance,
            }),
            2 => Some(Request::Wake { cpu }),
            3 => Some(Request::Perf {
                cpu,
                index: argument,
            }),
            4 => Some(Request::Throttle {
                cpu,
                index: argument,
            }),
            5 => Some(Request::PerfLimit { cpu, n: argument }),
            6 => Some(Request::ThrottleLimit { cpu, n: argument }),
            _ => None,
        }
    }
    /// The request that the numbers ask for, where the plan has its processor.
    pub fn request_of(&self, plan: &Plan) -> Option<Request>
        ensures { MatchOption result ((q : request) → request_in self.now ≡ Some q → Has plan.now q → ⊥)
            (λ q. (request_in self.now ≡ Some q) × Has plan.now q) }
    {
        let request = self.request()?;
        if plan.has(&request) {
            Some(request)
        } else {
            None
        }
    }
}
