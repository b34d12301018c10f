use crate::CppcRequest;

/// A request in a history.
#[derive(Clone, Copy)]
pub struct CppcEntry {
    /// The number of the seat that made it.
    pub seat: u32,
    pub cpu: u32,
    /// 1 a desired performance, 2 a minimum, 3 a maximum.
    pub code: u32,
    pub argument: u32,
    /// 0 where it was answered; else one more than how many of its operations were done before a
    /// register failed.
    pub fault: u32,
}

impl CppcEntry {
    ghost use Rattle.std.specs.Prelude.{◌≡◌, ◌≤◌};
    ghost use Rattle.pw_cppc.specs.History.{entry_of, request_of};

    /// The entry of a request that this seat made.
    pub fn of(seat: u32, request: CppcRequest, fault: u32) -> CppcEntry
        ensures { result ≡ record (entry_of seat request) { fault = fault } }
    {
        let code = match request {
            CppcRequest::Desired { .. } => 1,
            CppcRequest::Minimum { .. } => 2,
            CppcRequest::Maximum { .. } => 3,
        };
        CppcEntry {
            seat,
            cpu: request.cpu(),
            code,
            argument: request.value(),
            fault,
        }
    }

    /// The request that was made.
    pub fn request(&self) -> CppcRequest
        requires first { 1 ≤ self.now.code }
        requires last { self.now.code ≤ 3 }
        ensures { result ≡ request_of self.now }
    {
        let cpu = self.cpu;
        let value = self.argument;
        match self.code {
            1 => CppcRequest::Desired { cpu, value },
            2 => CppcRequest::Minimum { cpu, value },
            _ => CppcRequest::Maximum { cpu, value },
        }
    }
}
