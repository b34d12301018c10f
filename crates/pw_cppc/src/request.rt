/// The most operations of one request: its own register's, and one for each processor of a domain.
pub const MOST_OF_A_REQUEST: u32 = 257;

/// What a processor asks of its performance, on the scale of its `_CPC`: a greater number is faster
/// (ACPI 6.5, 8.4.6.1.2).
#[derive(Clone, Copy)]
pub enum CppcRequest {
    /// The performance that it wishes.
    Desired { cpu: u32, value: u32 },
    /// It is to be no slower.
    Minimum { cpu: u32, value: u32 },
    /// It is to be no faster.
    Maximum { cpu: u32, value: u32 },
}

impl CppcRequest {
    ghost use Rattle.std.specs.Prelude.{◌≡◌};
    ghost use Rattle.pw_cppc.specs.Requests.{cpu_of, value_of};

    /// The processor that asks.
    pub fn cpu(&self) -> u32
        ensures { result ≡ cpu_of self.now }
    {
        match *self {
            CppcRequest::Desired { cpu, .. } => cpu,
            CppcRequest::Minimum { cpu, .. } => cpu,
            CppcRequest::Maximum { cpu, .. } => cpu,
        }
    }

    /// What it asks for.
    pub fn value(&self) -> u32
        ensures { result ≡ value_of self.now }
    {
        match *self {
            CppcRequest::Desired { value, .. } => value,
            CppcRequest::Minimum { value, .. } => value,
            CppcRequest::Maximum { value, .. } => value,
        }
    }
}
