/// Two places of a request that a test may watch, or hold up. A gate has no meaning in contracts.
pub trait Gate {
    /// Point 0: the request of processor `cpu` holds its records and hasn't taken the journal.
    /// Point 1: the request is answered and holds nothing.
    fn reached(&self, cpu: u32, point: u32);
}

/// The gate that never holds anything up.
#[derive(Clone, Copy, Debug)]
pub struct OpenGate;

impl Gate for OpenGate {
    fn reached(&self, _cpu: u32, _point: u32) {}
}
