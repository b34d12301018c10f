use acpi_values::Chain;

/// What a request is answered.
#[derive(Clone, Copy)]
pub enum Reply {
    /// The processor idles: its own state, and those of its containers upwards as far as they are
    /// above 0. Of a processor with C states it is the C state alone, 0 where it comes to none.
    Entered { chain: Chain },
    /// The processor runs.
    Running,
    /// Where its domain, or in a hardware domain the processor, now stands, counted from 0.
    Stands { index: u32 },
    /// There is no such state; there are so many.
    NoState { count: u32 },
    /// The state isn't enabled.
    Disabled,
    /// The state is faster than the processor's own limit allows.
    AboveLimit { limit: u32 },
    /// The processor has no such table.
    NoTable,
    /// The domain at this place of the plan can't be coordinated, for this reason of 1 to 5.
    Unfit { domain: u32, why: u8 },
    /// The state wakes slower than the request bears: its latency in microseconds.
    TooSlow { latency: u32 },
}
