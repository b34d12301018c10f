/// What a request for a performance is answered.
#[derive(Clone, Copy)]
pub enum CppcReply {
    /// Where its domain, or in a hardware domain the processor, now stands.
    Stands { value: u64 },
    /// The processor has no `_CPC`.
    NoTable,
    /// Its domain can't be coordinated, for this reason of 1 to 6.
    Unfit { why: u8 },
    /// The value isn't from the lowest to the highest performance.
    OutOfRange { lowest: u64, highest: u64 },
    /// A minimum is above the processor's maximum, or a maximum below its minimum: this one.
    Crossed { bound: u64 },
}
