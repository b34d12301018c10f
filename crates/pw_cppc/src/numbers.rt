use pw_base::List;

/// What processors ask for and allow: in each list one for each processor of a plan, on the scale
/// of its `_CPC`.
#[derive(Drop)]
pub struct CppcNumbers {
    /// The performance that is wished.
    pub asks: List<u64>,
    /// The least that is allowed.
    pub minima: List<u64>,
    /// The most that is allowed.
    pub maxima: List<u64>,
}
