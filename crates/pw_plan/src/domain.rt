use acpi_values::Coord;
use pw_base::List;

/// What stands right below a container.
#[derive(Clone, Copy)]
pub enum Child {
    Cpu(u32),
    Container(u32),
}

/// What the members of a domain share.
#[derive(Clone, Copy)]
pub enum DomainKind {
    /// A performance state.
    Perf,
    /// A throttling state.
    Throttle,
    /// A C state.
    Idle,
}

/// A dependency domain: processors whose states depend on one another (ACPI 6.5, 8.3).
#[derive(Drop)]
pub struct Domain {
    pub kind: DomainKind,
    /// The number that its members declare; None for a domain of a single processor that declares none.
    pub number: Option<u32>,
    /// Of an idle domain, the C state that it is about, counted from 0; else 0.
    pub index: u32,
    /// The coordination type that its first member declares.
    pub coord: Coord,
    /// The numbers of its processors, in order.
    pub members: List<u32>,
    /// 0 where the members agree. Else 1: they declare different coordination types; 2: they declare
    /// different numbers of processors; 3: that isn't how many they are; 4: their scales have different
    /// lengths; 5: one has no control register. The first of these that holds.
    pub unfit: u8,
}

/// Processors joined by chains of idle domains that software coordinates: their C states are
/// decided together.
#[derive(Drop)]
pub struct Group {
    /// The numbers of its processors, in order.
    pub members: List<u32>,
}
