/// How a domain's members come to one state: CoordType (ACPI 6.5, 8.3).
#[derive(Clone, Copy)]
pub enum Coord {
    /// 0xFC: software coordinates, and sets the state on every member.
    SwAll,
    /// 0xFD: software coordinates, and sets the state on any one member.
    SwAny,
    /// 0xFE: hardware coordinates what the members ask for.
    HwAll,
}

/// What a processor declares of its performance or throttling domain: `_PSD` or `_TSD`
/// (ACPI 6.5, 8.4.5.5 and 8.4.4.4).
#[derive(Clone, Copy)]
pub struct Dependency {
    /// The number of the domain.
    pub domain: u32,
    pub coord: Coord,
    /// How many processors the domain has.
    pub processors: u32,
}

/// What a processor declares of an idle domain: an entry of `_CSD` (ACPI 6.5, 8.4.1.2).
#[derive(Clone, Copy)]
pub struct CDependency {
    /// The number of the domain.
    pub domain: u32,
    pub coord: Coord,
    /// How many processors the domain has.
    pub processors: u32,
    /// The C state that the domain is about, counted from 0 in the order of `_CST`.
    pub index: u32,
}
