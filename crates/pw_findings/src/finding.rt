use acpi_values::{Coord, Place, Why};
use aml_data::FullPath;
use pw_plan::DomainKind;

/// A term whose body isn't read, though objects may stand in it (ACPI 6.5, 20.2.5.2 and 20.2.5.3).
#[derive(Clone, Copy)]
pub enum Unread {
    If,
    Else,
    While,
    PowerResource,
    ThermalZone,
}

/// Why an object, an entry of one, or what stands in a scope isn't used.
#[derive(Clone, Copy)]
pub enum Unused {
    /// Unwise: a method stands where an object is wanted. It counts as absent.
    Method,
    /// Unwise: an alias stands there. It counts as absent.
    Alias,
    /// Unwise: a list of no states. It counts as absent.
    Empty,
    /// Unwise: a `_CST` beside an `_LPI`.
    BesideLpi,
    /// Wrong: an entry of `_CSD` about a C state that isn't there. It is dropped.
    NoSuchState,
    /// Unwise: it speaks of performance or throttling states, and no table of these stands beside it.
    NoStates(DomainKind),
    /// Unwise: it stands in a scope. What is in it counts as absent.
    Skipped(Unread),
}

/// What is amiss with an object, of whatever sort.
#[derive(Clone, Copy)]
pub enum OfObject {
    /// Wrong: it means nothing, at this place in it first.
    Meaningless { place: Place, why: Why },
    /// Unwise: there are more of something than this program takes (`PlanFault::Limit`).
    PastLimit { which: u8, number: u32 },
    /// It, or an entry of it, isn't used.
    Unused(Unused),
}

/// What is amiss with whether a container or a processor is there, and with its name for the hardware
/// (ACPI 6.5, 6.3.7 and 6.1.12).
#[derive(Drop)]
pub enum OfDevice {
    /// Unwise: by its `_STA` it isn't present.
    NotPresent { status: u64 },
    /// Unwise: by its `_STA` it is present and not enabled.
    NotEnabled { status: u64 },
    /// Wrong: a processor device has no `_UID`.
    NoUid,
    /// Wrong: an earlier processor has the same `_UID`.
    SameUid { uid: u64, earlier: FullPath },
}

/// What is amiss with idle states, which are counted from 1 (ACPI 6.5, 8.4.1.1 and 8.4.3.3).
#[derive(Clone, Copy)]
pub enum OfIdle {
    /// Unwise: this state wakes sooner than the one before it. In microseconds.
    LatencyFalls {
        state: usize,
        latency: u32,
        before: u32,
    },
    /// Unwise: this state is worth its cost sooner than the one before it. In microseconds.
    ResidencyFalls {
        state: usize,
        residency: u32,
        before: u32,
    },
}

/// What is amiss with C states (ACPI 6.5, 8.4.1.1).
#[derive(Drop)]
pub enum OfCst {
    /// Unwise: the first state is of another type than C1.
    NoC1 {
        kind: u8,
    },
    /// Unwise: this state is of a lower type than the one before it.
    TypeFalls {
        state: usize,
        kind: u8,
        before: u8,
    },
    /// Unwise: this state takes more power than the one before it. In milliwatts.
    PowerRises {
        state: usize,
        power: u32,
        before: u32,
    },
}

/// What is amiss with how C states are entered and how many there are (ACPI 6.5, 8.4.1.1).
#[derive(Drop)]
pub enum OfEntry {
    /// Wrong: this C state has the null register.
    NullState {
        state: usize,
    },
    /// Unwise: a processor's low power idle state has an integer for its entry (ACPI 6.5, 8.4.3.3).
    IntegerState {
        state: usize,
    },
    /// Unwise: `_CST` has another number of states than that of the first processor with one.
    OtherCount {
        count: usize,
        first: FullPath,
        there: usize,
    },
}

/// What is amiss between idle states and those of the container around them (ACPI 6.5, 8.4.3.3).
#[derive(Drop)]
pub enum OfParent {
    /// Wrong: this state enables one of the container that isn't there.
    Past {
        state: usize,
        enables: u32,
        parent: FullPath,
        count: usize,
    },
    /// Wrong: this state enables one of a container, and there is no container around.
    Absent {
        state: usize,
        enables: u32,
    },
    /// Unwise: no state that may be entered enables the deepest one of the container.
    Unreached {
        parent: FullPath,
        count: usize,
    },
    /// Wrong: this state enables one of the container that adds so much to its number that the sum has more
    /// than 64 bits.
    Overflows {
        state: usize,
        number: u64,
        enables: usize,
        parent: FullPath,
        added: u64,
    },
}

/// A number that stands at this place of a list, counted from 0, and at an earlier one.
#[derive(Clone, Copy)]
pub struct Repeat {
    pub number: u32,
    pub place: usize,
    pub earlier: usize,
}

/// What is amiss with performance or throttling states, which are counted from 0 (ACPI 6.5, 8.4.5, 8.4.4).
#[derive(Drop)]
pub enum OfScale {
    /// Unwise: there is one state alone.
    OneState,
    /// Unwise: no domain is declared, and another processor declares one.
    NoDomain { other: FullPath },
    /// Unwise: one control value is that of two states.
    ControlRepeats(Repeat),
    /// Unwise: the processor changes to this state in 0 us.
    NoLatency { state: usize },
}

/// What is amiss with how fast states are, in MHz or percent (ACPI 6.5, 8.4.5.2 and 8.4.4.2).
#[derive(Clone, Copy)]
pub enum OfRate {
    /// Wrong: this state is of 0 MHz or 0 percent.
    Zero {
        state: usize,
    },
    /// Wrong: this state is faster than the one before it.
    Rises {
        state: usize,
        rate: u32,
        before: u32,
    },
    /// Unwise: this state is as fast as an earlier one.
    Repeats(Repeat),
}

/// What is amiss with limits of states (ACPI 6.5, 8.4.5.3 and 8.4.4.3).
#[derive(Clone, Copy)]
pub enum OfLimit {
    /// Wrong: the limit at the start is past the last state.
    Past { limit: u32, count: usize },
    /// Unwise: the limit at the start is above state 0.
    AtStart { limit: u32 },
    /// Unwise: there is none.
    Absent,
}

/// What is amiss with the registers of states (ACPI 6.5, 8.4.5.1 and 8.4.4.1).
#[derive(Clone, Copy)]
pub enum OfControl {
    /// Wrong: there is no control register, or the null register.
    Absent,
    /// Unwise: it is the control register of the performance states too.
    Shared,
    /// Unwise: the control and the status register are in two address spaces.
    TwoSpaces { control: u8, status: u8 },
    /// Wrong: its bits end behind those that an access takes.
    PastAccess { end: u32, room: u32 },
}

/// What the members of a domain share.
#[derive(Clone, Copy)]
pub enum Shared {
    /// Performance states, throttling states or a C state.
    States(DomainKind),
    /// Continuous performance control (ACPI 6.5, 8.4.6.1).
    Cpc,
}

/// A domain, as its members name it.
#[derive(Clone, Copy)]
pub struct DomainId {
    pub of: Shared,
    /// None for a domain of a single processor that declares none.
    pub number: Option<u32>,
    /// Of an idle domain, the C state that it is about, counted from 0; else 0.
    pub index: u32,
}

/// How what is declared of a domain doesn't agree: all of these are wrong (ACPI 6.5, 8.3).
#[derive(Drop)]
pub enum OfDomain {
    /// Its members declare different coordination types.
    OtherType {
        coord: Coord,
        other: FullPath,
        there: Coord,
    },
    /// They declare different numbers of processors.
    OtherNumber {
        processors: u32,
        other: FullPath,
        there: u32,
    },
    /// The number that they declare isn't how many they are.
    OtherSize {
        processors: u32,
        members: usize,
    },
}

/// How a domain's members differ (ACPI 6.5, 8.3).
#[derive(Drop)]
pub enum OfMember {
    /// Wrong: they have other numbers of states.
    OtherLength {
        count: usize,
        other: FullPath,
        there: usize,
    },
    /// Wrong: the states of one member have no control register.
    NoRegister {
        other: FullPath,
    },
    /// Unwise: software coordinates them, and they have different control registers.
    OtherRegister {
        other: FullPath,
    },
    /// Unwise: software coordinates them, and this one has different control values.
    OtherControl {
        state: usize,
        value: u32,
        other: FullPath,
        there: u32,
    },
    /// Unwise: they have other levels of lowest and highest performance.
    OtherRange {
        lowest: u64,
        highest: u64,
        other: FullPath,
        from: u64,
        to: u64,
    },
}

/// What is amiss with continuous performance control (ACPI 6.5, 8.4.6.1).
#[derive(Clone, Copy)]
pub enum OfCpc {
    /// Wrong: of two levels of performance, by their places behind the first two elements, the lower one
    /// has the greater number.
    Disorder {
        upper: usize,
        number: u64,
        lower: usize,
        there: u64,
    },
    /// Unwise: the highest or the lowest level is given by a register.
    NoRange,
    /// Wrong: there is no register for the desired level, or the null register.
    NoDesired,
}

/// What is amiss. It is wrong where the object means nothing or the standard says otherwise, and else unwise:
/// allowed, and known to surprise.
#[derive(Drop)]
pub enum FindingKind {
    Object(OfObject),
    Device(OfDevice),
    Idle(OfIdle),
    Cst(OfCst),
    Entry(OfEntry),
    Parent(OfParent),
    /// With performance or throttling states, as those that follow.
    Scale { kind: DomainKind, of: OfScale },
    Rate { kind: DomainKind, of: OfRate },
    Limit { kind: DomainKind, of: OfLimit },
    Control { kind: DomainKind, of: OfControl },
    Domain { domain: DomainId, of: OfDomain },
    Member { domain: DomainId, of: OfMember },
    Cpc(OfCpc),
}

/// What is amiss with an object.
#[derive(Drop)]
pub struct Finding {
    /// The object: a container or a processor, a table of one, or the root for the whole machine.
    pub path: FullPath,
    pub kind: FindingKind,
}
