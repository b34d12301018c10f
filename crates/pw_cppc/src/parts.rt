ghost use Rattle.std.specs.Prelude.{◌≡◌};
ghost use Rattle.pw_cppc.specs.Parts.{is_number, number_in, place_of, register_in};

use acpi_values::{Cpc, CpcEntry, Dependency, Register};

/// The controls of continuous performance that a processor has, by a register each
/// (ACPI 6.5, 8.4.6.1.2).
#[derive(Clone, Copy)]
pub enum Control {
    /// DesiredPerformance.
    Desired,
    /// MinimumPerformance.
    Minimum,
    /// MaximumPerformance.
    Maximum,
}

/// What the firmware says of a processor's continuous performance.
#[derive(Drop)]
pub struct CppcParts {
    pub cpc: Option<Cpc>,
    /// `_PSD`.
    pub dependency: Option<Dependency>,
}

/// The places of elements of `_CPC`, counted from 0 behind the first two.
const HIGHEST: usize = 0;

const LOWEST: usize = 3;

/// The place of a control's register.
fn place_of(control: Control) -> usize
    ensures { result ≡ place_of control }
{
    match control {
        Control::Desired => 5,
        Control::Minimum => 6,
        Control::Maximum => 7,
    }
}

/// Whether an element is an integer.
fn is_number(entry: Option<CpcEntry>) -> bool
    ensures { result ≡ is_number entry }
{
    match entry {
        None => false,
        Some(CpcEntry::Number(_)) => true,
        Some(CpcEntry::Register(_)) => false,
    }
}

/// The integer, 0 where an element is none.
fn number_in(entry: Option<CpcEntry>) -> u64
    ensures { result ≡ number_in entry }
{
    match entry {
        None => 0,
        Some(CpcEntry::Number(number)) => number,
        Some(CpcEntry::Register(_)) => 0,
    }
}

/// The register, unless an element is none or null.
fn register_in(entry: Option<CpcEntry>) -> Option<Register>
    ensures { result ≡ register_in entry }
{
    match entry {
        None => None,
        Some(CpcEntry::Number(_)) => None,
        Some(CpcEntry::Register(register)) => if register.is_null() {
            None
        } else {
            Some(register)
        },
    }
}

impl CppcParts {
    ghost use Rattle.std.specs.Prelude.{◌≡◌};
    ghost use Rattle.pw_cppc.specs.Parts.{entry_of, highest_of, is_ranged, lowest_of};
    ghost use Rattle.pw_cppc.specs.Parts.{register_of};

    /// The element at this place, where there is one.
    fn entry(&self, place: usize) -> Option<CpcEntry>
        ensures { result ≡ entry_of self.now.cpc place }
    {
        match &self.cpc {
            None => None,
            Some(cpc) => cpc.entries.as_slice().get(place).copied(),
        }
    }

    /// HighestPerformance, 0 where it is no integer.
    pub fn highest(&self) -> u64
        ensures { result ≡ highest_of self.now }
    {
        number_in(self.entry(HIGHEST))
    }

    /// LowestPerformance, 0 where it is no integer.
    pub fn lowest(&self) -> u64
        ensures { result ≡ lowest_of self.now }
    {
        number_in(self.entry(LOWEST))
    }

    /// Whether both are integers, and the lowest isn't above the highest.
    pub fn is_ranged(&self) -> bool
        ensures { result ≡ is_ranged self.now }
    {
        is_number(self.entry(LOWEST))
            && is_number(self.entry(HIGHEST))
            && self.lowest() <= self.highest()
    }

    /// The register by which a control is set, if there is one.
    pub fn register(&self, control: Control) -> Option<Register>
        ensures { result ≡ register_of control self.now }
    {
        register_in(self.entry(place_of(control)))
    }
}
