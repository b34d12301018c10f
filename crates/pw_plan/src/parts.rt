use crate::domain::DomainKind;
use acpi_values::{CDependency, Cpc, Dependency, IdleTable, Register};
use aml_data::FullPath;
use pw_base::List;

/// The performance or the throttling states of a processor, the fastest first.
#[derive(Drop)]
pub struct Scale {
    /// The control values of `_PSS` or `_TSS`, in their order.
    pub controls: List<u32>,
    /// The control register of `_PCT` or `_PTC`, unless it is absent or null.
    pub register: Option<Register>,
    /// The first state that may be used at the start: `_PPC` or `_TPC`, 0 where it isn't given.
    pub limit: u32,
    /// `_PSD` or `_TSD`.
    pub dependency: Option<Dependency>,
}

/// What the firmware says of a container (ACPI 6.5, 8.4.2).
#[derive(Drop)]
pub struct ContainerParts {
    pub path: FullPath,
    /// The number of the container around it.
    pub parent: Option<u32>,
    pub idle: IdleTable,
}

/// What the firmware says of a processor (ACPI 6.5, 8.4).
#[derive(Drop)]
pub struct CpuParts {
    pub path: FullPath,
    /// The number of the container around it.
    pub parent: Option<u32>,
    pub idle: IdleTable,
    /// The entries of `_CSD`; none unless its idle states are C states.
    pub csd: List<CDependency>,
    pub perf: Option<Scale>,
    pub throttle: Option<Scale>,
    pub cpc: Option<Cpc>,
}

impl CpuParts {
    ghost use Rattle.std.specs.Prelude.{◌≡◌, option_copied};
    ghost use Rattle.pw_plan.specs.Parts.{count_of, scale_of};

    /// The states that requests of this kind speak of, where it has any; none of kind Idle.
    pub fn scale(&self, kind: DomainKind) -> Option<&Scale>
        ensures { option_copied result ≡ scale_of kind self.now }
    {
        match kind {
            DomainKind::Perf => self.perf.as_ref(),
            DomainKind::Throttle => self.throttle.as_ref(),
            DomainKind::Idle => None,
        }
    }

    /// How many states its scale of this kind has, 0 where it has none.
    pub fn state_count(&self, kind: DomainKind) -> usize
        ensures { result ≡ count_of (scale_of kind self.now) }
    {
        match self.scale(kind) {
            None => 0,
            Some(scale) => scale.controls.as_slice().len(),
        }
    }
}
