ghost use Rattle.std.specs.Prelude.{◌≡◌};
ghost use Rattle.acpi_build.specs.declared.fault.BuildFault.TheVariants.{Memory as no_memory};

use acpi_values::{Place, Why};
use aml_data::FullPath;
use pw_base::Memory;

/// The object at this path means nothing, at this place in it first.
#[derive(Drop)]
pub struct ObjectFault {
    pub path: FullPath,
    pub place: Place,
    pub why: Why,
}

/// Why objects make no plan.
#[derive(Drop)]
pub enum BuildFault {
    /// The object at this path means nothing, at this place in it first.
    Object {
        path: FullPath,
        place: Place,
        why: Why,
    },
    /// A limit of plans is passed (`PlanFault::Limit`).
    Limit {
        which: u8,
        number: u32,
    },
    /// Want of memory.
    Memory,
}

impl From<Memory> for BuildFault {
    ghost from_gives = { λ _ e. e ≡ no_memory };

    fn from(_e: Memory) -> BuildFault {
        BuildFault::Memory
    }
}
