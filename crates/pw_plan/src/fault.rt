ghost use Rattle.std.specs.Prelude.{◌≡◌};
ghost use Rattle.pw_plan.specs.declared.fault.PlanFault.TheVariants.{Memory as no_memory};

use pw_base::Memory;
use std::alloc::{AllocError, AllocFailed};

/// Why parts make no plan.
#[derive(Clone, Copy)]
pub enum PlanFault {
    /// A limit is passed: 1 containers (256), 2 processors (256), 3 depth of containers (8),
    /// 4 children of one container (255), 5 states of one table (255). The number is the count of
    /// the first that passes it.
    Limit { which: u8, number: u32 },
    /// Want of memory.
    Memory,
}

impl From<Memory> for PlanFault {
    ghost from_gives = { λ _ e. e ≡ no_memory };

    fn from(_e: Memory) -> PlanFault {
        PlanFault::Memory
    }
}

impl From<AllocError> for PlanFault {
    ghost from_gives = { λ _ e. e ≡ no_memory };

    fn from(_e: AllocError) -> PlanFault {
        PlanFault::Memory
    }
}

impl<T: Drop> From<AllocFailed<T>> for PlanFault {
    ghost from_gives = { λ _ e. e ≡ no_memory };

    fn from(_e: AllocFailed<T>) -> PlanFault {
        PlanFault::Memory
    }
}
