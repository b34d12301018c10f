ghost use Rattle.pw_cppc_desk.specs.Rule.{Ruled, first_of};

use crate::Ledger;
use crate::setup::Setup;
use crate::track::Track;
use atomic_table::TableRule;
use pw_regs::Registers;
use std::marker::PhantomData;

/// The rule: allowed steps lead to a desk's machine that the words, the views and the slot show.
pub struct DeskRule<R> {
    regs: PhantomData<R>,
}

impl<R: Registers> TableRule<Option<Ledger<R>>, Track, Setup<R>> for DeskRule<R> {
    ghost holds = { Ruled R.Registers };

    ghost first = { first_of };
}
