ghost use Rattle.pw_rule.specs.Rule.{Ruled, first_of};

use crate::content::Content;
use crate::setup::Setup;
use crate::track::Track;
use atomic_table::TableRule;
use pw_regs::Registers;
use std::marker::PhantomData;

/// The rule: allowed steps lead from the machine as it is opened to one that the words, the views and
/// the slots at home show, and each live seat's own steps among them are those that it took.
pub struct Turns<R> {
    regs: PhantomData<R>,
}

impl<R: Registers> TableRule<Option<Content<R>>, Track, Setup<R>> for Turns<R> {
    ghost holds = { Ruled R.Registers };

    ghost first = { first_of };
}
