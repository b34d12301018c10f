ghost use Rattle.std.specs.Prelude.{◌≡◌};
ghost use Rattle.pw_governor.specs.Choices.{ChosenBy, Chooses, IsLawful};

use acpi_values::IdleTable;
use std::marker::Model;

/// A function that chooses an idle state: of a table, for a wake latency that is borne and a residency
/// that is expected, both in microseconds. It answers 0, or a state of the table, counted from 1, that is
/// enabled and whose latency and residency are at most these. Contracts see the function.
#[derive(Drop)]
pub struct Governor<F> {
    choose: F,
}

impl<F> Model for Governor<F> {
    ghost Value = { F };

    ghost coded = { F.code };

    ghost view = { λ g. g.choose };
}

impl<F: Fn(&IdleTable, u32, u32) -> u32> Governor<F> {
    /// The governor that chooses by this function. One of another crate is passed in a closure, as
    /// `|t: &IdleTable, a: u32, b: u32| deepest(t, a, b)`: where it is named alone, its contract isn't
    /// seen.
    pub fn new(choose: F) -> Governor<F>
        requires { Chooses (F.pre choose) (F.post choose) }
        ensures function { result ≡ choose }
        ensures chooses { Chooses (F.pre result) (F.post result) }
    {
        Governor { choose }
    }

    /// What the function chooses.
    pub fn choose(&self, table: &IdleTable, tolerance: u32, residency: u32) -> u32
        requires { Chooses (F.pre self.now) (F.post self.now) }
        ensures chosen { ChosenBy (F.post self.now) table.now tolerance residency result }
        ensures lawful { IsLawful table.now tolerance residency result }
    {
        (self.choose)(table, tolerance, residency)
    }
}
