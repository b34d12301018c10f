ghost use Rattle.std.specs.Prelude.{ℕ, List};
ghost use Rattle.pw_books.specs.Histories.{HistoriesComeAbout};
ghost use Rattle.pw_books.specs.Kinds.{EachKindIsTaken};
ghost use Rattle.pw_books.specs.Law.{StepKeeps, TurnLaw};
ghost use Rattle.pw_books.specs.Told.{SeatsAreTold};
ghost use Rattle.pw_books.specs.Waits.{NoDeadlock};

/// What is fixed of a desk's entries: the number of the seat that made each, and which histories may
/// be.
pub trait Histories<E> {
    ghost seat_of: { E → ℕ };

    ghost good: { List E → Type 0 };
}

/// The invariant holds over every list of allowed steps from the opened machine, since each kind of
/// step keeps it.
pub fn turn_law<E, H: Histories<E>>()
    ensures step { StepKeeps H.seat_of H.good }
    ensures steps { TurnLaw H.seat_of H.good }
{}

/// Where a seat finds the turn held, over every list of steps, the seat that holds it can release it,
/// or first put the slot's value back. It says nothing of threads.
pub fn no_deadlock<E, H: Histories<E>>()
    ensures { NoDeadlock H.seat_of H.good }
{}

/// What a seat knows of the machine by what its steps find.
pub fn seats_are_told<E, H: Histories<E>>()
    ensures { SeatsAreTold H.seat_of H.good }
{}

/// Exactly the histories come about of which each beginning may be, and whose seats have numbers.
pub fn histories_come_about<E, H: Histories<E>>()
    ensures { HistoriesComeAbout H.seat_of H.good }
{}

/// Where the first seat may make some entry, each of the eleven kinds of step is taken in some list of
/// allowed steps.
pub fn each_kind_is_taken<E, H: Histories<E>>()
    ensures { EachKindIsTaken H.seat_of H.good }
{}
