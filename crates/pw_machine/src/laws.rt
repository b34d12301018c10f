ghost use Rattle.pw_machine.specs.Bounds.{RequestsEndSoon};
ghost use Rattle.pw_machine.specs.Histories.{HistoriesComeAbout};
ghost use Rattle.pw_machine.specs.Kinds.{EachKindIsTaken};
ghost use Rattle.pw_machine.specs.Law.{StepKeeps, TurnLaw};
ghost use Rattle.pw_machine.specs.Meetings.{TwoSeatsMeet};
ghost use Rattle.pw_machine.specs.Told.{SeatsAreTold};
ghost use Rattle.pw_machine.specs.Waits.{NoDeadlock};

/// The invariant holds over every list of allowed steps from the opened machine, since each kind of
/// step keeps it.
pub fn turn_law()
    ensures step { StepKeeps }
    ensures steps { TurnLaw }
{}

/// Where a seat finds a turn held, over every list of steps, a seat that holds a turn can take one,
/// release one or put a slot's value back. It says nothing of threads.
pub fn no_deadlock()
    ensures { NoDeadlock }
{}

/// A request whose turns nobody else holds ends in its seat's own steps, at most two for each turn of
/// its route, the journal's with them. It doesn't say that they are taken.
pub fn requests_end_soon()
    ensures { RequestsEndSoon }
{}

/// What a seat knows of the machine by what its steps find.
pub fn seats_are_told()
    ensures { SeatsAreTold }
{}

/// Exactly the legal histories come about that have room and whose seats have numbers.
pub fn histories_come_about()
    ensures { HistoriesComeAbout }
{}

/// In any plan with two requests that take one record first, two seats meet at it, each once, and
/// are joined.
pub fn two_seats_meet()
    ensures { TwoSeatsMeet }
{}

/// In any plan with a request that takes a record, each of the sixteen kinds of step is taken in some
/// list of allowed steps.
pub fn each_kind_is_taken()
    ensures { EachKindIsTaken }
{}
