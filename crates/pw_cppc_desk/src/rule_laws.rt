ghost use Rattle.pw_cppc_desk.specs.Moves.{AloneHasAll, DeskIsOpened, EntryIsMade, NumberIsDrawn};
ghost use Rattle.pw_cppc_desk.specs.Moves.{NumberIsRead, SeatIsSplit, SeatsAreJoined, SlotIsClaimed};
ghost use Rattle.pw_cppc_desk.specs.Moves.{TableBegins, TableCloses, TurnIsLetGo, TurnIsTaken};
ghost use Rattle.pw_cppc_desk.specs.Runs.{MetWasFound, QuietAreNotMet, RuleHasInvariant, StepsAreKept};

use pw_regs::Registers;

/// A table begins by the rule, and each step by which a desk is opened keeps it.
pub fn table_opens<R: Registers>()
    ensures begins { TableBegins R.Registers }
    ensures claims { SlotIsClaimed R.Registers }
    ensures opens { DeskIsOpened R.Registers }
{}

/// Each step on the turn's word that a request makes keeps the rule, and tells its seat what it found.
pub fn requests_keep_the_rule<R: Registers>()
    ensures takes { TurnIsTaken R.Registers }
    ensures enters { EntryIsMade R.Registers }
    ensures lets_go { TurnIsLetGo R.Registers }
{}

/// Seats that draw numbers, look, are split and joined keep the rule.
pub fn seats_keep_the_rule<R: Registers>()
    ensures draws { NumberIsDrawn R.Registers }
    ensures reads { NumberIsRead R.Registers }
    ensures splits { SeatIsSplit R.Registers }
    ensures joins { SeatsAreJoined R.Registers }
{}

/// An idle seat with all parts finds the slot at home, with the history that it knows, and so it comes
/// out of a table that is closed with it.
pub fn alone_has_all<R: Registers>()
    ensures at_home { AloneHasAll R.Registers }
    ensures closed { TableCloses R.Registers }
{}

/// The run of which the rule speaks keeps the machine's invariant, and each of its steps is in a seat's
/// keeping. The seat that a seat met is the one that it last found in it, and while no other seat took a
/// step none is met.
pub fn runs_tell<R: Registers>()
    ensures invariant { RuleHasInvariant R.Registers }
    ensures kept { StepsAreKept R.Registers }
    ensures met { MetWasFound R.Registers }
    ensures quiet { QuietAreNotMet R.Registers }
{}
