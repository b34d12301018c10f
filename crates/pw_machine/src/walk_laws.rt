ghost use Rattle.pw_plan.specs.Requests.{Has};
ghost use Rattle.pw_plan.specs.declared.plan.Plan.{Plan as plan};
ghost use Rattle.pw_plan.specs.declared.request.Request.{Request as request};
ghost use Rattle.std.specs.Prelude.{List};
ghost use Rattle.pw_machine.specs.declared.view.Held.{Held as held_record};
ghost use Rattle.pw_machine.specs.WalkLaw.{TellsAnswer, TellsEnd, TellsLeft};
ghost use Rattle.pw_machine.specs.WalkLaw.{TellsNext, TellsRecord, WalksOn};
ghost use Rattle.pw_machine.specs.Standing.{WalksStand};

/// The parts that were noted of the first records that a request takes tell which turn comes next, or
/// that all are held.
pub fn walks_tell_turns()
    ensures next { (P : plan) (q : request) (held : List held_record) → Has P q → TellsNext P q held }
    ensures record { (P : plan) (q : request) (held : List held_record) → Has P q → TellsRecord P q held }
    ensures end { (P : plan) (q : request) (held : List held_record) → Has P q → TellsEnd P q held }
    ensures on { (P : plan) (q : request) (held : List held_record) → WalksOn P q held }
{}

/// Once all are held they tell what the request is answered and operates; and each as soon as it is
/// held with which part it is left.
pub fn walks_tell_requests()
    ensures answer { (P : plan) (q : request) (held : List held_record) → Has P q → TellsAnswer P q held }
    ensures left { (P : plan) (q : request) (held : List held_record) → Has P q → TellsLeft P q held }
{}

/// Wherever a walk stands, whatever was noted, the next record is one of the plan, and a chain has room
/// for what a climb may add.
pub fn walks_stand_at_records()
    ensures { (P : plan) (q : request) (held : List held_record) → Has P q → WalksStand P q held }
{}
