ghost use Rattle.std.specs.Prelude.{◌≡◌, ◌<◌, ℕ, length};
ghost use Rattle.pw_plan.specs.declared.plan.Plan.{Plan as plan};
ghost use Rattle.pw_plan.specs.declared.request.Request.{Request as request};
ghost use Rattle.pw_plan.specs.Requests.{Has};
ghost use Rattle.pw_model.specs.Calls.{CallsServe, OpensRight};
ghost use Rattle.pw_model.specs.Locality.{IsLocal, IsTold, KeepsRecords, StaysInHistory};
ghost use Rattle.pw_model.specs.Loops.{IsClimbStep};
ghost use Rattle.pw_model.specs.Numbers.{HasWay};
ghost use Rattle.pw_model.specs.Holding.{Holds};
ghost use Rattle.pw_plan.specs.declared.domain.Child.{Child as child};
ghost use Rattle.pw_model.specs.declared.state.State.{State as state};
ghost use Rattle.pw_model.specs.declared.state.Vote.{Vote as vote};
ghost use Rattle.pw_model.specs.States.{IsState};
ghost use Rattle.pw_model.specs.Routes.{ChainsFit, HasRoute};
ghost use Rattle.pw_model.specs.Records.{IsRecord, Part as part, Record as record_of, number_of, part_of};
ghost use Rattle.pw_model.specs.Records.{record_at, record_count};

/// What a request is answered, what it operates and which records it takes follows from these
/// records alone, and no other record changes.
pub fn requests_are_local()
    ensures { (P : plan) (q : request) → Has P q → IsLocal P q }
{}

/// Who holds the parts of a request's records knows what it does.
pub fn records_tell_requests()
    ensures told { (P : plan) (q : request) → Has P q → IsTold P q }
    ensures kept { (P : plan) (q : request) → Has P q → KeepsRecords P q }
{}

/// A request's records are of the plan, and each stands once on its way; their numbers tell records
/// apart.
pub fn requests_have_ways()
    ensures way { (P : plan) (q : request) → Has P q → HasWay P q }
    ensures numbers { (P : plan) (r s : record_of) → IsRecord P r → IsRecord P s
        → number_of P r ≡ number_of P s → r ≡ s }
    ensures numbered { (P : plan) (t : ℕ) → t < record_count P
        → IsRecord P (record_at P t) × (number_of P (record_at P t) ≡ t) }
    ensures count { (P : plan) (r : record_of) → IsRecord P r → number_of P r < record_count P }
{}

/// An entry of another request that takes none of the records held leaves them, and the way that
/// goes on from them.
pub fn histories_leave_ways()
    ensures { (P : plan) (q : request) → Has P q → StaysInHistory P q }
{}

/// What records hold in a state of the plan is of their tables.
pub fn states_fit_records()
    ensures { (P : plan) (S : state) (r : record_of) → IsState P S → Holds P r (part_of P S r) }
{}

/// Records open with their part of the state at the start, and their calls do what requests do.
pub fn records_open_and_serve()
    ensures opens { (P : plan) → OpensRight P }
    ensures serve { (P : plan) → CallsServe P }
    ensures climb { (P : plan) (F : record_of → part) (c : child) (v : vote) (n : ℕ)
        → n < length P.containers → IsClimbStep P F c v n }
{}

/// On the way of a request each turn stands once, the journal's last, and no chain has more than nine
/// states.
pub fn requests_have_routes()
    ensures routes { (P : plan) (q : request) → Has P q → HasRoute P q }
    ensures chains { (P : plan) → ChainsFit P }
{}
