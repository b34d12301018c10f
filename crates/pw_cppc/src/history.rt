ghost use Rattle.std.specs.Prelude.{◌≡◌, ◌↔◌, ◌++◌, ◌+◌, ◌∷◌, ℕ, List, [], None, Some};
ghost use Rattle.pw_cppc.specs.declared.plan.CppcPlan.{CppcPlan as plan};
ghost use Rattle.pw_cppc.specs.declared.request.CppcRequest.{CppcRequest as request};
ghost use Rattle.pw_cppc.specs.Requests.{Has};
ghost use Rattle.pw_cppc.specs.declared.entry.CppcEntry.{CppcEntry as entry};
ghost use Rattle.pw_cppc.specs.declared.numbers.CppcNumbers.{CppcNumbers as numbers};
ghost use Rattle.pw_cppc.specs.States.{AreNumbers, opening};
ghost use Rattle.pw_cppc.specs.Answers.{after};
ghost use Rattle.pw_cppc.specs.History.{Faultless, Legal, MayFollow, StatesRequest};
ghost use Rattle.pw_cppc.specs.History.{entry_of, fault_at, history_ops, ops_from};
ghost use Rattle.pw_cppc.specs.History.{replay, replay_from, request_of, requests};

/// What is left by a request, and by each history, is numbers of the plan.
pub fn histories_stay_numbers()
    ensures opens { (P : plan) → AreNumbers P (opening P) }
    ensures steps { (P : plan) (S : numbers) (q : request) → AreNumbers P S
        → AreNumbers P (after P S q) }
    ensures replays { (P : plan) (H : List entry) → AreNumbers P (replay P H) }
{}

/// A request's entry states it, with a fault too.
pub fn entries_state_requests()
    ensures request { (seat fault : ℕ) (q : request)
        → request_of (record (entry_of seat q) { fault = fault }) ≡ q }
    ensures entry { (P : plan) (seat fault : ℕ) (q : request) → Has P q
        → StatesRequest P (record (entry_of seat q) { fault = fault }) }
{}

/// What one history leaves is where the next goes on from.
pub fn histories_join()
    ensures state { (P : plan) (H G : List entry) → replay P (H ++ G) ≡ replay_from P (replay P H) G }
    ensures operations { (P : plan) (H G : List entry)
        → history_ops P (H ++ G) ≡ history_ops P H ++ ops_from P (replay P H) G }
    ensures requests { (H G : List entry) → requests (H ++ G) ≡ requests H ++ requests G }
{}

/// The empty history can come about, and one more entry exactly where it may follow; so can each
/// beginning of a history that can.
pub fn legal_histories_grow()
    ensures empty { (P : plan) → Legal P [] }
    ensures more { (P : plan) (H : List entry) (e : entry) → Legal P H
        → Legal P (H ++ e ∷ []) ↔ MayFollow P H e }
    ensures beginning { (P : plan) (H G : List entry) → Legal P (H ++ G) → Legal P H }
{}

/// A history has no fault, or stops at its fault.
pub fn histories_stop_at_faults()
    ensures none { (H : List entry) → fault_at H ≡ None ↔ Faultless H }
    ensures last { (H : List entry) (e : entry) (k : ℕ) → Faultless H → e.fault ≡ k + 1
        → fault_at (H ++ e ∷ []) ≡ Some k }
{}
