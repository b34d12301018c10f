//! What traces are to histories.
ghost use Rattle.std.specs.Prelude.{ℕ, List, ◌↔◌};
ghost use Rattle.pw_plan.specs.declared.plan.Plan.{Plan};
ghost use Rattle.pw_plan.specs.declared.request.Request.{Request};
ghost use Rattle.pw_script.specs.Wholes.{BeginsWhole, IsWhole};
ghost use Rattle.pw_cppc.specs.declared.plan.CppcPlan.{CppcPlan};
ghost use Rattle.pw_cppc.specs.declared.request.CppcRequest.{CppcRequest};
ghost use Rattle.pw_cppc_drive.specs.Wholes.{BeginsWhole as CppcBeginsWhole, IsWhole as CppcIsWhole};
ghost use Rattle.pw_audit.specs.declared.form.Form.TheVariants.{History, Trace};
ghost use Rattle.pw_audit.specs.Traces.{BeginsAs, IsSortedFrom, IsWholeAs};
ghost use Rattle.pw_audit.specs.CppcAudited as cppc;

/// What is a whole history of a script is a whole trace of it, and what begins one begins the other.
pub fn histories_are_traces()
    ensures whole { (P : Plan) (asked : List Request) (text : List ℕ) → IsWhole P asked text →
        IsWholeAs Trace P asked text }
    ensures begins { (P : Plan) (asked : List Request) (lines : List (List ℕ)) →
        BeginsWhole P asked lines → BeginsAs Trace P asked lines }
    ensures history { (P : Plan) (asked : List Request) (text : List ℕ) →
        IsWholeAs History P asked text ↔ IsWhole P asked text }
{}

/// A whole trace with its operations sorted, each entry's as the entry has them, and those of the opening
/// given is a whole history.
pub fn traces_sort_to_histories()
    ensures { (P : Plan) (asked : List Request) (trace : List ℕ) → IsWholeAs Trace P asked trace →
        (history : List ℕ) × IsWhole P asked history × IsSortedFrom P trace history }
{}

/// The same of a script of requests for performance: what is a whole history of it is a whole trace of it,
/// and what begins one begins the other.
pub fn cppc_histories_are_traces()
    ensures whole { (P : CppcPlan) (asked : List CppcRequest) (text : List ℕ) → CppcIsWhole P asked text →
        cppc.IsWholeAs Trace P asked text }
    ensures begins { (P : CppcPlan) (asked : List CppcRequest) (lines : List (List ℕ)) →
        CppcBeginsWhole P asked lines → cppc.BeginsAs Trace P asked lines }
    ensures history { (P : CppcPlan) (asked : List CppcRequest) (text : List ℕ) →
        cppc.IsWholeAs History P asked text ↔ CppcIsWhole P asked text }
{}

/// And a whole trace of it, sorted and given the opening's operations, is a whole history.
pub fn cppc_traces_sort_to_histories()
    ensures { (P : CppcPlan) (asked : List CppcRequest) (trace : List ℕ)
        → cppc.IsWholeAs Trace P asked trace
        → (history : List ℕ) × CppcIsWhole P asked history × cppc.IsSortedFrom P trace history }
{}
