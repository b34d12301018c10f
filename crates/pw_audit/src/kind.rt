ghost use Rattle.std.specs.Prelude.{◌≡◌, ◌≤◌, ◌<◌, ◌++◌, ℕ, [], OnOk, IfOk};
ghost use Rattle.pw_text.specs.Behind.{behind};
ghost use Rattle.pw_history.specs.Wording.{Wording};
ghost use Rattle.pw_audit.specs.inner.Heading.{AreAllPaths};
ghost use Rattle.pw_audit.specs.inner.Outcomes.{PlanTells};

use pw_base::Memory;
use pw_regs::Ops;
use pw_text::PathTexts;
use std::alloc::Global;

/// A kind of coordination whose histories are audited: its coordinator of one caller, and its words.
pub trait Audited {
    type Plan;

    type Request: Copy + Drop;

    type Reply: Copy;

    type Entry: Copy + Drop;

    /// The coordinator of one caller.
    type State: Drop;

    /// A line of a script.
    type Line;

    ghost words: { Wording Self.Plan Self.Request Self.Reply Self.Entry Self.State };

    // entries and requests whose numbers are of 32 bits
    ghost is_narrow: { Self.Entry → Type 0 };

    ghost is_narrow_request: { Self.Request → Type 0 };

    // a state of the plan
    ghost fits: { Self.Plan → Self.State → Type 0 };

    // what a line asks for
    ghost ask: { Self.Line → Self.Request };

    // no fewer operations than the opening has, or any request
    ghost most: { Self.Plan → ℕ };

    /// Texts of this plan tell its histories.
    fn plan_tells(plan: &Self::Plan)
        ensures { PlanTells words plan.now is_narrow is_narrow_request };

    /// The numbers of a request are of 32 bits.
    fn request_known(request: Self::Request)
        ensures { is_narrow_request request };

    /// What a line asks for.
    fn request_of(line: &Self::Line) -> Self::Request
        ensures { result ≡ ask line.now };

    /// How many processors there are.
    fn cpus(plan: &Self::Plan) -> u32
        ensures { result ≡ words.cpus plan.now };

    /// The processor of a request.
    fn cpu(request: Self::Request) -> u32
        ensures { result ≡ words.cpu request };

    /// The entry of a request, with this fault.
    fn entry(request: Self::Request, fault: u32) -> Self::Entry
        ensures { result ≡ words.faulted request fault };

    /// The fault of an entry.
    fn fault(entry: &Self::Entry) -> u32
        ensures { result ≡ words.kind.fault entry.now };

    /// The texts of the processors' paths.
    fn paths(alloc: Global, plan: &Self::Plan) -> Result<PathTexts, Memory>
        ensures { IfOk result (AreAllPaths words plan.now) };

    /// Room for the operations of the opening and of each request.
    fn most_operations(plan: &Self::Plan) -> u32
        ensures { result ≡ most plan.now };

    /// The state that a plan opens with.
    fn open(alloc: Global, plan: &Self::Plan) -> Result<Self::State, Memory>
        ensures opening { IfOk result (λ state. state ≡ words.kind.opening plan.now) }
        ensures fits { IfOk result (λ state. fits plan.now state) };

    /// Appends the operations at the start.
    fn open_all(plan: &Self::Plan, ops: &mut Ops)
        requires none { ops.old.elements ≡ [] }
        requires room { most plan.now ≤ ops.old.capacity }
        ensures list { ops.new.elements ≡ words.opening_ops plan.now }
        ensures room { ops.new.capacity ≡ ops.old.capacity };

    /// Answers a request, appends its operations and notes what it asks for.
    fn step(
        plan: &Self::Plan,
        state: &mut Self::State,
        request: Self::Request,
        ops: &mut Ops,
    ) -> Self::Reply
        requires request { words.cpu request < words.cpus plan.now }
        requires fits { fits plan.now state.old }
        requires none { ops.old.elements ≡ [] }
        requires room { most plan.now ≤ ops.old.capacity }
        ensures reply { result ≡ words.kind.answer plan.now state.old request }
        ensures list { ops.new.elements ≡ words.kind.ops plan.now state.old request }
        ensures after { state.new ≡ words.kind.after plan.now state.old request }
        ensures fits { fits plan.now state.new }
        ensures room { ops.new.capacity ≡ ops.old.capacity };

    /// Appends the operations that a request would have.
    fn operations(plan: &Self::Plan, state: &mut Self::State, request: Self::Request, ops: &mut Ops)
        requires request { words.cpu request < words.cpus plan.now }
        requires fits { fits plan.now state.old }
        requires none { ops.old.elements ≡ [] }
        requires room { most plan.now ≤ ops.old.capacity }
        ensures list { ops.new.elements ≡ words.kind.ops plan.now state.old request }
        ensures same { state.new ≡ state.old }
        ensures room { ops.new.capacity ≡ ops.old.capacity };

    /// Puts what was asked behind its processor's path.
    fn push_request(line: &mut Vec<u8>, request: Self::Request) -> Result<(), Memory>
        ensures { OnOk result (line.new.items ≡ line.old.items ++ behind (words.request_words request)) };

    /// Puts what a request was answered.
    fn push_reply(line: &mut Vec<u8>, reply: Self::Reply) -> Result<(), Memory>
        ensures { OnOk result (line.new.items ≡ line.old.items ++ behind (words.reply_words reply)) };
}
