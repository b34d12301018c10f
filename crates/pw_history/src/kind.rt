ghost use Rattle.std.specs.Prelude.{◌≡◌, ◌≤◌, Bool, ℕ, [], is_ok, is_some, false, IfOk, IfSome};
ghost use Rattle.pw_text.specs.Puts.{PutsText};
ghost use Rattle.pw_text.specs.Behind.{behind};
ghost use Rattle.pw_history.specs.Wording.{Wording};
ghost use Rattle.pw_history.specs.Paths.{ArePaths};

use pw_base::{Failed, Memory, Sink};
use pw_regs::Ops;
use pw_text::{Page, PathTexts};
use std::alloc::Global;

/// A kind of coordination whose histories are printed: how one is followed, and the words of its requests
/// and replies.
pub trait Kind {
    type Plan;

    type Request: Copy;

    type Reply: Copy;

    type Entry;

    /// The state of the definitions.
    type State;

    /// What is kept of the state while a history is followed.
    type Followed: Drop;

    ghost words: { Wording Self.Plan Self.Request Self.Reply Self.Entry Self.State };

    // entries that state a request of a processor of the plan, and such requests
    ghost states: { Self.Plan → Self.Entry → Type 0 };

    ghost has: { Self.Plan → Self.Request → Type 0 };

    // no fewer operations than the opening has, or any request
    ghost most: { Self.Plan → ℕ };

    // whether this is kept of a state, where the replies are known and where they aren't
    ghost keeps: { Self.Plan → Bool → Self.State → Self.Followed → Type 0 };

    /// The request that an entry states.
    fn request(plan: &Self::Plan, entry: &Self::Entry) -> Self::Request
        requires { states plan.now entry.now }
        ensures request { result ≡ words.kind.request entry.now }
        ensures asker { words.asker entry.now ≡ words.cpu result }
        ensures has { has plan.now result };

    /// 0, or one more than the number of operations that were done before a register failed.
    fn fault(entry: &Self::Entry) -> u32
        ensures { result ≡ words.kind.fault entry.now };

    /// The processor of a request.
    fn cpu(request: Self::Request) -> u32
        ensures { result ≡ words.cpu request };

    /// Room for the operations of the opening and of each request.
    fn most_operations(plan: &Self::Plan) -> u32
        ensures { result ≡ most plan.now };

    /// The texts of the processors' paths.
    fn paths(alloc: Global, plan: &Self::Plan) -> Result<PathTexts, Memory>
        ensures { IfOk result (λ paths. ArePaths words plan.now paths) };

    /// Appends the operations at the start.
    fn open_all(plan: &Self::Plan, ops: &mut Ops)
        requires none { ops.old.elements ≡ [] }
        requires room { most plan.now ≤ ops.old.capacity }
        ensures list { ops.new.elements ≡ words.opening_ops plan.now }
        ensures room { ops.new.capacity ≡ ops.old.capacity };

    /// What is kept of the state that a plan opens with.
    fn open(alloc: Global, plan: &Self::Plan, known: bool) -> Result<Self::Followed, Memory>
        ensures { IfOk result (λ kept. keeps plan.now known (words.kind.opening plan.now) kept) };

    /// Answers a request, with its reply where that is known, appends its operations and notes what it
    /// asks for.
    fn step(
        plan: &Self::Plan,
        kept: &mut Self::Followed,
        request: Self::Request,
        known: Option<Self::Reply>,
        ops: &mut Ops,
    ) -> Self::Reply
        requires request { has plan.now request }
        requires kept { (S : Self.State) × keeps plan.now (is_some known) S kept.old
            × IfSome known (λ reply. words.kind.answer plan.now S request ≡ reply) }
        requires none { ops.old.elements ≡ [] }
        requires room { most plan.now ≤ ops.old.capacity }
        ensures reply { (S : Self.State) → keeps plan.now (is_some known) S kept.old
            → IfSome known (λ reply. words.kind.answer plan.now S request ≡ reply)
            → result ≡ words.kind.answer plan.now S request }
        ensures list { (S : Self.State) → keeps plan.now (is_some known) S kept.old
            → IfSome known (λ reply. words.kind.answer plan.now S request ≡ reply)
            → ops.new.elements ≡ words.kind.ops plan.now S request }
        ensures after { (S : Self.State) → keeps plan.now (is_some known) S kept.old
            → IfSome known (λ reply. words.kind.answer plan.now S request ≡ reply)
            → keeps plan.now (is_some known) (words.kind.after plan.now S request) kept.new }
        ensures room { ops.new.capacity ≡ ops.old.capacity };

    /// Appends the operations that a request would have whose reply isn't known.
    fn operations(
        plan: &Self::Plan,
        kept: &mut Self::Followed,
        request: Self::Request,
        ops: &mut Ops,
    )
        requires request { has plan.now request }
        requires kept { (S : Self.State) × keeps plan.now false S kept.old }
        requires none { ops.old.elements ≡ [] }
        requires room { most plan.now ≤ ops.old.capacity }
        ensures list { (S : Self.State) → keeps plan.now false S kept.old
            → ops.new.elements ≡ words.kind.ops plan.now S request }
        ensures same { kept.new ≡ kept.old }
        ensures room { ops.new.capacity ≡ ops.old.capacity };

    /// Puts what was asked behind its processor's path.
    fn put_request<K: Sink>(
        page: &mut Page,
        sink: &mut K,
        request: Self::Request,
    ) -> Result<(), Failed>
        ensures { PutsText K.Sink sink.old sink.new page.old page.new
            (behind (words.request_words request)) (is_ok result) };

    /// Puts what a request was answered.
    fn put_reply<K: Sink>(page: &mut Page, sink: &mut K, reply: Self::Reply) -> Result<(), Failed>
        ensures { PutsText K.Sink sink.old sink.new page.old page.new
            (behind (words.reply_words reply)) (is_ok result) };
}
