ghost use Rattle.std.specs.Prelude.{◌≡◌, pos};
ghost use Rattle.pw_embed.specs.Statuses.{code_of};

/// How a call ended.
#[derive(Clone, Copy)]
pub enum Status {
    /// It is done.
    Done = 0,
    /// There was no memory, and nothing was done.
    NoMemory = 1,
    /// A handle that is to be open is closed.
    Closed = 2,
    /// A handle that is to be closed is open.
    Open = 3,
    /// A handle isn't at the step that the call is for.
    Kind = 4,
    /// A number is out of range: of a processor, a kind, parts, entries or an index.
    Range = 5,
    /// The caller's room is too small.
    Room = 6,
    /// The bytes spell no block.
    Block = 7,
    /// Two objects are given one path.
    Twice = 8,
    /// An object means nothing.
    Object = 9,
    /// A limit of plans is passed.
    Limit = 10,
    /// Another seat has what the request needs.
    Busy = 11,
    /// The history has as many entries as it may have.
    Full = 12,
    /// Other seats of the coordinator are out.
    Seats = 13,
    /// There is no number for one more seat.
    Numbers = 14,
    /// The history ended at a register that failed.
    Stopped = 15,
    /// The seat has begun a request, and hasn't finished it.
    Begun = 16,
    /// The seat has begun no request.
    NotBegun = 17,
}

impl Status {
    /// Its number.
    pub fn code(self) -> i32
        ensures { result ≡ pos (code_of self) }
    {
        match self {
            Status::Done => 0,
            Status::NoMemory => 1,
            Status::Closed => 2,
            Status::Open => 3,
            Status::Kind => 4,
            Status::Range => 5,
            Status::Room => 6,
            Status::Block => 7,
            Status::Twice => 8,
            Status::Object => 9,
            Status::Limit => 10,
            Status::Busy => 11,
            Status::Full => 12,
            Status::Seats => 13,
            Status::Numbers => 14,
            Status::Stopped => 15,
            Status::Begun => 16,
            Status::NotBegun => 17,
        }
    }
}
