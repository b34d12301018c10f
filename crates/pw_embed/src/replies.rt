ghost use Rattle.std.specs.Prelude.{◌≡◌};
ghost use Rattle.pw_embed.specs.Replies.{numbers_of, plain};

use pw_model::Reply;

/// What a request is answered: 1 entered, 2 running, 3 stands, 4 no such state, 5 disabled, 6 above the
/// limit, 7 no table, 8 unfit, 9 too slow.
#[repr(C)]
#[derive(Clone, Copy)]
pub struct ReplyNumbers {
    pub kind: u32,
    /// Of 3 the index, 4 the count, 6 the limit, 8 the domain, 9 the latency in microseconds; else 0.
    pub value: u32,
    /// Of 8 why the domain is unfit, 1 to 5; else 0.
    pub why: u8,
    /// Of 1 how many states there are; else 0.
    pub length: u8,
    pub states: [u8; 9],
}

impl ReplyNumbers {
    fn plain(kind: u32, value: u32, why: u8) -> ReplyNumbers
        ensures { result ≡ plain kind value why }
    {
        ReplyNumbers {
            kind,
            value,
            why,
            length: 0,
            states: [0; 9],
        }
    }

    /// The numbers of a reply.
    pub fn of(reply: Reply) -> ReplyNumbers
        ensures { result ≡ numbers_of reply }
    {
        match reply {
            Reply::Entered { chain } => {
                let states = chain.states;
                ReplyNumbers {
                    kind: 1,
                    value: 0,
                    why: 0,
                    length: chain.len,
                    states,
                }
            }
            Reply::Running => ReplyNumbers::plain(2, 0, 0),
            Reply::Stands { index } => ReplyNumbers::plain(3, index, 0),
            Reply::NoState { count } => ReplyNumbers::plain(4, count, 0),
            Reply::Disabled => ReplyNumbers::plain(5, 0, 0),
            Reply::AboveLimit { limit } => ReplyNumbers::plain(6, limit, 0),
            Reply::NoTable => ReplyNumbers::plain(7, 0, 0),
            Reply::Unfit { domain, why } => ReplyNumbers::plain(8, domain, why),
            Reply::TooSlow { latency } => ReplyNumbers::plain(9, latency, 0),
        }
    }
}
