ghost use Rattle.std.specs.Prelude.{◌≡◌};
ghost use Rattle.pw_embed.specs.CppcNumbers.{numbers_of, plain, request_in};

use pw_cppc::{CppcReply, CppcRequest};

/// What a processor asks of its performance, on the scale of its `_CPC`: 1 a desired performance, 2 a
/// minimum, 3 a maximum.
#[repr(C)]
#[derive(Clone, Copy)]
pub struct CppcRequestNumbers {
    pub kind: u32,
    pub cpu: u32,
    pub value: u32,
}

impl CppcRequestNumbers {
    /// The request that the numbers ask for.
    pub fn request(&self) -> Option<CppcRequest>
        ensures { result ≡ request_in self.now }
    {
        let cpu = self.cpu;
        let value = self.value;
        match self.kind {
            1 => Some(CppcRequest::Desired { cpu, value }),
            2 => Some(CppcRequest::Minimum { cpu, value }),
            3 => Some(CppcRequest::Maximum { cpu, value }),
            _ => None,
        }
    }
}

/// What it is answered: 1 stands, 2 no table, 3 unfit, 4 out of range, 5 crossed.
#[repr(C)]
#[derive(Clone, Copy)]
pub struct CppcReplyNumbers {
    pub kind: u32,
    /// Of 3 why the domain is unfit, 1 to 6; else 0.
    pub why: u32,
    /// Of 1 the performance, 4 the lowest, 5 the bound; else 0.
    pub value: u64,
    /// Of 4 the highest performance; else 0.
    pub highest: u64,
}

impl CppcReplyNumbers {
    fn plain(kind: u32, why: u32, value: u64, highest: u64) -> CppcReplyNumbers
        ensures { result ≡ plain kind why value highest }
    {
        CppcReplyNumbers {
            kind,
            why,
            value,
            highest,
        }
    }

    /// The numbers of a reply.
    pub fn of(reply: CppcReply) -> CppcReplyNumbers
        ensures { result ≡ numbers_of reply }
    {
        match reply {
            CppcReply::Stands { value } => CppcReplyNumbers::plain(1, 0, value, 0),
            CppcReply::NoTable => CppcReplyNumbers::plain(2, 0, 0, 0),
            CppcReply::Unfit { why } => CppcReplyNumbers::plain(3, u32::from(why), 0, 0),
            CppcReply::OutOfRange { lowest, highest } => {
                CppcReplyNumbers::plain(4, 0, lowest, highest)
            }
            CppcReply::Crossed { bound } => CppcReplyNumbers::plain(5, 0, bound, 0),
        }
    }
}
