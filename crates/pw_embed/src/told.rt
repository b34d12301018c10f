ghost use Rattle.std.specs.Prelude.{◌≡◌};
ghost use Rattle.pw_embed.specs.Told.{reply_after, status_of};

use crate::{ReplyNumbers, Status};
use pw_turns::Try;

/// The status of what a request was told.
pub fn status_of(told: Try) -> Status
    ensures { result ≡ status_of told }
{
    match told {
        Try::Answer(_) => Status::Done,
        Try::Busy { .. } => Status::Busy,
        Try::Full { .. } => Status::Full,
        Try::RegisterFault { .. } => Status::Stopped,
        Try::Stopped { .. } => Status::Stopped,
    }
}

/// Writes the numbers of the reply, where there is one.
pub fn put_reply(told: Try, reply: &mut ReplyNumbers)
    ensures { reply.new ≡ reply_after reply.old told }
{
    if let Try::Answer(answer) = told {
        *reply = ReplyNumbers::of(answer);
    }
}
