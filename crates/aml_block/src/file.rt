ghost use Rattle.std.specs.Prelude.{◌≡◌, ◌+◌, ◌<◌, ◌≤◌, ◌^◌, take, length, vec_len};
ghost use Rattle.std.specs.Prelude.{IfOk, IfErr, OnOk, OnErr};
ghost use Rattle.pw_base.specs.Outside.{Rose, KeepsFiles};
ghost use Rattle.aml_block.specs.declared.file.FileFault.TheVariants as file_faults;
ghost use Rattle.aml_block.specs.Answers.{IsHeldAnd};
ghost use Rattle.aml_block.specs.inner.Content.{Continues};

use pw_base::{Failed, Files};
use std::alloc::{AllocError, Global};

/// Why a file wasn't read.
#[derive(Clone, Copy)]
pub enum FileFault {
    /// A read failed, or there is no such file.
    ReadFault,
    /// Want of memory.
    Memory,
}

impl From<AllocError> for FileFault {
    ghost from_gives = { λ _ e. e ≡ file_faults.Memory };

    fn from(_e: AllocError) -> FileFault {
        FileFault::Memory
    }
}

impl From<Failed> for FileFault {
    ghost from_gives = { λ _ e. e ≡ file_faults.ReadFault };

    fn from(_e: Failed) -> FileFault {
        FileFault::ReadFault
    }
}

/// At least so many bytes are asked for at once, where as many may still come.
const CHUNK: usize = 65_536;

/// Makes room for a chunk behind the bytes that are filled, up to the limit. No more is made, since it
/// is filled with zeros first; the vector itself takes memory for more, so that it seldom moves.
fn make_room(buffer: &mut Vec<u8>, filled: usize, limit: usize) -> Result<(), AllocError>
    requires within { filled ≤ vec_len buffer.old }
    requires bound { vec_len buffer.old ≤ limit }
    requires room { filled < limit }
    requires small { limit < 2 ^ 32 }
    ensures same { take filled buffer.new.items ≡ take filled buffer.old.items }
    ensures some { OnOk result (filled < vec_len buffer.new) }
    ensures bounded { OnOk result (vec_len buffer.new ≤ limit) }
{
    let len = buffer.len();
    if len == limit || len - filled >= CHUNK {
        return Ok(());
    }
    buffer.resize((filled + CHUNK).min(limit), 0)
}

/// Reads more of a file into the room behind the bytes that are filled.
fn read_more<F: Files>(
    files: &mut F,
    name: &str,
    buffer: &mut [u8],
    filled: usize,
) -> Result<usize, Failed>
    requires { filled < length buffer.old }
    ensures keeps { KeepsFiles F.told F.holds F.faults files.old files.new }
    ensures within { IfOk result (λ n. filled + n ≤ length buffer.old) }
    ensures content { IfOk result (λ n. IsHeldAnd (F.told files.old) (F.holds files.old name.now) (λ content.
        Continues content filled n buffer.old buffer.new)) }
    ensures failed { OnErr result (Rose (F.faults files.old name.now) (F.faults files.new name.now)) }
{
    let read = files.read(name, filled as u64, &mut buffer[filled..]);
    read
}

/// The bytes of a file, or its first bytes up to a limit. It asks for 64 KiB or more at once, and takes
/// what comes, until there is no more.
pub fn read_all<F: Files>(
    alloc: Global,
    files: &mut F,
    name: &str,
    limit: usize,
) -> Result<Vec<u8>, FileFault>
    requires some { 0 < limit }
    requires small { limit < 2 ^ 32 }
    ensures keeps { KeepsFiles F.told F.holds F.faults files.old files.new }
    ensures bounded { IfOk result (λ v. vec_len v ≤ limit) }
    // What is told is the beginning of what the name holds.
    ensures content { IfOk result (λ v. IsHeldAnd (F.told files.old) (F.holds files.old name.now) (λ content.
        v.items ≡ take limit content)) }
    // It is a read fault only where a read of this name failed.
    ensures failed { IfErr result (λ f. f ≡ FileFault.ReadFault →
        Rose (F.faults files.old name.now) (F.faults files.new name.now)) }
{
    let mut buffer = Vec::new(alloc);
    let mut filled = 0;
    while filled < limit {
        make_room(&mut buffer, filled, limit)?;
        let n = read_more(files, name, &mut buffer, filled)?;
        if n == 0 {
            buffer.truncate(filled);
            return Ok(buffer);
        }
        filled += n;
    }
    buffer.truncate(filled);
    Ok(buffer)
}
