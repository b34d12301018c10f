ghost use Rattle.std.specs.Prelude.{◌≡◌, IfOk};

use pw_base::{Memory, MemoryFile, MemoryFiles, MemorySink};
use pw_regs::FailingRegisters;
use std::alloc::Global;

/// How the outside of a run is made: how much it takes or gives at once, for how much it has room, and at
/// which call it fails, counted from 1; at none where that is 0.
#[derive(Clone, Copy)]
pub(crate) struct Outside {
    reads_of: u32,
    read_fails: u32,
    writes_of: u32,
    write_fails: u32,
    room: u32,
    errors_of: u32,
    error_fails: u32,
    registers: u32,
    register_fails: u32,
}

/// One that doesn't fail.
pub(crate) const SOUND: Outside = Outside {
    reads_of: 1 << 20,
    read_fails: 0,
    writes_of: 20_000_000,
    write_fails: 0,
    room: 20_000_000,
    errors_of: 1000,
    error_fails: 0,
    registers: 1000,
    register_fails: 0,
};

impl Outside {
    /// The number that a line of the list sets.
    pub(crate) fn number(&mut self, key: &str) -> Option<&mut u32> {
        match key {
            "reads-of" => Some(&mut self.reads_of),
            "read-fails" => Some(&mut self.read_fails),
            "writes-of" => Some(&mut self.writes_of),
            "write-fails" => Some(&mut self.write_fails),
            "room" => Some(&mut self.room),
            "errors-of" => Some(&mut self.errors_of),
            "error-fails" => Some(&mut self.error_fails),
            "registers" => Some(&mut self.registers),
            "register-fails" => Some(&mut self.register_fails),
            _ => None,
        }
    }

    /// The files `a`, `b` and `c` that hold these bytes.
    pub(crate) fn files(
        &self,
        alloc: Global,
        a: &[u8],
        b: &[u8],
        c: &[u8],
    ) -> Result<MemoryFiles, Memory> {
        let fails = just(alloc, self.read_fails)?;
        let mut held = Vec::new(alloc);
        held.push(file_of(alloc, "a", a)?)?;
        held.push(file_of(alloc, "b", b)?)?;
        held.push(file_of(alloc, "c", c)?)?;
        Ok(MemoryFiles::new(held, fails, self.reads_of.max(1)))
    }

    pub(crate) fn out(&self, alloc: Global) -> Result<MemorySink, Memory> {
        let fails = just(alloc, self.write_fails)?;
        MemorySink::new(alloc, self.room, fails, self.writes_of.max(1))
    }

    pub(crate) fn err(&self, alloc: Global) -> Result<MemorySink, Memory> {
        let fails = just(alloc, self.error_fails)?;
        MemorySink::new(alloc, 1000, fails, self.errors_of.max(1))
    }

    pub(crate) fn regs(&self, alloc: Global) -> Result<FailingRegisters, Memory> {
        let fails = just(alloc, self.register_fails)?;
        FailingRegisters::new(alloc, self.registers, fails)
    }
}

/// A file of this name and these bytes.
fn file_of(alloc: Global, name: &str, bytes: &[u8]) -> Result<MemoryFile, Memory>
    ensures { IfOk result (λ file. file.name ≡ name.now) }
{
    let bytes = bytes.to_vec(alloc)?;
    let name = String::from_str(alloc, name)?;
    Ok(MemoryFile::new(name, bytes))
}

/// A list of this number alone.
fn just(alloc: Global, number: u32) -> Result<Vec<u32>, Memory> {
    let mut list = Vec::new(alloc);
    list.push(number)?;
    Ok(list)
}
