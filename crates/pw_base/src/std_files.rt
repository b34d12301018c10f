ghost use Rattle.std.specs.Prelude.{◌≡◌, ◌≤◌, None, false, length, IfOk};

use crate::failure::Failed;
use crate::files::Files;
use std::alloc::Global;
use std::fs::File;
use std::io::{Read, Seek, SeekFrom};
use std::marker::Model;
use std::{io, rt};

#[derive(Drop)]
struct Opened<F> {
    file: F,
    name: String,
    place: u64,
}

/// The files of the system. It tells nothing of what they hold. It keeps the file that it opened last,
/// so that one that is read from its start to its end is opened once and need not seek, as a pipe
/// can't. A read at place 0 opens the file anew. Contracts see its count of failures, which is one for all
/// names: to count by name would take memory, which may be what a read failed for.
#[derive(Drop)]
pub struct StdFiles<R: rt::Files> {
    system: R,
    alloc: Global,
    opened: Option<Opened<R::File>>,
    faults: u64,
}

impl<R: rt::Files> Model for StdFiles<R> {
    ghost use Rattle.std.specs.Prelude.{ℕ};

    ghost Value = { ℕ };

    ghost view = { λ s. s.faults };
}

impl<R: rt::Files> StdFiles<R> {
    /// The files of this system.
    pub fn new(system: R, alloc: Global) -> StdFiles<R>
        ensures { result ≡ 0 }
    {
        StdFiles {
            system,
            alloc,
            opened: None,
            faults: 0,
        }
    }
}

impl<R: rt::Files> Files for StdFiles<R> {
    ghost told = { λ _. false };

    ghost holds = { λ _ _. None };

    ghost faults = { λ count _. count };

    fn read(&mut self, name: &str, at: u64, buf: &mut [u8]) -> Result<usize, Failed> {
        let last = self.opened.take();
        match read_opened(&self.system, self.alloc, last, name, at, buf) {
            Ok((opened, count)) => {
                self.opened = Some(opened);
                Ok(count)
            }
            Err(_) => {
                self.faults = self.faults.saturating_add(1);
                Err(Failed)
            }
        }
    }
}

fn read_opened<R: rt::Files>(
    system: &R,
    alloc: Global,
    last: Option<Opened<R::File>>,
    name: &str,
    at: u64,
    buf: &mut [u8],
) -> io::Result<(Opened<R::File>, usize)>
    ensures { IfOk result (λ r. r.1 ≤ length buf.old) }
{
    let mut opened = match last {
        Some(last) if at > 0 && last.name.as_str() == name => last,
        _other => open(system, alloc, name)?,
    };
    if opened.place != at {
        opened.file.seek(SeekFrom::Start(at))?;
        opened.place = at;
    }
    let count = opened.file.read(buf)?;
    opened.place = at.saturating_add(count as u64);
    Ok((opened, count))
}

fn open<R: rt::Files>(system: &R, alloc: Global, name: &str) -> io::Result<Opened<R::File>> {
    let name = String::from_str(alloc, name)?;
    let file = File::open(system, name.as_str())?;
    Ok(Opened {
        file,
        name,
        place: 0,
    })
}
