ghost use Rattle.std.specs.Prelude.{◌≡◌, ◌≢◌, ◌<◌, ◌≤◌, ◌||◌, ◌^◌, ℕ, List, true, length, take, drop, is_ok, is_err, is_some};
ghost use Rattle.std.specs.Prelude.{IfOk, OnErr, IsSome, IsSomeAnd, if◌then◌else◌};
ghost use Rattle.std.specs.String.{string_bytes};
ghost use Rattle.std.specs.Option.{option_copied};
ghost use Rattle.pw_base.specs.Outside.{Rose, KeepsFiles, IsRead};
ghost use Rattle.pw_base.specs.InMemory.{NamesDiffer, content_of, count_of, counted, is_listed, next_count};
ghost use Rattle.pw_base.specs.InMemory.{faults_of, holds_in, read_count, read_fails, tells};

use crate::failure::Failed;
use crate::files::Files;
use std::marker::Model;

/// One file in memory, and how many reads of it failed.
#[derive(Drop)]
pub struct MemoryFile {
    name: String,
    bytes: Vec<u8>,
    faults: u64,
}

impl Model for MemoryFile {
    ghost use Rattle.std.specs.Prelude.{◌<◌, ◌^◌};
    ghost use Rattle.std.specs.String.{string_bytes};
    ghost use Rattle.pw_base.specs.InMemory.{FileHeld};

    ghost Value = { FileHeld };

    ghost view = { λ f. record { name = string_bytes f.name; bytes = f.bytes.items; faults = f.faults } };

    ghost invariant = { λ f. f.faults < 2 ^ 64 };
}

impl MemoryFile {
    /// A file of this name and these bytes, of which no read failed yet.
    pub fn new(name: String, bytes: Vec<u8>) -> MemoryFile
        ensures { result ≡ record { name = string_bytes name; bytes = bytes.items; faults = 0 } }
    {
        MemoryFile {
            name,
            bytes,
            faults: 0,
        }
    }
}

/// Files in memory that tell all that they hold. A read gives at most `piece` bytes, and fails at the
/// calls that the caller listed, counted from 1, and where there is no file of the name. Failures are
/// counted for each file, and together for names that no file has.
#[derive(Drop)]
pub struct MemoryFiles {
    files: Vec<MemoryFile>,
    fails: Vec<u32>,
    piece: u32,
    calls: u64,
    absent: u64,
}

impl Model for MemoryFiles {
    ghost use Rattle.std.specs.Prelude.{◌≤◌};
    ghost use Rattle.pw_base.specs.InMemory.{FilesHeld};

    ghost Value = { FilesHeld };

    ghost view = { λ m. record {
      files = m.files.items;
      fails = m.fails.items;
      piece = m.piece;
      calls = m.calls;
      absent = m.absent;
    } };

    ghost invariant = { λ m. 1 ≤ m.piece };
}

impl MemoryFiles {
    /// These files, of which no call was made yet.
    pub fn new(files: Vec<MemoryFile>, fails: Vec<u32>, piece: u32) -> MemoryFiles
        requires names { NamesDiffer files.items }
        requires piece { 1 ≤ piece }
        ensures { result ≡ record {
          files = files.items;
          fails = fails.items;
          piece = piece;
          calls = 0;
          absent = 0;
        } }
    {
        MemoryFiles {
            files,
            fails,
            piece,
            calls: 0,
            absent: 0,
        }
    }
}

impl Files for MemoryFiles {
    ghost told = { tells };

    ghost holds = { holds_in };

    ghost faults = { faults_of };

    fn read(&mut self, name: &str, at: u64, buf: &mut [u8]) -> Result<usize, Failed>
        ensures keeps { KeepsFiles tells holds_in faults_of self.old self.new }
        ensures within { IfOk result (λ n. n ≤ length buf.old) }
        ensures content { IfOk result (λ n. tells self.old ≡ true →
            IsSomeAnd (holds_in self.old name.now) (λ content. IsRead content at n buf.new)) }
        ensures failed { OnErr result (Rose (faults_of self.old name.now) (faults_of self.new name.now)) }
        ensures exact_failure { is_err result ≡ read_fails self.old name.now }
        ensures exact_count { IfOk result (λ n. IsSomeAnd (holds_in self.old name.now)
            (λ content. n ≡ read_count self.old.piece content at buf.old)) }
        ensures state { self.new ≡ record self.old {
          files = if is_ok result then self.old.files else counted name.now self.old.files;
          calls = next_count self.old.calls;
          absent = if is_ok result || is_some (holds_in self.old name.now) then self.old.absent
              else next_count self.old.absent;
        } }
        // The count of no other file changes.
        ensures others { (other : List ℕ) → other ≢ name.now → IsSome (holds_in self.old other) →
            faults_of self.new other ≡ faults_of self.old other }
    {
        self.calls = self.calls.saturating_add(1);
        let found = if is_listed(self.fails.as_slice(), self.calls) {
            None
        } else {
            find_content(self.files.as_slice(), name)
        };
        match found {
            Some(content) => Ok(copy_from(content, at, self.piece, buf)),
            None => {
                if !count_fault(self.files.as_mut_slice(), name) {
                    self.absent = self.absent.saturating_add(1);
                }
                Err(Failed)
            }
        }
    }
}

fn find_content<'a>(files: &'a [MemoryFile], name: &str) -> Option<&'a [u8]>
    ensures { option_copied result ≡ content_of name.now files.now }
{
    for file in files {
        if file.name.as_str() == name {
            return Some(file.bytes.as_slice());
        }
    }
    None
}

/// Counts a failure at the file of a name, and says whether there is one.
fn count_fault(files: &mut [MemoryFile], name: &str) -> bool
    ensures counted { files.new ≡ counted name.now files.old }
    ensures found { result ≡ is_some (content_of name.now files.old) }
    ensures bound { result ≡ true → count_of name.now 0 files.old < 2 ^ 64 }
{
    for file in files {
        if file.name.as_str() == name {
            file.faults = file.faults.saturating_add(1);
            return true;
        }
    }
    false
}

/// Whether a call's number is listed.
pub(crate) fn is_listed(fails: &[u32], call: u64) -> bool
    ensures { result ≡ is_listed fails.now call }
{
    fails.iter().any(|n| u64::from(*n) == call)
}

fn copy_from(content: &[u8], at: u64, piece: u32, buf: &mut [u8]) -> usize
    ensures count { result ≡ read_count piece content.now at buf.old }
    ensures bytes { take result buf.new ≡ take result (drop at content.now) }
{
    if at >= content.len() as u64 {
        return 0;
    }
    let rest = &content[at as usize..];
    let count = rest.len().min(buf.len()).min(piece as usize);
    buf[..count].copy_from_slice(&rest[..count]);
    count
}
