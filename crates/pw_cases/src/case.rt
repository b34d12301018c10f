use crate::bytes::{put_block, put_bytes};
use crate::outside::{Outside, SOUND};
use crate::played::{Meeting, block_bytes};
use pw_base::{Gate, Memory, MemoryFiles, MemorySink, OpenGate};
use pw_cli::run;
use pw_regs::FailingRegisters;
use std::alloc::Global;
use std::mem::replace;
use std::sync::Wait;
use std::thread::Threads;

/// One run: what the files `a`, `b` and `c` hold, the words, what the outside is like, and what must come:
/// what stands on the two outputs, all of it or so many first bytes, and how many operations the registers
/// saw, unless any number may come. A processor's request may be held until another's has been answered, and
/// the file `a` may have to be the block that is generated with so many containers.
#[derive(Drop)]
pub(crate) struct Case {
    a: Vec<u8>,
    b: Vec<u8>,
    c: Vec<u8>,
    words: Vec<String>,
    outside: Outside,
    held: Option<(u32, u32)>,
    out: Vec<u8>,
    out_first: u32,
    err: Vec<u8>,
    err_first: u32,
    ops: Option<u32>,
    made: Option<u32>,
}

/// What a run is given of files and outputs.
#[derive(Drop)]
struct Given {
    files: MemoryFiles,
    out: MemorySink,
    err: MemorySink,
}

impl Case {
    pub(crate) fn new(alloc: Global) -> Case {
        Case {
            a: Vec::new(alloc),
            b: Vec::new(alloc),
            c: Vec::new(alloc),
            words: Vec::new(alloc),
            outside: SOUND,
            held: None,
            out: Vec::new(alloc),
            out_first: u32::MAX,
            err: Vec::new(alloc),
            err_first: u32::MAX,
            ops: Some(0),
            made: None,
        }
    }

    /// Begins a case of the same files, words and text over another outside.
    pub(crate) fn again(&mut self) {
        self.outside = SOUND;
        self.held = None;
        self.made = None;
        self.out_first = u32::MAX;
        self.err.clear();
        self.err_first = u32::MAX;
    }

    /// Begins a case of the same file `a`, with another script.
    pub(crate) fn other(&mut self) {
        self.anew();
        self.c.clear();
    }

    /// Begins a case of the same files `a` and `c` and the same words, with another history.
    pub(crate) fn anew(&mut self) {
        self.again();
        self.b.clear();
        self.out.clear();
        self.ops = Some(0);
    }

    /// Reads a line of the list.
    pub(crate) fn read(&mut self, alloc: Global, line: &str) -> Option<()> {
        let Some((key, rest)) = line.split_once(" ") else {
            return if line.is_empty() { Some(()) } else { None };
        };
        match key {
            "#" => Some(()),
            "run" => self.read_words(alloc, rest),
            "out" => put_line(&mut self.out, rest),
            "out-bytes" => put_bytes(alloc, &mut self.out, rest),
            "out-file" => self.put_file(rest),
            "err" => put_line(&mut self.err, rest),
            "block" => self.make_block(alloc, rest),
            "script" => put_line(&mut self.c, rest),
            "history" => put_line(&mut self.b, rest),
            "ops" => self.read_ops(rest),
            "hold" => self.read_held(rest),
            "made" => self.read_made(rest),
            _ => self.read_number(alloc, key, rest),
        }
    }

    /// Reads a line that sets a number, or adds bytes to a file.
    fn read_number(&mut self, alloc: Global, key: &str, rest: &str) -> Option<()> {
        let Some(number) = self.number(key) else {
            return put_bytes(alloc, self.file(key)?, rest);
        };
        *number = rest.parse::<u32>().ok()?;
        Some(())
    }

    fn number(&mut self, key: &str) -> Option<&mut u32> {
        match key {
            "out-first" => Some(&mut self.out_first),
            "err-first" => Some(&mut self.err_first),
            _ => self.outside.number(key),
        }
    }

    fn read_ops(&mut self, rest: &str) -> Option<()> {
        self.ops = if rest == "any" {
            None
        } else {
            Some(rest.parse::<u32>().ok()?)
        };
        Some(())
    }

    fn read_held(&mut self, rest: &str) -> Option<()> {
        let (held, other) = rest.split_once(" ")?;
        self.held = Some((held.parse::<u32>().ok()?, other.parse::<u32>().ok()?));
        Some(())
    }

    fn read_made(&mut self, rest: &str) -> Option<()> {
        self.made = Some(rest.parse::<u32>().ok()?);
        Some(())
    }

    fn read_words(&mut self, alloc: Global, words: &str) -> Option<()> {
        self.words.clear();
        for word in words.split_whitespace() {
            let word = String::from_str(alloc, word).ok()?;
            self.words.push(word).ok()?;
        }
        Some(())
    }

    fn put_file(&mut self, name: &str) -> Option<()> {
        let held = self.file(name)?.clone().ok()?;
        self.out.extend_from_slice(held.as_slice()).ok()
    }

    /// Puts the header of a block before what a file has.
    fn make_block(&mut self, alloc: Global, words: &str) -> Option<()> {
        let (name, signature) = words.split_once(" ")?;
        let file = self.file(name)?;
        let body = replace(file, Vec::new(alloc));
        let put = put_block(file, signature, body.as_slice());
        drop(body);
        put
    }

    fn file(&mut self, name: &str) -> Option<&mut Vec<u8>> {
        match name {
            "a" => Some(&mut self.a),
            "b" => Some(&mut self.b),
            "c" => Some(&mut self.c),
            _ => None,
        }
    }

    fn files(&self, alloc: Global) -> Result<MemoryFiles, Memory> {
        let (a, b, c) = (self.a.as_slice(), self.b.as_slice(), self.c.as_slice());
        self.outside.files(alloc, a, b, c)
    }

    /// What came of the run: `as it must be`, or what else.
    pub(crate) fn run<T: Threads + Wait + Sync>(
        &self,
        rt: &T,
        alloc: Global,
        status: u8,
    ) -> Option<&'static str> {
        let Some((held, other)) = self.held else {
            return self.run_at(rt, alloc, status, &OpenGate);
        };
        let gate = Meeting::of_two(held, other);
        let told = self.run_at(rt, alloc, status, &gate)?;
        Some(if gate.gave_up() {
            "the gate gave up"
        } else {
            told
        })
    }

    fn run_at<T: Threads + Wait + Sync, G: Gate + Sync>(
        &self,
        rt: &T,
        alloc: Global,
        status: u8,
        gate: &G,
    ) -> Option<&'static str> {
        let mut given = self.given(alloc)?;
        let told = self.run_on(rt, alloc, status, gate, &mut given);
        drop(given);
        told
    }

    /// The same on these files and outputs.
    fn run_on<T: Threads + Wait + Sync, G: Gate + Sync>(
        &self,
        rt: &T,
        alloc: Global,
        status: u8,
        gate: &G,
        given: &mut Given,
    ) -> Option<&'static str> {
        let regs = self.outside.regs(alloc).ok()?;
        let words = self.words.as_slice();
        let (files, out, err) = (&mut given.files, &mut given.out, &mut given.err);
        let outcome = run(rt, alloc, words, files, out, err, regs, gate);
        let told = if outcome.status != status {
            Some("another status")
        } else {
            self.told_by(self.is_made(alloc), given, &outcome.regs)
        };
        drop(outcome);
        told
    }

    /// The files and the outputs of a run.
    fn given(&self, alloc: Global) -> Option<Given> {
        let files = self.files(alloc).ok()?;
        let out = self.outside.out(alloc).ok()?;
        let err = self.outside.err(alloc).ok()?;
        Some(Given { files, out, err })
    }

    /// Whether the file `a` is the block that is generated, where it must be.
    fn is_made(&self, alloc: Global) -> Option<bool> {
        let Some(containers) = self.made else {
            return Some(true);
        };
        Some(block_bytes(alloc, containers)?.as_slice() == self.a.as_slice())
    }

    /// What the block, the outputs and the registers tell, where the status is as it must be.
    fn told_by(
        &self,
        is_made: Option<bool>,
        given: &Given,
        regs: &FailingRegisters,
    ) -> Option<&'static str> {
        Some(if !is_made? {
            "another block is generated"
        } else if given.out.written() != first_of(self.out.as_slice(), self.out_first) {
            "another output"
        } else if given.err.written() != first_of(self.err.as_slice(), self.err_first) {
            "another line"
        } else if self.ops.is_some_and(|ops| regs.log().len() != ops as usize) {
            "other operations"
        } else {
            "as it must be"
        })
    }
}

/// So many first bytes, all where there are fewer.
fn first_of(bytes: &[u8], count: u32) -> &[u8] {
    &bytes[..(count as usize).min(bytes.len())]
}

fn put_line(bytes: &mut Vec<u8>, line: &str) -> Option<()> {
    bytes.extend_from_slice(line.as_bytes()).ok()?;
    bytes.push(b'\n').ok()
}
