use crate::scripts::reading::{Choice, Functions, Handler};
use std::alloc::Global;

/// What is told of how a script is read: nothing but a refusal, each line, or how many.
#[derive(Clone, Copy)]
pub(crate) enum Reading {
    Nothing,
    Lines,
    Count,
}

/// What is told of a history: nothing, its lines, or how many bytes they are.
#[derive(Clone, Copy)]
pub(crate) enum Printing {
    Nothing,
    Lines,
    Length,
}

/// A script, the functions that it is read with, and what must be told.
#[derive(Drop)]
pub(crate) struct Case {
    pub script: Vec<u8>,
    pub functions: Functions,
    pub reading: Reading,
    pub printing: Printing,
    /// How many operations were done when a register failed at the opening.
    pub opening: Option<u32>,
    /// 0, or one more than how many were done when one failed at the last line.
    pub fault: u32,
    /// What must be told.
    pub wanted: String,
}

impl Case {
    pub(crate) fn new(alloc: Global) -> Case {
        Case {
            script: Vec::new(alloc),
            functions: Functions {
                choice: Choice::Deepest,
                perf: Handler::Follow,
                throttle: Handler::Follow,
            },
            reading: Reading::Nothing,
            printing: Printing::Nothing,
            opening: None,
            fault: 0,
            wanted: String::new(alloc),
        }
    }

    /// Reads the lines of a case.
    pub(crate) fn read_all(&mut self, alloc: Global, lines: &str) -> Option<()> {
        for line in lines.lines() {
            self.read(alloc, line)?;
        }
        Some(())
    }

    fn read(&mut self, alloc: Global, line: &str) -> Option<()> {
        let (key, rest) = line.split_once(" ").unwrap_or((line, ""));
        match key {
            "" | "#" => Some(()),
            "line" => put_line(&mut self.script, rest),
            "piece" => put_text(&mut self.script, rest),
            "lines" => put_times(alloc, &mut self.script, rest, true),
            "pieces" => put_times(alloc, &mut self.script, rest, false),
            "governor" | "perf-handler" | "throttle-handler" | "opening-fault" | "fault" => {
                self.set(key, rest)
            }
            _ => self.want(key, line),
        }
    }

    fn set(&mut self, key: &str, rest: &str) -> Option<()> {
        match key {
            "governor" => self.functions.choice = choice_of(rest)?,
            "perf-handler" => self.functions.perf = handler_of(rest)?,
            "throttle-handler" => self.functions.throttle = handler_of(rest)?,
            "opening-fault" => self.opening = Some(rest.parse::<u32>().ok()?),
            _ => self.fault = rest.parse::<u32>().ok()?.checked_add(1)?,
        }
        Some(())
    }

    /// Reads a line that must be told.
    fn want(&mut self, key: &str, line: &str) -> Option<()> {
        match key {
            "script:" | "sink" => {}
            "asks" => self.reading = Reading::Lines,
            "count" => self.reading = Reading::Count,
            "out" => self.printing = Printing::Lines,
            "length" => self.printing = Printing::Length,
            _ => return None,
        }
        self.wanted.push_str(line).ok()?;
        self.wanted.push_str("\n").ok()
    }
}

fn choice_of(name: &str) -> Option<Choice> {
    match name {
        "deepest" => Some(Choice::Deepest),
        "nothing" => Some(Choice::Nothing),
        _ => None,
    }
}

fn handler_of(name: &str) -> Option<Handler> {
    match name {
        "follow" => Some(Handler::Follow),
        "step" => Some(Handler::Step),
        _ => None,
    }
}

/// Puts a text, in which `%0D` is the byte of these digits.
fn put_text(bytes: &mut Vec<u8>, text: &str) -> Option<()> {
    let (first, _) = text.split_once("%").unwrap_or((text, ""));
    bytes.extend_from_slice(first.as_bytes()).ok()?;
    for piece in text.split("%").skip(1) {
        put_escaped(bytes, piece)?;
    }
    Some(())
}

fn put_escaped(bytes: &mut Vec<u8>, piece: &str) -> Option<()> {
    let (digits, rest) = piece.split_at_checked(2)?;
    bytes.push(u8::from_str_radix(digits, 16).ok()?).ok()?;
    bytes.extend_from_slice(rest.as_bytes()).ok()
}

/// Puts a line with its line feed.
fn put_line(bytes: &mut Vec<u8>, text: &str) -> Option<()> {
    put_text(bytes, text)?;
    bytes.push(b'\n').ok()
}

/// Puts a text so many times as the number before it says, or lines of it.
fn put_times(alloc: Global, bytes: &mut Vec<u8>, rest: &str, is_line: bool) -> Option<()> {
    let (count, text) = rest.split_once(" ").unwrap_or((rest, ""));
    let mut piece = Vec::new(alloc);
    put_text(&mut piece, text)?;
    if is_line {
        piece.push(b'\n').ok()?;
    }
    put_pieces(bytes, piece.as_slice(), count.parse::<u32>().ok()?)
}

fn put_pieces(bytes: &mut Vec<u8>, piece: &[u8], count: u32) -> Option<()> {
    for _ in 0..count {
        bytes.extend_from_slice(piece).ok()?;
    }
    Some(())
}
