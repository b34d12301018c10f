//! What crosses threads, and a system's files and outputs.

use pw_base::{Boxed, CompactList, Failed, Files, Sink, StdFiles, StdSink, put_all};
use std::alloc::Global;
use std::{env, fs, process};

// Whether a value and a `&` to it may go to another thread.
fn may_cross<T: Send + Sync>(_value: &T) {}

/// Whether lists and boxes cross threads.
pub(crate) fn lists_and_boxes(alloc: Global) -> Option<bool> {
    let bytes = CompactList::from_slice(alloc, &[1u8, 2]).ok()?;
    may_cross(&bytes);
    let lists = CompactList::from_vec(alloc, vec![in alloc; bytes].ok()?).ok()?;
    may_cross(&lists);
    let boxed = Boxed::new(alloc, lists).ok()?;
    may_cross(&boxed);
    Some(boxed.into_inner().as_slice().len() == 1)
}

/// Whether a file gives so many bytes from a place on, and these at first.
fn gives<F: Files>(files: &mut F, name: &str, at: u64, len: usize, first: [u8; 4]) -> bool {
    let mut buf = [0u8; 4];
    files.read(name, at, &mut buf) == Ok(len) && buf == first
}

/// Whether a file can't be read.
fn fails<F: Files>(files: &mut F, name: &str) -> bool {
    files.read(name, 0, &mut [0u8; 4]) == Err(Failed)
}

/// Whether these files read `abcdef` in turn and from a place, and none that isn't there.
fn are_first<F: Files>(files: &mut F, name: &str) -> bool {
    gives(files, name, 0, 4, *b"abcd")
        && gives(files, name, 4, 2, *b"ef\x00\x00")
        && gives(files, name, 6, 0, [0; 4])
        && gives(files, name, 1, 4, *b"bcde")
        && fails(files, "/no such folder/no such file")
        && fails(files, "/")
}

/// Whether a file is read as it is written, again where it is written anew, and not once it is gone.
fn are_read(rt: HostRuntime, name: &str) -> Option<bool> {
    let mut files = StdFiles::new(rt, rt.alloc());
    fs::write(&rt, name, b"abcdef".as_slice()).ok()?;
    let came = are_first(&mut files, name);
    fs::write(&rt, name, b"uvwx".as_slice()).ok()?;
    let came = came && gives(&mut files, name, 0, 4, *b"uvwx");
    fs::remove_file(&rt, name).ok()?;
    Some(came && fails(&mut files, name))
}

/// Whether a system's files are read in turn and from a place.
pub(crate) fn system_files(rt: HostRuntime) -> Option<bool> {
    let mut path = env::temp_dir(&rt).ok()?;
    let id = process::id(rt.process());
    path.push(format!(in rt.alloc(); "pw_base_std_files_{id}").ok()?)
        .ok()?;
    are_read(rt, path.as_str())
}

/// Whether a system's output takes a line.
fn takes(mut sink: StdSink) -> bool {
    put_all(&mut sink, b"a line\n") == Ok(()) && sink.write(b"") == Ok(0)
}

/// Whether a system's outputs take bytes.
pub(crate) fn system_sinks(rt: HostRuntime) -> Option<bool> {
    let is_out = takes(StdSink::stdout(rt.stdout()));
    let is_err = takes(StdSink::stderr(rt.stderr()));
    Some(is_out && is_err)
}
