//! Scripts driven by workers side by side. `data/runs.txt` lists runs whose outcome is certain: of one
//! processor alone, or by a gate that holds requests up until others have been answered, or until so
//! many workers stand at the gate at once. Of each is told the text of the history, how many operations
//! the registers saw, and what the audit says of the text.
//!
//! Then come runs of machines and loads that are generated, each with a history of its own: 200 of two
//! containers, and 200 of eight, which take 64 workers and 4,096 requests each. The audit must accept
//! all with an entry for each line, the registers must have seen the operations of the text, and all
//! must have the summary of one caller's run. At last registers fail amid such runs: each must be
//! lawful, and its last operation that before the one that failed.

pub(crate) mod case;
mod many;
mod told;

use many::{put_faults, put_runs};
use std::alloc::Global;
use std::sync::Wait;
use std::thread::Threads;

/// The calls that fail: of the opening, which has 16 on two containers, and of requests.
const FAILS: [u32; 12] = [1, 8, 16, 17, 18, 20, 25, 30, 40, 50, 60, 70];

/// Tells what comes of the machines that are generated.
pub(crate) fn put_generated<R: Threads + Wait + Sync>(
    rt: &R,
    text: &mut String,
    alloc: Global,
) -> Option<()> {
    put_runs(rt, text, alloc, 2, 200)?;
    put_runs(rt, text, alloc, 8, 200)?;
    put_faults(rt, text, alloc, 2, &FAILS)
}
