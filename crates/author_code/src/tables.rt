//! Tables: those of few rising runs become comparisons, the others are read from a brigade.

ghost use Rattle.std.specs.Prelude.{◌<◌, ◌≤◌, length};

use std::alloc::{AllocError, Global};

/// Bytes of a table that rise by one, or stay: from `start` up to before `end`, the first of them `value`.
#[derive(Clone, Copy)]
pub(crate) struct Run {
    pub(crate) start: usize,
    pub(crate) end: usize,
    pub(crate) value: u8,
    pub(crate) rises: bool,
}

/// A table, as it is compiled.
#[derive(Drop)]
pub(crate) struct TableCode {
    pub(crate) len: usize,
    pub(crate) runs: Option<Vec<Run>>,
    /// The cursor that reads it, where it is in a brigade.
    pub(crate) cursor: Option<u8>,
}

/// How many runs a table has at most that becomes comparisons.
pub(crate) const MOST_RUNS: usize = 8;

/// Where bytes end that rise by so much each.
fn run_end(bytes: &[u8], start: usize, by: u8) -> usize
    requires { start < length bytes.now }
    ensures within { result ≤ length bytes.now }
    ensures moves { start < result }
{
    let mut last = bytes[start];
    for (at, byte) in bytes.iter().enumerate() {
        if start < at {
            if last.checked_add(by) != Some(*byte) {
                return at;
            }
            last = *byte;
        }
    }
    bytes.len()
}

/// The run that begins at a byte.
fn run_at(bytes: &[u8], start: usize) -> Run
    requires { start < length bytes.now }
    ensures within { result.end ≤ length bytes.now }
    ensures moves { start < result.end }
{
    let rising = run_end(bytes, start, 1);
    let even = run_end(bytes, start, 0);
    Run {
        start,
        end: rising.max(even),
        value: bytes[start],
        rises: even <= rising,
    }
}

/// The runs of a table, where they are few.
pub(crate) fn runs_of(alloc: Global, bytes: &[u8]) -> Result<Option<Vec<Run>>, AllocError> {
    let mut runs = Vec::new(alloc);
    let mut start = 0;
    for _ in 0..MOST_RUNS {
        if bytes.len() <= start {
            break;
        }
        let run = run_at(bytes, start);
        runs.push(run)?;
        start = run.end;
    }
    if start < bytes.len() {
        return Ok(None);
    }
    Ok(Some(runs))
}
