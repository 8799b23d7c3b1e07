//! What is written beside an answer, for the standard error: figures of a module, and a line of a source with its place.

use author_code::PerByte;
use author_compile::Compiled;
use author_text::place::Place;
use author_text::tree::{Filter, Hold};
use byte_text::{is_printable, len_before, tail};
use std::alloc::{AllocError, Global};

/// How many bytes of a source line are shown before a column.
const SHOWN_BEFORE: usize = 60;

/// How many bytes of a source line are shown at most.
const SHOWN: usize = 120;

/// The line of a number, counted from 1, without its end; empty where there is none.
fn line_at(text: &[u8], line: usize) -> &[u8] {
    let mut rest = text;
    for _ in 1..line {
        let end = len_before(rest, b'\n');
        rest = tail(&rest[end..]);
    }
    let end = len_before(rest, b'\n');
    &rest[..end]
}

/// A byte as it is shown: a tab stays one, and what is not printed is a `?`.
fn shown(byte: u8) -> u8 {
    if byte == b'\t' || is_printable(byte) {
        byte
    } else {
        b'?'
    }
}

/// What stands below a byte that stands before the place.
fn below(byte: u8) -> u8 {
    if byte == b'\t' { b'\t' } else { b' ' }
}

/// Adds the source line of a place, and below it a caret under the column. A long line is cut.
pub fn put_pointed(notes: &mut Vec<u8>, text: &[u8], place: Place) -> Result<(), AllocError> {
    let line = line_at(text, place.line);
    let column = place.column.saturating_sub(1).min(line.len());
    let first = column.saturating_sub(SHOWN_BEFORE);
    for byte in line.iter().skip(first).take(SHOWN) {
        notes.push(shown(*byte))?;
    }
    notes.push(b'\n')?;
    put_caret(notes, line, first, column)
}

fn put_caret(
    notes: &mut Vec<u8>,
    line: &[u8],
    first: usize,
    column: usize,
) -> Result<(), AllocError> {
    for byte in line.iter().take(column).skip(first) {
        notes.push(below(*byte))?;
    }
    notes.extend_from_slice(b"^\n")
}

/// How many instructions a byte takes, in words.
fn per_byte_text(alloc: Global, per_byte: PerByte) -> Result<String, AllocError> {
    match per_byte {
        PerByte::NoLoop => format!(in alloc; "it has no loop over all bytes"),
        PerByte::Most(count) => format!(in alloc; "a byte takes at most {count}"),
        PerByte::Unbounded => format!(in alloc; "how many a byte takes has no bound"),
    }
}

/// Adds that a hold has no bound, where it has none.
fn put_unbounded(notes: &mut Vec<u8>, hold: &Hold) -> Result<(), AllocError> {
    if hold.limit.is_some() {
        return Ok(());
    }
    notes.extend_from_slice(b"hold ")?;
    notes.extend_from_slice(hold.name.as_slice())?;
    notes.extend_from_slice(b" has no bound; `at most N` behind its name gives it one\n")
}

/// Adds how long the module is, how many instructions a byte takes at most, and which holds have no bound.
pub fn put_figures(
    alloc: Global,
    notes: &mut Vec<u8>,
    filter: &Filter,
    compiled: &Compiled,
) -> Result<(), AllocError> {
    let count = compiled.code.len();
    let per_byte = per_byte_text(alloc, compiled.per_byte)?;
    let per_byte = per_byte.as_str();
    let said = format!(in alloc; "the module has {count} instructions; {per_byte}\n")?;
    notes.extend_from_slice(said.as_bytes())?;
    for hold in &filter.holds {
        put_unbounded(notes, hold)?;
    }
    Ok(())
}
