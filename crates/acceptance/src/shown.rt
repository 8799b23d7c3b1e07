//! How rows show what is written.

use byte_text::first_line;
use std::alloc::{AllocError, Global};
use std::io::{self, Write};

/// A line of more bytes is shown by their number, and by the first of them.
const LONGEST: usize = 100;

/// How a CR is shown.
const CR: &str = "\\r";

/// What stands in a line before its CR, and that CR as it is shown.
fn parted(line: &[u8]) -> (&[u8], &'static str) {
    match line.split_last() {
        Some((b'\r', text)) => (text, CR),
        _ => (line, ""),
    }
}

/// Adds a line, with its CR and LF as they are written in a string of Rust.
fn put_line(out: &mut Vec<u8>, line: &[u8], ended: bool) -> io::Result<()> {
    let (text, cr) = parted(line);
    let lf = if ended { "\\n" } else { "" };
    match text {
        [first, ..] if text.len() > LONGEST => {
            let count = text.len();
            let letter = *first as char;
            writeln!(out, "{count} times {letter}{cr}{lf}")
        }
        _ => writeln!(out, "{}{cr}{lf}", text.escape_ascii()),
    }
}

/// The lines of what was written.
pub(crate) fn shown(alloc: Global, written: &[u8]) -> io::Result<Vec<u8>> {
    let mut out = Vec::new(alloc);
    let mut rest = written;
    while !rest.is_empty() {
        let line = first_line(rest);
        put_line(&mut out, line.text, line.ended)?;
        rest = &rest[line.width..];
    }
    Ok(out)
}
