//! Why a command does not start, and what is written of it.

use byte_text::{TextWriter, put_all};
use module_commands::PlayFault;
use std::alloc::{AllocError, Global};
use std::process::ExitCode;
use std::{fmt, io};

/// Why it is so, as far as it is known. It is written on the standard error.
#[derive(Drop)]
pub enum StartCause {
    /// The line on the standard output says all.
    InLine,
    /// The system said this.
    System(io::Error),
    /// These words say it.
    Words(&'static str),
    /// These lines say which file it is, what is wrong with it, and where.
    Lines(String),
}

impl StartCause {
    /// What the system said, where it said something.
    pub fn of_fault(fault: Option<io::Error>) -> StartCause {
        match fault {
            Some(fault) => StartCause::System(fault),
            None => StartCause::InLine,
        }
    }
}

/// What is written of a file that is refused: its name and the line that refuses it, and notes below.
pub fn named_lines(
    alloc: Global,
    name: &str,
    line: &[u8],
    notes: &[u8],
) -> Result<StartCause, AllocError> {
    let mut lines = Vec::from_slice(alloc, name.as_bytes())?;
    lines.extend_from_slice(b": ")?;
    lines.extend_from_slice(line)?;
    lines.extend_from_slice(notes)?;
    match String::from_utf8(lines) {
        Ok(lines) => Ok(StartCause::Lines(lines)),
        Err(_) => Ok(StartCause::InLine),
    }
}

impl fmt::Display for StartCause {
    fn fmt<W: fmt::Write>(&self, f: &mut fmt::Formatter<W>) -> fmt::Result {
        match self {
            StartCause::InLine => Ok(()),
            StartCause::System(fault) => write!(f, "cause: {fault}\n"),
            StartCause::Words(words) => write!(f, "cause: {words}\n"),
            StartCause::Lines(lines) => write!(f, "{lines}"),
        }
    }
}

/// Why a command does not start.
#[derive(Drop)]
pub enum StartError {
    /// The line that says it, and the cause.
    Line(Vec<u8>, StartCause),
    /// There was no memory.
    NoMemory,
}

impl From<AllocError> for StartError {
    fn from(_error: AllocError) -> StartError {
        StartError::NoMemory
    }
}

/// The stop with this line, for this cause.
pub fn stop_for(alloc: Global, line: Result<String, AllocError>, cause: StartCause) -> StartError {
    let Ok(line) = line else {
        return StartError::NoMemory;
    };
    match Vec::from_slice(alloc, line.as_bytes()) {
        Ok(text) => StartError::Line(text, cause),
        Err(AllocError) => StartError::NoMemory,
    }
}

/// The stop with this line.
pub fn stop_with(alloc: Global, line: Result<String, AllocError>) -> StartError {
    stop_for(alloc, line, StartCause::InLine)
}

/// The stop of a file of this name that cannot be read.
pub fn cannot_read(alloc: Global, name: &str, cause: StartCause) -> StartError {
    stop_for(alloc, format!(in alloc; "cannot read {name}\n"), cause)
}

fn is_put<R: Print>(rt: &R, line: &[u8]) -> bool {
    put_all(&mut TextWriter::new(io::writer(rt)), line).is_ok()
}

fn is_written<R: Print>(rt: &R, fault: PlayFault) -> bool {
    rt.println(fault).is_ok()
}

/// Ends with a line on the standard output and its cause on the standard error, or with a line there on a fault of the standard output.
pub fn write_stop<R: Print + Eprint>(rt: &R, stop: StartError) -> ExitCode {
    let (written, cause) = match stop {
        StartError::Line(line, cause) => (is_put(rt, line.as_slice()), cause),
        StartError::NoMemory => (is_written(rt, PlayFault::NoMemory), StartCause::InLine),
    };
    let _ = if written {
        rt.eprint(cause)
    } else {
        rt.eprintln(PlayFault::Write)
    };
    ExitCode::FAILURE
}
