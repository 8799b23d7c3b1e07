//! How the program ends: what it writes then, and its status.

use byte_streams::StdSink;
use clap::Error;
use clap::error::ErrorKind;
use module_commands::{Ended, PlayFault, write_text};
use std::io;
use std::io::IsTerminal;
use std::process::ExitCode;

/// Writes that a line cannot be written.
fn end_unwritten(rt: &HostRuntime) -> ExitCode {
    let _ = rt.eprintln(PlayFault::Write);
    ExitCode::FAILURE
}

/// Writes how a task ended, and a fault of the program by one line; the name is that of what could not be read. Why it could not, where that is
/// known, is written on the standard error.
pub fn end(
    rt: &HostRuntime,
    ended: Result<Ended, PlayFault>,
    name: &str,
    why: Option<io::Error>,
) -> ExitCode {
    let written = match ended {
        Ok(Ended::Done) => return ExitCode::SUCCESS,
        Ok(Ended::Refused) => Ok(()),
        Err(PlayFault::Read) => rt.println(format_args!("{} {name}", PlayFault::Read)),
        Err(fault @ PlayFault::NoMemory) => rt.println(fault),
        Err(PlayFault::Write) => return end_unwritten(rt),
    };
    if written.is_err() {
        return end_unwritten(rt);
    }
    if let Some(why) = why {
        let _ = rt.eprintln(format_args!("cause: {why}"));
    }
    ExitCode::FAILURE
}

/// Writes why the words ask for nothing, or the help that they ask for.
pub fn end_words(rt: &HostRuntime, error: &Error) -> ExitCode {
    if error.kind() == ErrorKind::OutOfMemory {
        return end(rt, Err(PlayFault::NoMemory), "", None);
    }
    let printed = error.print(rt);
    if error.use_stderr() {
        return ExitCode::from(2);
    }
    match printed {
        Ok(()) => ExitCode::SUCCESS,
        Err(_) => end_unwritten(rt),
    }
}

/// Writes of a word behind `--set` that it sets nothing.
pub fn end_unset(rt: &HostRuntime, word: &str) -> ExitCode {
    let _ = rt.eprintln(format_args!(
        "error: --set takes NAME=VALUE or FILTER.NAME=VALUE, not {word}"
    ));
    ExitCode::from(2)
}

/// Writes what is of use beside an answer.
pub fn write_notes(rt: &HostRuntime, notes: &[u8]) {
    let _ = write_text(&mut StdSink::new(rt.stderr()), notes);
}

/// Writes the line that refuses a file on the standard error too, with the file's name, where the standard output is no terminal and so may be a file.
pub fn write_named(rt: &HostRuntime, file: &str, line: &[u8]) {
    if !rt.stdout().is_terminal() {
        let _ = rt.eprint(format_args!("{file}: "));
        write_notes(rt, line);
    }
}

/// Ends with the line that says why a filter or a setting is refused, and with notes.
pub fn end_refused(rt: &HostRuntime, line: &[u8], notes: &[u8]) -> ExitCode {
    let written = write_text(&mut StdSink::new(rt.stdout()), line);
    let ended = match written {
        Ok(()) => Ok(Ended::Refused),
        Err(fault) => Err(fault),
    };
    write_notes(rt, notes);
    end(rt, ended, "", None)
}
