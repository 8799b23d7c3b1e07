//! Filters in the language for authors: they are compiled, and what is refused of them is reported.

use crate::endings::{end, end_refused, write_named, write_notes};
use byte_streams::{CountedSource, StdSink};
use filter_files::{FilterFault, ParamSetting, compile_output, run_compile, unused_setting};
use module_commands::{CommandOutput, Ended, NamedFile, PlayFault, RecordedWriter};
use std::alloc::AllocError;
use std::process::ExitCode;

/// Ends where a setting is for no filter.
pub fn unless_unused(rt: &HostRuntime, settings: &[ParamSetting<'_>]) -> Result<(), ExitCode> {
    match unused_setting(rt.alloc(), settings) {
        Ok(None) => Ok(()),
        Ok(Some(FilterFault { place: _, line })) => Err(end_refused(rt, line.as_slice(), &[])),
        Err(AllocError) => Err(end(rt, Err(PlayFault::NoMemory), "", None)),
    }
}

/// The text of the module of a filter. Where it has none, that is reported.
pub fn module_text(
    rt: &HostRuntime,
    file: &str,
    settings: &mut [ParamSetting<'_>],
    helps: bool,
) -> Result<Vec<u8>, ExitCode> {
    let mut reader = CountedSource::from_reader(NamedFile::new(rt, file));
    let mut notes = Vec::new(rt.alloc());
    match compile_output(rt.alloc(), &mut reader, settings, &mut notes) {
        Ok(
            CommandOutput {
                text,
                ended: Ended::Done,
            },
        ) => Ok(text),
        Ok(
            CommandOutput {
                text,
                ended: Ended::Refused,
            },
        ) => {
            let notes = if helps { notes.as_slice() } else { &[] };
            write_named(rt, file, text.as_slice());
            Err(end_refused(rt, text.as_slice(), notes))
        }
        Err(fault) => Err(end(rt, Err(fault), file, reader.source().reader.fault())),
    }
}

pub fn compile_file(
    rt: &HostRuntime,
    file: &str,
    settings: &mut [ParamSetting<'_>],
    helps: bool,
) -> ExitCode {
    let mut reader = CountedSource::from_reader(NamedFile::new(rt, file));
    let mut writer = StdSink::new(RecordedWriter::new(rt.alloc(), rt.stdout(), true));
    let mut notes = Vec::new(rt.alloc());
    let compiled = run_compile(rt.alloc(), &mut reader, settings, &mut writer, &mut notes);
    let is_refused = matches!(compiled, Ok(Ended::Refused));
    if is_refused {
        write_named(rt, file, writer.writer.taken());
    }
    if helps || !is_refused {
        write_notes(rt, notes.as_slice());
    }
    end(rt, compiled, file, reader.source().reader.fault())
}
