//! The program: it plays scripts, prints modules, makes, checks and upgrades certificates, filters bodies and serves.
#![tactic(auto)]

mod endings;
mod filter_command;
mod filters;
mod serve_options;
mod settings;
mod task;
mod words;

use byte_streams::{CountedSource, StdSink};
use endings::{end, end_unset, end_words};
use filter_command::filter_input;
use filter_files::{ParamSetting, is_filter_name, run_new_filter};
use filters::{compile_file, module_text, unless_unused};
use http_serve::run_serve;
use life_explain::{explain_certify, explain_check, explain_play, explain_upgrade};
use module_commands::{
    CertTask, Ended, NamedFile, PlayFault, Recorded, RecordedWriter, run_assemble, run_certify,
    run_check, run_new, run_upgrade,
};
use script_play::run_play;
use settings::TaskError;
use std::alloc::AllocError;
use std::io::{IsTerminal, Read};
use std::process::ExitCode;
use std::{env, io};
use task::{CliTask, task_of};

fn assemble_file(rt: &HostRuntime, file: &str) -> ExitCode {
    let mut reader = CountedSource::from_reader(NamedFile::new(rt, file));
    let assembled = run_assemble(rt.alloc(), &mut reader, &mut StdSink::new(rt.stdout()));
    end(rt, assembled, file, reader.source().reader.fault())
}

/// Whether help is written on the standard error: where it was asked for, or where that is a terminal.
fn shows_help(rt: &HostRuntime, asked: bool) -> bool {
    asked || rt.stderr().is_terminal()
}

fn write_help(rt: &HostRuntime, text: Result<String, AllocError>) {
    let _ = match text {
        Ok(text) => eprint!(rt; "{text}"),
        Err(AllocError) => rt.eprintln(PlayFault::NoMemory),
    };
}

fn is_refused(ended: &Result<Ended, PlayFault>) -> bool {
    matches!(ended, Ok(Ended::Refused))
}

/// Makes a certificate of what a reader gives, and writes how that ended.
fn certify<T: Read + Drop>(
    rt: &HostRuntime,
    input: T,
    is_slim: bool,
    helps: bool,
) -> Result<Ended, PlayFault> {
    let mut reader = CountedSource::from_reader(Recorded::new(rt.alloc(), input, helps));
    let mut writer = StdSink::new(rt.stdout());
    let certified = run_certify(rt.alloc(), &mut reader, &mut writer, is_slim);
    if helps && is_refused(&certified) {
        let given = reader.source().reader.given();
        write_help(rt, explain_certify(rt.alloc(), given));
    }
    certified
}

fn certify_file(
    rt: &HostRuntime,
    file: &str,
    settings: &mut [ParamSetting<'_>],
    is_slim: bool,
    helps: bool,
) -> Result<ExitCode, ExitCode> {
    if is_filter_name(file) {
        let text = module_text(rt, file, settings, helps)?;
        let certified = certify(rt, text.as_slice(), is_slim, helps);
        return Ok(end(rt, certified, file, None));
    }
    unless_unused(rt, settings)?;
    let mut input = NamedFile::new(rt, file);
    let certified = certify(rt, &mut input, is_slim, helps);
    Ok(end(rt, certified, file, input.fault()))
}

fn certify_input(
    rt: &HostRuntime,
    settings: &[ParamSetting<'_>],
    is_slim: bool,
    helps: bool,
) -> Result<ExitCode, ExitCode> {
    unless_unused(rt, settings)?;
    let certified = certify(rt, rt.stdin(), is_slim, helps);
    Ok(end(rt, certified, "standard input", None))
}

fn play_script(rt: &HostRuntime, asked: bool) -> ExitCode {
    let helps = shows_help(rt, asked);
    let input = Recorded::new(rt.alloc(), rt.stdin(), helps);
    let mut reader = CountedSource::from_reader(input);
    let mut writer = StdSink::new(RecordedWriter::new(rt.alloc(), rt.stdout(), helps));
    let played = run_play(rt.alloc(), &mut reader, &mut writer);
    if helps && played.is_ok() {
        let given = reader.source().reader.given();
        write_help(rt, explain_play(rt.alloc(), given, writer.writer.taken()));
    }
    end(rt, played, "standard input", None)
}

/// Checks or upgrades a certificate of a module, and writes how that ended.
fn ask_with_cert<T: Read + Drop, C: Read + Drop>(
    rt: &HostRuntime,
    task: CertTask,
    file: T,
    cert: C,
    helps: bool,
) -> Result<Ended, PlayFault> {
    let mut reader = CountedSource::from_reader(Recorded::new(rt.alloc(), file, helps));
    let mut certs = CountedSource::from_reader(Recorded::new(rt.alloc(), cert, helps));
    let mut writer = StdSink::new(rt.stdout());
    let ended = match task {
        CertTask::Check => run_check(rt.alloc(), &mut reader, &mut certs, &mut writer),
        CertTask::Upgrade => run_upgrade(rt.alloc(), &mut reader, &mut certs, &mut writer),
    };
    if helps && is_refused(&ended) {
        let given = reader.source().reader.given();
        let cert_given = certs.source().reader.given();
        write_help(rt, explained(rt, task, given, cert_given));
    }
    ended
}

/// Why a certificate is refused, in words.
fn explained(
    rt: &HostRuntime,
    task: CertTask,
    text: &[u8],
    cert: &[u8],
) -> Result<String, AllocError> {
    match task {
        CertTask::Check => explain_check(rt.alloc(), text, cert),
        CertTask::Upgrade => explain_upgrade(rt.alloc(), text, cert),
    }
}

/// Writes how it ended that a certificate was asked for, with the file that was read last.
fn end_with_cert(
    rt: &HostRuntime,
    ended: Result<Ended, PlayFault>,
    file: &str,
    why: Option<io::Error>,
    cert: &NamedFile<'_, HostRuntime>,
) -> ExitCode {
    if cert.is_read() {
        end(rt, ended, cert.name(), cert.fault())
    } else {
        end(rt, ended, file, why)
    }
}

fn ask_with_cert_file(
    rt: &HostRuntime,
    task: CertTask,
    file: &str,
    cert: &str,
    settings: &mut [ParamSetting<'_>],
    helps: bool,
) -> Result<ExitCode, ExitCode> {
    let mut cert_file = NamedFile::new(rt, cert);
    if is_filter_name(file) {
        let text = module_text(rt, file, settings, helps)?;
        let ended = ask_with_cert(rt, task, text.as_slice(), &mut cert_file, helps);
        return Ok(end_with_cert(rt, ended, file, None, &cert_file));
    }
    unless_unused(rt, settings)?;
    let mut module_file = NamedFile::new(rt, file);
    let ended = ask_with_cert(rt, task, &mut module_file, &mut cert_file, helps);
    Ok(end_with_cert(rt, ended, file, module_file.fault(), &cert_file))
}

fn new_text(rt: &HostRuntime, is_filter: bool) -> ExitCode {
    let mut writer = StdSink::new(rt.stdout());
    let written = if is_filter {
        run_new_filter(&mut writer)
    } else {
        run_new(&mut writer)
    };
    end(rt, written, "", None)
}

fn code_of(ended: Result<ExitCode, ExitCode>) -> ExitCode {
    match ended {
        Ok(code) | Err(code) => code,
    }
}

fn perform(rt: &HostRuntime, task: CliTask<'_>) -> ExitCode {
    match task {
        CliTask::Play { explains } => play_script(rt, explains),
        CliTask::New { is_filter } => new_text(rt, is_filter),
        CliTask::Assemble { file } => assemble_file(rt, file),
        CliTask::Compile {
            file,
            mut settings,
            explains,
        } => compile_file(rt, file, settings.as_mut_slice(), shows_help(rt, explains)),
        CliTask::Certify {
            file: Some(file),
            mut settings,
            is_slim,
            explains,
        } => code_of(certify_file(
            rt,
            file,
            settings.as_mut_slice(),
            is_slim,
            shows_help(rt, explains),
        )),
        CliTask::Certify {
            file: None,
            settings,
            is_slim,
            explains,
        } => code_of(certify_input(rt, settings.as_slice(), is_slim, shows_help(rt, explains))),
        CliTask::WithCert {
            task,
            file,
            cert,
            mut settings,
            explains,
        } => code_of(ask_with_cert_file(
            rt,
            task,
            file,
            cert,
            settings.as_mut_slice(),
            shows_help(rt, explains),
        )),
        CliTask::Filter(options) => filter_input(rt, options),
        CliTask::Serve(mut options) => run_serve(rt, &mut options),
    }
}

fn arguments(rt: &HostRuntime) -> io::Result<Vec<String>> {
    Ok(env::args(rt)?.collect(rt.alloc())?)
}

fn main(rt: HostRuntime) -> ExitCode {
    match arguments(&rt) {
        Ok(words) => match task_of(rt.alloc(), words.as_slice()) {
            Ok(task) => perform(&rt, task),
            Err(TaskError::Words(error)) => end_words(&rt, &error),
            Err(TaskError::NoSetting(word)) => end_unset(&rt, word),
        },
        Err(error) if error.kind() == io::ErrorKind::OutOfMemory => end(
            &rt,
            Err(PlayFault::NoMemory),
            "",
            None,
        ),
        Err(_) => {
            let _ = rt.eprintln("error: an argument is not UTF-8");
            ExitCode::from(2)
        }
    }
}
