//! What the program is called for.

use crate::filter_command::{FilterOptions, filter_options};
use crate::serve_options::options_of;
use crate::settings::{TaskError, settings_of};
use crate::words::program;
use clap::ArgMatches;
use filter_files::ParamSetting;
use http_serve::ServeOptions;
use module_commands::CertTask;
use std::alloc::Global;

/// What the words of the command line ask for.
#[derive(Drop)]
pub enum CliTask<'a> {
    /// A script is played.
    Play {
        explains: bool,
    },
    /// A module or a filter to begin with is printed.
    New {
        is_filter: bool,
    },
    /// The module of a filter is printed.
    Compile {
        file: &'a str,
        settings: Vec<ParamSetting<'a>>,
        explains: bool,
    },
    /// A module is printed.
    Assemble {
        file: &'a str,
    },
    /// A certificate is made, of the module of this file, or of standard input.
    Certify {
        file: Option<&'a str>,
        settings: Vec<ParamSetting<'a>>,
        is_slim: bool,
        explains: bool,
    },
    /// A certificate is checked, or upgraded.
    WithCert {
        task: CertTask,
        file: &'a str,
        cert: &'a str,
        settings: Vec<ParamSetting<'a>>,
        explains: bool,
    },
    /// Standard input is filtered.
    Filter(FilterOptions<'a>),
    /// Connections are served.
    Serve(ServeOptions<'a>),
}

/// What a command is called for that takes a module and a certificate.
fn cert_tool<'a>(
    task: CertTask,
    file: &'a str,
    settings: Vec<ParamSetting<'a>>,
    given: &ArgMatches<'a>,
) -> CliTask<'a> {
    CliTask::WithCert {
        task,
        file,
        cert: given.get_str("CERT").unwrap_or(""),
        settings,
        explains: given.get_flag("explain"),
    }
}

/// What a command is called for that judges, compiles or plays.
fn tool_of<'a>(name: &str, settings: Vec<ParamSetting<'a>>, given: &ArgMatches<'a>) -> CliTask<'a> {
    let given_file = given.get_str("FILE");
    let file = given_file.unwrap_or("");
    let explains = given.get_flag("explain");
    match name {
        "new" => CliTask::New {
            is_filter: given.get_flag("filter"),
        },
        "compile" => CliTask::Compile {
            file,
            settings,
            explains,
        },
        "assemble" => CliTask::Assemble { file },
        "certify" => CliTask::Certify {
            file: given_file,
            settings,
            is_slim: given.get_flag("slim"),
            explains,
        },
        "check" => cert_tool(CertTask::Check, file, settings, given),
        "upgrade" => cert_tool(CertTask::Upgrade, file, settings, given),
        _ => CliTask::Play { explains },
    }
}

/// What the command that was found is called for.
fn found_task<'a>(alloc: Global, matches: &ArgMatches<'a>) -> Result<CliTask<'a>, TaskError<'a>> {
    match matches.subcommand() {
        None => Ok(CliTask::Play { explains: false }),
        Some(("filter", given)) => Ok(CliTask::Filter(filter_options(alloc, given)?)),
        Some(("serve", given)) => Ok(CliTask::Serve(options_of(alloc, given)?)),
        Some((name, given)) => Ok(tool_of(name, settings_of(alloc, given)?, given)),
    }
}

/// What these words ask for, of which the first is the program's name. `TaskError`: they are no words of the program, they ask for
/// help, a word behind `--set` sets nothing, or there was no memory.
pub fn task_of<'a>(alloc: Global, words: &'a [String]) -> Result<CliTask<'a>, TaskError<'a>> {
    let matches = program(alloc)?.try_get_matches_from(words)?;
    found_task(alloc, &matches)
}
