//! The command `filter`.

use crate::serve_options::{budget_of, chain_of};
use crate::settings::{TaskError, settings_of};
use body_filter::{BodyEnd, CheckedChain, Limits, run_filter};
use byte_streams::{CountedSource, StdSink, StdSource};
use clap::ArgMatches;
use filter_files::{FileChain, ParamSetting, read_chain, write_stop};
use http_serve::failure_hint;
use module_commands::PlayFault;
use std::alloc::Global;
use std::process::ExitCode;

/// How often standard input is read at most, by reads of 8,000 bytes at most: a pipe may stay open for long.
const BODY_READS: u32 = u32::MAX;

/// What `filter` is asked for.
#[derive(Drop)]
pub struct FilterOptions<'a> {
    /// How many instructions a call of the chain may take.
    budget: u32,
    /// The params that are set.
    settings: Vec<ParamSetting<'a>>,
    /// The files of the filters, the first first.
    chain: Vec<&'a str>,
}

/// What the words of the command ask for.
pub fn filter_options<'a>(
    alloc: Global,
    given: &ArgMatches<'a>,
) -> Result<FilterOptions<'a>, TaskError<'a>> {
    Ok(FilterOptions {
        budget: budget_of(given),
        settings: settings_of(alloc, given)?,
        chain: chain_of(alloc, given)?,
    })
}

/// Writes on the standard error why not all of the body was filtered: the standard output has what came out.
fn end_filter(rt: &HostRuntime, ended: Result<BodyEnd, PlayFault>) -> ExitCode {
    let _ = match ended {
        Ok(BodyEnd::Whole) => return ExitCode::SUCCESS,
        Ok(BodyEnd::Cut(why)) => {
            let hint = failure_hint(why);
            rt.eprintln(format_args!("cannot filter: {why}{hint}"))
        }
        Err(fault @ PlayFault::Read) => rt.eprintln(format_args!("{fault} standard input")),
        Err(fault @ (PlayFault::Write | PlayFault::NoMemory)) => rt.eprintln(fault),
    };
    ExitCode::FAILURE
}

/// Puts standard input through a chain that was accepted.
fn filter_through(rt: &HostRuntime, chain: CheckedChain, budget: u32) -> ExitCode {
    let limits = Limits {
        budget: u64::from(budget),
    };
    let mut reader = CountedSource::new(StdSource::new(rt.stdin()), BODY_READS);
    let mut writer = StdSink::new(rt.stdout());
    end_filter(
        rt,
        run_filter(rt.alloc(), chain, limits, &mut reader, &mut writer),
    )
}

/// Puts standard input through a chain of files, which is checked first.
pub fn filter_input(rt: &HostRuntime, options: FilterOptions<'_>) -> ExitCode {
    let FilterOptions {
        budget,
        mut settings,
        chain,
    } = options;
    match read_chain(rt, chain.as_slice(), settings.as_mut_slice()) {
        Ok(FileChain { chain, per_byte: _ }) => filter_through(rt, chain, budget),
        Err(stop) => write_stop(rt, stop),
    }
}
