//! What the words of `serve` ask for.

use crate::settings::{TaskError, settings_of};
use clap::ArgMatches;
use http_serve::ServeOptions;
use std::alloc::{AllocError, Global};

/// How many connections are asked for.
fn conns_of(given: &ArgMatches<'_>) -> Option<u32> {
    if given.get_flag("forever") {
        return None;
    }
    Some(given.get_one::<u32>("conns").unwrap_or(1))
}

/// How many instructions a call of the chain may take.
pub fn budget_of(given: &ArgMatches<'_>) -> u32 {
    given.get_one::<u32>("budget").unwrap_or(1_000_000)
}

/// The names of the files of the chain.
pub fn chain_of<'a>(alloc: Global, given: &ArgMatches<'a>) -> Result<Vec<&'a str>, AllocError> {
    let mut modules = Vec::new(alloc);
    for name in given.get_strs("MODULE").unwrap_or(&[]) {
        modules.push(*name).map_err(AllocError::from)?;
    }
    Ok(modules)
}

/// What the words of the command ask for.
pub fn options_of<'a>(
    alloc: Global,
    given: &ArgMatches<'a>,
) -> Result<ServeOptions<'a>, TaskError<'a>> {
    Ok(ServeOptions {
        site: given.get_str("site").unwrap_or(""),
        port: given.get_one::<u16>("port").unwrap_or(1),
        listen: given.get_str("listen").unwrap_or("127.0.0.1"),
        conns: conns_of(given),
        budget: budget_of(given),
        at_once: given.get_one::<u32>("at-once").unwrap_or(1),
        timeout: given.get_one::<u32>("timeout").unwrap_or(30),
        logs: given.get_flag("log"),
        modules: chain_of(alloc, given)?,
        settings: settings_of(alloc, given)?,
    })
}
