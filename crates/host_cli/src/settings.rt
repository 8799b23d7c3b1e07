//! What the words of a command set, and why words ask for nothing.

use clap::{ArgMatches, Error};
use filter_files::{ParamSetting, setting_of};
use std::alloc::{AllocError, Global};

/// Why words ask for nothing.
#[derive(Drop)]
pub enum TaskError<'a> {
    /// They are no words of the program, they ask for help, or there was no memory.
    Words(Error),
    /// This word behind `--set` sets nothing.
    NoSetting(&'a str),
}

impl From<Error> for TaskError<'_> {
    fn from(error: Error) -> Self {
        TaskError::Words(error)
    }
}

impl From<AllocError> for TaskError<'_> {
    fn from(error: AllocError) -> Self {
        TaskError::Words(Error::from(error))
    }
}

/// What the words of a command set, in their order.
pub fn settings_of<'a>(
    alloc: Global,
    given: &ArgMatches<'a>,
) -> Result<Vec<ParamSetting<'a>>, TaskError<'a>> {
    let mut settings = Vec::new(alloc);
    for word in given.get_strs("set").unwrap_or(&[]) {
        let word: &'a str = *word;
        let Some(setting) = setting_of(word.as_bytes()) else {
            return Err(TaskError::NoSetting(word));
        };
        settings.push(setting).map_err(AllocError::from)?;
    }
    Ok(settings)
}
