//! What is said of a filter that does not fit.

use crate::error::{CompileFault, Need};
use author_text::tree::Filter;
use itoa::Buffer;
use std::alloc::{AllocError, Global};

/// What is said before and behind a name or a number, or all.
fn words(fault: CompileFault) -> (&'static str, &'static str) {
    match fault {
        CompileFault::GivenAway => ("`it` was given away before", ""),
        CompileFault::GivenAwayOnOneWay => (
            "`it` is given away on one way through this loop and not on another",
            "",
        ),
        CompileFault::NeverReached => ("this is never reached", ""),
        CompileFault::TooManyNumbers(_) => (
            "too many numbers at once: ",
            " would be the ninth; a module has 8, and variables take ",
        ),
        CompileFault::TooManyBrigades(_) => (
            "too many holds and tables: ",
            " brigades are needed, and a module has 8",
        ),
        CompileFault::TooManyTables(_) => (
            "too many tables are read by a cursor: ",
            ", and a module has room for 6",
        ),
        CompileFault::TooManyLoops => ("too many loops within each other", ""),
        CompileFault::TooLong(_) => (
            "the filter is too long: ",
            " instructions, and a module has 1024",
        ),
        CompileFault::TooManyTexts(_) => {
            ("the filter has too many texts: ", ", and a module has 64")
        }
        CompileFault::LeaveWithMatch => (
            "`leave` cannot stand in a filter with an `on match` of two bytes or more",
            "",
        ),
        CompileFault::LeaveOnOneWay => (
            "`it` is given away on one way to this `leave` and not on another",
            "",
        ),
        CompileFault::NoTree => ("this is no tree of a filter", ""),
    }
}

/// What a ninth number would have been for: the words before a name, and the name, if it has one.
fn needed(filter: &Filter, need: Need) -> (&'static str, Option<&[u8]>) {
    match need {
        Need::Number(number) => match filter.numbers.get(number) {
            Some(number) => ("", Some(number.name.as_slice())),
            None => ("a number", None),
        },
        Need::Target => ("the target of the buffer", None),
        Need::Length => ("the length of the buffer", None),
        Need::HoldSize(hold) => match filter.holds.get(hold) {
            Some(hold) => ("the size of ", Some(hold.name.as_slice())),
            None => ("the size of a hold", None),
        },
        Need::Result => ("a number", None),
    }
}

/// How many numbers the variables of a filter take.
fn variables(filter: &Filter) -> usize {
    let mut count: usize = 0;
    for number in filter.numbers.iter().take(filter.lasting) {
        if number.name.as_slice().first() != Some(&b'(') {
            count = count.saturating_add(1);
        }
    }
    count
}

fn push_count(text: &mut Vec<u8>, count: usize) -> Result<(), AllocError> {
    let mut digits = Buffer::new();
    text.extend_from_slice(digits.format(count).as_bytes())
}

fn push_need(text: &mut Vec<u8>, filter: &Filter, need: Need) -> Result<(), AllocError> {
    let (before, name) = needed(filter, need);
    text.extend_from_slice(before.as_bytes())?;
    if let Some(name) = name {
        text.extend_from_slice(b"`")?;
        text.extend_from_slice(name)?;
        text.extend_from_slice(b"`")?;
    }
    Ok(())
}

/// A fault in plain words, with the names of the filter that it speaks of.
pub fn fault_text(
    alloc: Global,
    filter: &Filter,
    fault: CompileFault,
) -> Result<Vec<u8>, AllocError> {
    let (before, behind) = words(fault);
    let mut text = Vec::from_slice(alloc, before.as_bytes())?;
    match fault {
        CompileFault::TooManyNumbers(need) => push_need(&mut text, filter, need)?,
        CompileFault::TooManyBrigades(count)
        | CompileFault::TooManyTables(count)
        | CompileFault::TooLong(count)
        | CompileFault::TooManyTexts(count) => push_count(&mut text, count)?,
        _ => {}
    }
    text.extend_from_slice(behind.as_bytes())?;
    if let CompileFault::TooManyNumbers(_) = fault {
        push_count(&mut text, variables(filter))?;
    }
    Ok(text)
}
