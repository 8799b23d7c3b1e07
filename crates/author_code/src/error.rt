//! Why no module is written of a filter.

use author_text::place::Place;
use thiserror::Error;

/// What a number would have been for that is the ninth.
#[derive(Clone, Copy, Debug)]
pub enum Need {
    /// This number of the filter.
    Number(usize),
    /// Which brigade the bytes of the buffer go to.
    Target,
    /// How many bytes the buffer has.
    Length,
    /// How many bytes are in this hold, which has a limit.
    HoldSize(usize),
    /// What a sum or a condition needs on the way.
    Result,
}

/// What does not fit, or stands where it cannot.
#[derive(Clone, Copy, Debug, Error)]
pub enum CompileFault {
    /// `it` was given away before.
    #[error("`it` was given away before")]
    GivenAway,
    /// `it` is given away on one way through a loop and not on another.
    #[error("`it` is given away on one way through this loop and not on another")]
    GivenAwayOnOneWay,
    /// The statement is never reached.
    #[error("this is never reached")]
    NeverReached,
    /// A module has 8 numbers, and one more is needed at once.
    #[error("too many numbers at once: a module has 8")]
    TooManyNumbers(Need),
    /// A module has 8 brigades, and the output, the holds, the tables and what `n of h` needs are so many.
    #[error("too many holds and tables: {0} brigades are needed, and a module has 8")]
    TooManyBrigades(usize),
    /// A module has cursors for 6 tables, and so many are read by one.
    #[error("too many tables are read by a cursor: {0}, and a module has room for 6")]
    TooManyTables(usize),
    /// Loops over holds stand within each other, and there are no cursors left.
    #[error("too many loops within each other")]
    TooManyLoops,
    /// A module has 1024 instructions, and there are so many; where it is 20,000, at least so many.
    #[error("the filter is too long: {0} instructions, and a module has 1024")]
    TooLong(usize),
    /// A module has 64 texts, and there are so many.
    #[error("the filter has too many texts: {0}, and a module has 64")]
    TooManyTexts(usize),
    /// `leave` stands in a filter with an `on match` of two bytes or more: bytes that may begin a match wait, and would be lost.
    #[error("`leave` cannot stand in a filter with an `on match` of two bytes or more")]
    LeaveWithMatch,
    /// `it` was given away on one way to this `leave`, and not on another, on which it would be lost.
    #[error("`it` is given away on one way to this `leave` and not on another")]
    LeaveOnOneWay,
    /// The tree is not one of a filter that was read: a name leads nowhere, or a `break`, `continue` or `next` stands in no loop.
    #[error("this is no tree of a filter")]
    NoTree,
}

/// Why no module is written of a filter.
#[derive(Clone, Copy, Debug, Error)]
pub enum CodeError {
    /// The first such place of the source.
    #[error("line {}, column {}: {fault}", .place.line, .place.column)]
    At { place: Place, fault: CompileFault },
    /// There was no memory.
    #[error("no memory")]
    NoMemory,
}
