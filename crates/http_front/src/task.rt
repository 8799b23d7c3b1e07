//! A request for a file that is under way.

ghost use Rattle.std.specs.Prelude.{◌≤◌, ◌+◌, ◌*◌};

use http_message::Method;

/// What is left of a file that is brought: from a place on so many brigades of 65536 bytes, and the last one.
#[derive(Drop)]
pub struct FileRest {
    /// Its number, and how many bytes it has.
    pub file: u64,
    pub len: u64,
    /// The place, and how many whole brigades follow.
    pub start: u64,
    pub left: u64,
    ghost fits: { start + left * 65536 ≤ len },
}

/// A request that is under way.
#[derive(Drop)]
pub enum RequestTask {
    /// `init` runs. Then this file is opened.
    Opens {
        /// What is asked of the file.
        method: Method,
        /// Its name.
        name: Vec<u8>,
    },
    /// The call of a brigade runs. Then this is left of the file.
    Brings(Option<FileRest>),
}
