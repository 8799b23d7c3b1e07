//! Where something stands in a text.

/// A place in a text: the line and the column of a byte, both counted from 1. A tab is one column.
#[derive(Clone, Copy, Debug)]
pub struct Place {
    pub line: usize,
    pub column: usize,
}
