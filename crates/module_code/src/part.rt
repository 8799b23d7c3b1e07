//! The parts of a module text.

/// Which lines are due.
#[derive(Clone, Copy)]
pub enum Part {
    /// The first line.
    Start,
    /// Declarations of pools and what follows them.
    Pools,
    /// Declarations of brigades and what follows them.
    Brigades,
    /// The code of the handler `open`.
    Open,
    /// The code of the handler `init`.
    Init,
    /// The code of the handler `main`.
    Main,
    /// None.
    End,
}
