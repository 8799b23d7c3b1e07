//! The limits of a host.

/// What a host lets its connections do.
#[derive(Clone, Copy)]
pub struct Limits {
    /// How many instructions a connection executes at most from an open, begin or bring on.
    pub budget: u64,
}
