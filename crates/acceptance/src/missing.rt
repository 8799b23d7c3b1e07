//! What a row needs is not there.

use thiserror::Error;

/// A ring, a brigade or a bucket that a row made is not there, a part of its chain is refused, or its files have no number left.
#[derive(Clone, Copy, Debug, Error)]
#[error("what the row needs is not there")]
pub(crate) struct Missing;
