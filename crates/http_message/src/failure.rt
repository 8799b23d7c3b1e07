//! Why a request is answered 500.

use run_model::Refusal;
use thiserror::Error;

/// Why a request is answered 500. Which filter it was that failed, the host does not tell.
#[derive(Clone, Copy, Debug, Error)]
pub enum Failure {
    /// A filter answered that it failed.
    #[error("a filter failed")]
    Filter,
    /// The host refused what was needed. The connection is broken, for memory or by its budget, or the device failed.
    #[error("{0}")]
    Refused(Refusal),
}
