//! The failure of a call of a source or a sink.

use thiserror::Error;

/// A call of a source or a sink failed, and its count of faults has risen.
#[derive(Clone, Copy, Debug, PartialEq, Eq, Error)]
#[error("the source or the sink failed")]
pub struct Failed;
