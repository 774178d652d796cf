//! A collision of SHA-256.

use sx_bytes::Bytes;

/// Two different byte strings that have the same SHA-256.
#[derive(Debug, Drop)]
pub struct Collision {
    pub left: Bytes,
    pub right: Bytes,
}
