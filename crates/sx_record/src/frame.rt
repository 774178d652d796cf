//! A record and its limits.

use sx_bytes::Bytes;

/// How many bytes a payload may have: 64 MiB.
pub const MOST_BYTES: u32 = 67_108_864;

/// How many bytes are before a payload: its tag and its length.
pub const FRAME_BYTES: u64 = 5;

/// A record that was read.
#[derive(Debug, Drop)]
pub struct Record {
    /// What the payload holds, one of the constants of [`tag`](crate::tag).
    pub tag: u8,
    /// The offset of the payload's first byte.
    pub at: u64,
    /// The bytes after the frame.
    pub payload: Bytes,
}
