//! Records, of which every input is a list: a tag, the length of a payload, and the payload.
//!
//! The tag is one byte, the length four, the highest first, and a payload has at most 64 MiB.
//! [`next_record`] reads the next record of a source. It answers the record, `None` exactly where
//! the input ends before one begins, or the first fault of its frame with its offset: Short where
//! the input ends inside the record, Tag where the caller does not allow the tag, TooLong where the
//! length is above the limit. The tag is tested before the length is read, and the length before
//! the payload. A source may give its bytes in any pieces, and memory grows with the bytes that
//! have really come: at most 64 KiB or as much again as has come is taken before the bytes are
//! there.
//! [`write_record`] appends the one encoding of a record, and [`write_frame`] its first five bytes,
//! for a caller that appends the payload itself. [`record_laws`] ties reading and writing: encoding
//! inverts decoding, decoding inverts encoding, and no record is a prefix of another.
//!
//! The crate names the tags and does not know what a payload holds, nor which record may follow
//! which.
#![tactic(auto)]

mod fault;
mod frame;
mod laws;
mod reading;
pub mod tag;
mod writing;

pub use fault::RecordFault;
pub use frame::{FRAME_BYTES, MOST_BYTES, Record};
pub use laws::record_laws;
pub use reading::next_record;
pub use writing::{write_frame, write_record};
