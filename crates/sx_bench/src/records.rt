//! Records of an input.

use std::alloc::Global;
use sx_base::Source;
use sx_record::{Record, next_record};

/// The next record, if it has this tag.
pub fn record<S: Source>(alloc: Global, source: &mut S, tag: u8) -> Option<Record> {
    match next_record(alloc, source, 0, &[tag]) {
        Ok(found) => found,
        Err(_) => None,
    }
}
