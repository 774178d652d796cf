//! Integers as bytes: a reader over a slice, a writer that grows, and the faults of a byte format.
//!
//! All integers are unsigned, big-endian and of fixed width, so every value has one encoding. A
//! [`Reader`] answers the exact integer at its place or [`Short`], and a refusal does not change
//! it; [`Reader::field_u64`] and its kin test a range too, and answer a [`FormFault`] at the field.
//! A [`Writer`] appends exactly the bytes of what it is given, or nothing where memory runs
//! out. What a format finds wrong is a [`FormFault`]: which fault it is, and where it begins.
//! [`ListOf`] is the type of every field that is a list, and [`ListInParts`] a list in vectors of its own, as threads give
//! it.
//!
//! [`field_laws`] states the law on which every format stands: encoding a field inverts decoding
//! it, and back.
//!
//! The crate knows no format: the crates above say which fields follow which, and their ranges, in
//! the words of `specs/Grammar`.
#![tactic(auto)]

mod fault;
mod fields;
mod laws;
mod list_in_parts;
mod list_of;
mod memory;
mod reader;
mod writer;

pub use fault::{Form, FormFault, ReadError, Short};
pub use laws::field_laws;
pub use list_in_parts::ListInParts;
pub use list_of::{Bytes, ListOf};
pub use memory::{NoMemory, all_of};
pub use reader::Reader;
pub use writer::Writer;
