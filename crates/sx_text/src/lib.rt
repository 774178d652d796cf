//! The texts that the program prints, byte for byte.
//!
//! [`show`] writes what a record holds, a line for each part of it: a state, candidates, a block,
//! outcomes or a script, and [`par_show`] the same, with threads that write the lines of many accounts,
//! offers or transactions. [`check_line`] is the line of a valid block, [`proof_line`] the line of a proof of an
//! account, [`demo_lines`] the summary of the demonstration, and [`status_line`] says how a run ended: a
//! [`Status`], which also has the code that the program ends with. Each answers a [`Text`], which is
//! exactly what `specs/` says, or that memory ran out.
//!
//!     state version 1 height 0 assets 1
//!     asset 0 price 16777216 rounding 0
//!     account 1 last 0 balances 100
//!     account 2 last 0 balances 5
//!
//! Texts are ASCII. Each line ends with a line feed, and one space parts its words. Numbers are plain
//! decimal, with a minus before a gain below 0; a digest is 64 hexadecimal digits with small letters,
//! and a set of assets is 8 of them.
//!
//! A text is one buffer, written from its first byte to its last. A long list has room from the start, as
//! much as its last few entries let guess; where that is too little, the buffer doubles. Threads write to
//! buffers of their own, each of which is appended and freed, so the lines of a list are there twice for
//! a moment.
//!
//! Not here: reading a text, other languages, and where a text goes.
#![tactic(auto)]

mod blocks;
mod demonstration;
mod ending;
mod entries;
mod fields;
mod gathering;
mod hands;
mod lines;
mod reasons;
mod shown;
mod spreading;
mod states;
mod status;
mod text;
mod transactions;
mod validity;
mod verdict;

pub use demonstration::demo_lines;
pub use ending::status_line;
pub use shown::{Shown, par_show, show};
pub use status::Status;
pub use text::Text;
pub use validity::check_line;
pub use verdict::proof_line;
