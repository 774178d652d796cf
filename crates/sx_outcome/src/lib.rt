//! What gathering tells and is told: the outcomes of candidates, scripts of who makes the next step, whether a ledger has
//! room for all that candidates ask for, and the order of a body.
//!
//! An [`Outcome`] says what became of one candidate: accepted, or why not. [`read_outcomes`] answers a
//! list of them exactly if a payload is its encoding, and else the first fault from left to right;
//! [`write_outcomes`] appends the one encoding, or nothing if memory runs out. A [`Script`] names
//! an actor for each turn, and [`read_script`] and [`write_script`] do the same for it.
//! [`outcome_laws`], [`outcome_list_laws`] and [`script_laws`] say that decoding inverts encoding, that
//! no two values share an encoding, and that none is a prefix of another.
//!
//! An [`OutcomeLog`] takes in outcomes as they come, in memory that was taken before: a byte for each, and 16
//! bytes more for an overdraft. [`PackedOutcomes`] are its outcomes once no more come, and [`write_packed`]
//! encodes them from there. Contracts see the list of the outcomes.
//!
//! [`room`] answers whether a block may follow on a ledger, and whether all accounts and offers of the
//! candidates would fit into it. It counts, takes no memory, and looks at no id and no key. [`additions_of`] and
//! [`room_for_additions`] are its two halves, for candidates that are counted in parts.
//!
//! `specs/Gathering` says which outcomes and which body are those of a gathering, and [`gathering_laws`] which
//! candidates have to be accepted and that a body is no longer than the candidates.
//!
//! [`sort_txs`] puts transactions into the order of a body, by account and then by sequence number, and
//! [`par_sort_txs`] does the same by several threads. [`are_sorted`] tells whether they are in it.
//!
//! Not here: who decides the outcomes (`sx_script` in turns, `sx_gather` by threads).
#![tactic(auto)]

mod encoding_laws;
mod fault;
mod kinds;
mod order;
mod outcome;
mod outcome_log;
mod outcome_reading;
mod outcome_writing;
mod packed_outcomes;
mod packed_writing;
mod script;
mod script_reading;
mod script_writing;
mod space;

pub use encoding_laws::{gathering_laws, outcome_laws, outcome_list_laws, script_laws};
pub use order::{are_sorted, par_sort_txs, sort_txs};
pub use outcome::{MOST_OUTCOMES, Outcome, Outcomes};
pub use outcome_log::OutcomeLog;
pub use outcome_reading::read_outcomes;
pub use outcome_writing::write_outcomes;
pub use packed_outcomes::PackedOutcomes;
pub use packed_writing::write_packed;
pub use script::{MOST_ACTORS, MOST_TURNS, Script};
pub use script_reading::read_script;
pub use script_writing::write_script;
pub use space::{Additions, NoRoom, additions_of, room, room_for_additions};
