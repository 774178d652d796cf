//! One shard of gathering: purse words and bit words that many threads change without a lock.
//!
//! A [`Shard`] has the words of the core ([`sx_event`]), each a word that changes in single atomic
//! steps. Each thread has a [`ShardSeat`], which carries a view of the core: a range of candidates,
//! the claims that it has taken and the notes of what it has seen. A view stands in proofs alone, so
//! a seat has no bytes, and a step costs its one operation.
//!
//! # Which word changes how, and by whom
//!
//! Word 0 is 0 always. The purse words follow it, and then the bit words. There are five kinds of
//! step, each a step of the core by the seat that makes it:
//!
//! | kind | operation | word | what changes | by |
//! | --- | --- | --- | --- | --- |
//! | look | load | a purse | the seat notes the value | [`Shard::reserve`] |
//! | take | compare-exchange | a purse | it falls, and the seat has a claim; or the seat notes the value | [`Shard::reserve`] |
//! | claim | fetch-or | a bit word | it gains the bit, and the seat has a claim; or the seat notes it | [`Shard::claim`] |
//! | split | load | word 0 | the seat's range ends earlier, and a new seat has the rest | [`Shard::split`] |
//! | join | load | word 0 | the seat has the range, claims and notes of both | [`Shard::join`] |
//!
//! Nothing else changes a word or a view. A seat changes its own view, and a join also spends the
//! other one, which it was handed by value. So no two threads change one view.
//!
//! # The rule
//!
//! Between any two steps, of whichever threads, the table meets a rule (`specs/Table`):
//!
//! - The words and the views of all seats meet the five parts of the core's rule.
//! - Each live view has a copy of the purse words at the opening. It lets a step say how what it
//!   found stands to the opening, and it never changes: the first seat has it, a split copies it, and
//!   a join keeps it.
//! - Word 0 is 0.
//!
//! All steps stand in one order, whatever the threads do, and each is atomic. So it is enough that
//! each kind keeps the rule from any state (`proofs/Keeping`). A look and a lost take
//! change no word, and note what they found. A take compares with what its seat noted last, which
//! covers the need, so the purse falls by just what the seat claims. A fetch-or sets the bit whatever
//! it was, and the old word tells whether this seat was the one. A split and a join read word 0
//! for its place in the order alone: they move what views have, and no word.
//!
//! # Why nobody waits
//!
//! [`Shard::reserve`] looks at a purse, and takes from it as long as what it saw last covers the
//! need. A take that is lost found less than that (`lost` in `proofs/Trying`), since no step raises a
//! purse. So there are only so many, and no thread that stops keeps another from going on. A
//! refusal is final: the purse will never have more, and the bit will never be clear.
//!
//! # The end
//!
//! [`Shard::close`] takes the seat that has all candidates again. It is then the only live one, so
//! what is missing from the words is what this seat has claimed, and each of its notes is true of
//! the words at the end. [`Shard::finish`] does the same and tells no words, so it takes no memory. A
//! seat that is dropped keeps its candidates, and such a shard is only dropped.
//!
//! Not here: which words stand for what, who is refused and what becomes of it, and the threads.
//! Nothing is promised of fairness, or of which thread is first.
#![tactic(auto)]

mod close;
mod known;
mod laws;
mod refusal;
mod rule;
mod seat;
mod shard;
mod steps;

pub use close::{Closed, Words};
pub use laws::reserve_laws;
pub use refusal::{Held, Overdraft};
pub use seat::ShardSeat;
pub use shard::Shard;
