//! The pure core of gathering: words that only fall or only gain, and views that take from them.
//!
//! # Words
//!
//! A gathering has *purse words*, each a number of units, and *bit words*, each 64 bits. They are all
//! that actors share. An actor works through a *view*, which is its own: a range of candidates, the
//! *claims* that it has taken and the *notes* of what it has seen. A claim is an amount out of a
//! purse, or a bit. A note says that a purse had a value, or that a bit was set. [`Core::start`]
//! makes one view, with all candidates.
//!
//! # Who changes what
//!
//! One step is one [`Event`] of one actor: one operation on one word, or on the ranges of views. It
//! changes at most that word and that actor's view; a Split also makes a view, and a Join spends one.
//! A purse changes only in a Take that is won, by what the view then claims. A bit changes only in a
//! Claim that finds it clear, and the view claims it. So a word and the claims on it move together.
//!
//! # The rule
//!
//! Every state that steps lead to meets a rule of five parts (`specs/Rule`):
//!
//! 1. Each purse and all that is claimed of it add up to what it was at the opening.
//! 2. A bit is set exactly where it was at the opening or one view has claimed it, and never both.
//! 3. What a note tells of a purse is at least what the purse has, and at most its opening.
//! 4. A bit that a note names is set.
//! 5. Each candidate is in the range of one live view.
//!
//! A look and a lost Take note what they find, which is what the purse has. Take is won only where
//! the purse still has the value that the view saw last, and that value covers the need, so a purse
//! never goes below 0: what is taken from it is added to the claims. A Claim of a clear bit adds to
//! the claims the bit that it sets. Old notes stay true since purses only fall and bits are never
//! cleared. A Split and a Join move ranges, claims and notes, and none is lost or doubled.
//! [`step_laws`] has each kind by itself, and [`runs_keep`] whole runs, of any number of actors in any
//! order.
//!
//! # Why a refusal is final
//!
//! An actor that sees less than it needs will never see more, since no step raises a purse. An actor
//! that finds a bit set will never find it clear. So the note of a refusal is its proof, however the
//! gathering goes on, and nobody waits to ask again. A lost Take found less than the view had seen
//! ([`word_laws`]), so an actor that tries again comes to an end.
//!
//! # Why nothing is undone
//!
//! The step that decides a transaction is the one that takes its money or its bit. Before it nothing
//! is held on the transaction's behalf that another could miss, and after it nothing is left to do.
//! So there is no step that gives back, and no rule for one.
//!
//! # Memory and cost
//!
//! [`Core::start`] and [`Core::reserve`] take all memory: a step takes none, and `spare` counts how
//! many there is memory for. The lists of claims and notes stand in proofs alone: a program keeps of
//! a view whether it is live, its range, and what it saw last of each purse. So a claim takes no
//! memory, and a Join costs the same however much the views have taken and seen. A Look and a lost Take
//! add a note of 24 bytes, which stays as long as the core.
//!
//! What a view saw last of a purse is looked up in as many tables as views were joined into it, and one
//! more. The notes of a purse, of all tables, form a chain, which other purses may share. To look into
//! a table is to go along the chain, from the newest note to the table's own of this purse, or to the
//! end if the table has none. So an actor that looks at a purse just before it takes from it passes
//! only the notes that came in between.
//!
//! Not here: threads and atomic words, which a crate above runs by the same step function; what
//! purses and bits stand for; who is an actor and whose turn it is.
#![tactic(auto)]

mod bit;
mod event;
mod history;
mod laws;
mod lows;
mod machine;
mod marks;
mod seat;
mod seats;
mod tables;
mod views;

pub use event::{Event, Step};
pub use laws::{rule_laws, runs_keep, step_laws, word_laws};
pub use machine::Core;
pub use marks::{Claim, Note};
