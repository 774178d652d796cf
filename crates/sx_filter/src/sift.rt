//! Which of some candidates a filter keeps, tested against each other on one thread.
//!
//! [`sift`] puts each candidate to the ledger's test. Of those that pass it leaves the ones that no other of them stands in
//! the way of, and tells which accounts all that pass create. So where the candidates of an account stand together, and
//! with them those that cancel its offers, only what is created has to be compared with other candidates:
//! [`is_id_taken`] does that, with the ids that all of them create ([`Seen`]).
//!
//! Cost: it sorts the candidates and looks for each account near the one before it. Then two of one number are neighbours,
//! and the candidates of an account are a run, of which the debits are summed up with one search for the account. The
//! offers that candidates cancel are sorted too, by account first, so that each is found near the one before it, and they
//! cost nothing where there are none. What is kept stays in the memory of the candidates. It takes memory for what they
//! cancel and create, and for one answer of yes or no for each that passes.
//!
//! Not here: what is kept, as a definition (`specs/Kept`), and how candidates come to stand together (`bands`).

mod cancellation;
mod fits;
mod fitting;
mod kinds;
mod named;
mod runs;
mod seen;
mod sifting;

pub use named::{Ids, is_id_taken};
pub use seen::Seen;
pub use sifting::{Sifted, sift};
