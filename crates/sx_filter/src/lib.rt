//! Candidates chosen without any race.
//!
//! [`filter`] answers which of many candidates a block may hold together, where of two that exclude each other neither is
//! taken. Which these are, `specs/Kept` says over plain lists, and the answer is exactly that: a function of
//! the ledger and the candidates. So it is the same for every number of workers.
//!
//! ```text
//!     candidates    | part 1 | part 2 | ..                   each thread goes over some parts
//!                        │       each candidate into the list of its range
//!     ranges        | ids below 100 | ids below 200 | ..     a thread sees to each
//!                        │       each candidate into the list of its band
//!     bands         | ids below 10 | ids below 20 | ..       sifted one after the other
//!                        │       where two create one account, both fall out
//!     kept          one list, in the parts that threads found
//! ```
//!
//! [`filter_list`] does the same of candidates in parts that the caller needs no more, as threads decode them, and of an
//! [`IndexedLedger`], of which a thread makes the index while the caller reads the candidates. It answers what is kept in
//! parts too: one list, in the parts that threads found.
//!
//! Cost: each candidate is copied once into the list of its range of accounts, by a thread that goes over its part
//! (`parts`). Where there is no room for what they would add, nothing more is done.
//!
//! Then a thread sees to each range. It puts the candidates into lists by bands of accounts, each so short that the cache
//! of a processor holds it, and sifts one band after the other (`sift`).
//!
//! Candidates of two bands share nothing but the accounts that they create. The ids of these are sorted, and where
//! there are any, as many threads as there are ranges go over what is left.
//!
//! Memory is taken for the candidates by ranges, then for those by bands, in which what is kept stays, and for one answer
//! of yes or no for each that passes, of one band at a time in each thread. As soon as all candidates are copied, those
//! that they were copied from go. `filter` takes memory for a copy of its candidates too, and for one list of what is kept.
//!
//! What is kept is a candidate that the ledger passes by itself if, among all candidates that pass, no other has its account
//! and number, no other cancels its offer, no other creates its account, and the account holds of each asset at least as
//! much as its candidates together debit. The last test takes in those of the account's candidates that fall out for
//! another reason:
//!
//! ```text
//!     account 1 holds 100        pays 60, number 1     falls out: 120 is more than 100
//!                                pays 60, number 2     falls out
//!     account 2 holds 5          pays 5, number 1      kept
//!                                creates 9, number 2   falls out
//!     account 3 holds 0          creates 9, number 1   falls out
//! ```
//!
//! [`kept_laws`] says that the order of the candidates is of no account, that what is kept is the body of a block by the
//! rule of version 1, and that a gathering of what is kept accepts all of it.
//!
//! Not here: what is kept is not the most that could be kept, since of two that exclude each other neither is. Nothing
//! says that workers run at the same time.
//!
//! Source: to choose a block's transactions without any order among them is from Ramseyer, Goel and Mazières,
//! "SPEEDEX: A Scalable, Parallelizable, and Economically Efficient Decentralized EXchange" (NSDI 2023). The
//! tests and their bounds are this project's own.
#![tactic(auto)]

mod bands;
mod fault;
mod filtering;
mod indexed;
mod joining;
mod keeping;
mod keeping_laws;
mod parting;
mod parts;
mod sift;

pub use fault::FilterFault;
pub use filtering::{filter, filter_list};
pub use indexed::{IndexOf, IndexedLedger};
pub use keeping_laws::kept_laws;
