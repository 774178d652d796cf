//! Tests of numbers, transactions and ledgers, of their encodings, of words, of the root of a ledger, and of work that is
//! split among threads.
//!
//! Most files are named after the crate that they test; `markets` has states that several share. They stand in a crate of
//! their own, so that a crate with tests is not proved twice.
//!
//! Not here: what stored cases of the program hold byte for byte, as blocks, digests, records, texts and the proofs of
//! accounts (`examples/cases`).
#![tactic(auto)]

#[cfg(test)]
mod base;
#[cfg(test)]
mod bytes;
#[cfg(test)]
mod commit;
#[cfg(test)]
mod forks;
#[cfg(test)]
mod ledger;
#[cfg(test)]
mod markets;
#[cfg(test)]
mod price;
#[cfg(test)]
mod texts;
#[cfg(test)]
mod tx;
#[cfg(test)]
mod words;
