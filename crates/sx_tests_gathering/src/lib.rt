//! Tests of what becomes of candidates: events of the core, where words are, outcomes and scripts as bytes, shards on
//! threads, workers, and tallies of great amounts.
//!
//! Not here: what stored cases of the program hold byte for byte, as what a filter keeps, and blocks that are made,
//! checked and applied (`examples/cases`).
#![tactic(auto)]

#[cfg(test)]
mod events;
#[cfg(test)]
mod layout;
#[cfg(test)]
mod markets;
#[cfg(test)]
mod outcomes;
#[cfg(test)]
mod tallies;
#[cfg(test)]
mod threads;
#[cfg(test)]
mod workers;
