//! Tests of lists, networks, bounds, circulations, curves, the price search and books.
//!
//! Most files are named after the crate that they test. `instances` and `spans` are circulations of the plain pair
//! `feasible` and `best`, and the bounds that they are of; `markets` has what several share. They stand in a crate of their
//! own, so that a crate with tests is not proved twice.
#![tactic(auto)]

#[cfg(test)]
mod books;
#[cfg(test)]
mod curve;
#[cfg(test)]
mod dual;
#[cfg(test)]
mod instances;
#[cfg(test)]
mod level;
#[cfg(test)]
mod links;
#[cfg(test)]
mod markets;
#[cfg(test)]
mod net;
#[cfg(test)]
mod search;
#[cfg(test)]
mod spans;
