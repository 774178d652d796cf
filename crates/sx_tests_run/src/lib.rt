//! Tests of the top call with a source or a sink in memory.
//!
//! What is a row through the program is a stored case under `examples/cases/` and no test. Here is
//! what no input of the program can show: sources and sinks that give and take their bytes in pieces
//! of any size, that fail in mid-stream at each take and each put of every command, and that overcome an
//! interruption, and that the workers of a seal and of a demonstration run at the same time. Beside them stands what the
//! demonstration draws.
#![tactic(auto)]

#[cfg(test)]
mod chains;
#[cfg(test)]
mod counting;
#[cfg(test)]
mod demonstrating;
#[cfg(test)]
mod demonstration;
#[cfg(test)]
mod faults;
#[cfg(test)]
mod long;
#[cfg(test)]
mod markets;
#[cfg(test)]
mod meeting;
#[cfg(test)]
mod recovering;
#[cfg(test)]
mod replay;
#[cfg(test)]
mod sealing;
#[cfg(test)]
mod streams;
