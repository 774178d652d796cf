//! Times library calls.
//!
//! Without words it lists the benchmarks. `search` draws its offers from a seed. The others read what they time from
//! standard input: `circulation` the bounds of trade as text, `gather` a state and candidates, and `clear` a state and
//! a block. Each prints the least time of its runs.
//!
//! It proves nothing of time. The scripts under `bench/` make the inputs and compare the figures with other programs.
#![tactic(auto)]

mod bounds;
mod circulation;
mod clear;
mod drawing;
mod gather;
mod quotes;
mod records;
mod report;
mod search;

use anyhow::{Context, Result, bail};
use bounds::read_bounds;
use std::rt::Env;
use std::{env, io};
use sx_base::StdSource;

const USAGE: &str =
    "usage: sx_bench [search SIZE ASSETS | circulation | gather WORKERS | clear ROUNDS]";

fn number_of(word: &str) -> Result<u32> {
    Ok(word.parse::<u32>().context("a number")?)
}

fn words_of(rt: &(impl Env + AllocGlobal)) -> Result<Vec<String>> {
    let mut words = Vec::new(rt.alloc());
    for word in env::args(rt)?.skip(1) {
        words.push(word)?;
    }
    Ok(words)
}

// Lists the benchmarks.
fn list(rt: &impl Print) -> Result<()> {
    println!(rt; "{} SIZE ASSETS: {}", search::NAME, search::WHAT)?;
    println!(rt; "{}: {}", circulation::NAME, circulation::WHAT)?;
    println!(rt; "{} WORKERS: {}", gather::NAME, gather::WHAT)?;
    println!(rt; "{} ROUNDS: {}", clear::NAME, clear::WHAT)?;
    Ok(())
}

fn main(rt: HostRuntime) -> Result<()> {
    let words = words_of(&rt)?;
    match words.as_slice() {
        [] => list(&rt),
        [name] if name.as_str() == circulation::NAME => {
            let text = io::read_to_string(rt.alloc(), rt.stdin())?;
            circulation::measure(&rt, &read_bounds(rt.alloc(), text.as_str())?)
        }
        [name, workers] if name.as_str() == gather::NAME => {
            let mut source = StdSource::new(rt.stdin());
            gather::measure(&rt, &mut source, number_of(workers)?)
        }
        [name, rounds] if name.as_str() == clear::NAME => {
            let mut source = StdSource::new(rt.stdin());
            clear::measure(&rt, &mut source, number_of(rounds)?)
        }
        [name, size, assets] if name.as_str() == search::NAME => {
            search::measure(&rt, number_of(size)?, number_of(assets)?)
        }
        _ => bail!("{USAGE}"),
    }
}
