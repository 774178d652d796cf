//! The words of the command line, and the command that they spell.
//!
//! [`parse`] reads one command. Its first word is the command's name. `prove` and `demo` then take one
//! number, and after that come options in any order, each at most once: two words, the option's name
//! and its number, or one word with `=` between the two. A number is plain decimal, with no sign and no
//! zero before another digit.
//!
//! | command | options |
//! | --- | --- |
//! | `seal` | `--workers` 1 to 64, `--shards` 1 to 64, `--mu` 1 to 20, `--rounds` 0 to 10,000, `--searches` 1 to 8 |
//! | `replay`, `filter` | `--workers` 1 to 64 |
//! | `check`, `show`, `interleave`, `migrate`, `verify`, `follow` | none |
//! | `prove ID` | none; ID is any number below 2^64 |
//! | `demo N` | `--workers` 1 to 64; N is any number below 2^64 |
//!
//! An option that is not given has its default: 4 workers, 16 shards, μ of 2^-10, 500 rounds, one search.
//! [`Setting`] has the ranges and the defaults. Everything else is [`WordsFault::Usage`], a wish for
//! help or for the version too. [`word_laws`] ties reading and spelling.
//!
//! First the plain spelling is tested, which parts each option into its name and its number. What
//! passes is handed to `clap`, as one command with eleven subcommands, and the numbers are those that
//! `clap` reads. It refuses nothing then, but for want of memory, and none of its texts is printed.
//!
//! Not here: short forms of an option, abbreviations, `--`, texts for the reader, and what a command
//! does.
#![tactic(auto)]

mod command;
mod fault;
mod laws;
mod number;
mod options;
mod parsing;
mod program;
mod reading;
mod setting;

pub use command::Command;
pub use fault::WordsFault;
pub use laws::word_laws;
pub use parsing::parse;
pub use setting::Setting;
