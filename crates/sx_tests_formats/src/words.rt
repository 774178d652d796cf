//! A command, and words that spell none. Stored cases and the computed cases of `sx_words` have the other rows.

use std::alloc::Global;
use sx_words::{Command, WordsFault, parse};

// What a line says, whose words are parted by white space.
fn parsed(alloc: Global, line: &str) -> Option<Result<Command, WordsFault>> {
    let mut words = Vec::new(alloc);
    for word in line.split_whitespace() {
        words.push(String::from_str(alloc, word).ok()?).ok()?;
    }
    Some(parse(alloc, &words))
}

// The workers, the shards, the exponent of the margin, the rounds and the searches of a seal.
fn sealing(alloc: Global, line: &str) -> Option<(u32, u32, u8, u32, u32)> {
    match parsed(alloc, line)?.ok()? {
        Command::Seal {
            workers,
            shards,
            mu,
            rounds,
            searches,
        } => Some((workers, shards, mu, rounds, searches)),
        _ => None,
    }
}

fn is_refused(alloc: Global, line: &str) -> bool {
    matches!(parsed(alloc, line), Some(Err(WordsFault::Usage)))
}

// The first of these lines that is a command.
fn first_taken(alloc: Global) -> Option<&'static str> {
    for line in [
        "",
        "SEAL",
        "seal 4",
        "seal --rounds 00",
        "seal --workers -8",
        "seal --workers 8x",
        "seal --workers==8",
        "seal --workers 8 --workers 8",
        "seal --mu=10 --workers 8 --mu 10",
        "seal --wor 8",
        "seal workers 8",
        "help",
        "--version",
    ] {
        if !is_refused(alloc, line) {
            return Some(line);
        }
    }
    None
}

#[test]
fn words_spell_commands(rt: HostRuntime) {
    let alloc = rt.alloc();
    let line = "seal --workers 8 --mu=20 --rounds=0";
    assert_eq!(rt; sealing(alloc, line), Some((8, 16, 20, 0, 1)));
    assert_eq!(rt; first_taken(alloc), None);
}
