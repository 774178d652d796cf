//! Command lines.

ghost use Rattle.std.specs.Prelude.{◌≡◌, Some, [], ◌∷◌, IfOk};
ghost use Rattle.sx_meaning.specs.Answers.{asked};
ghost use Rattle.sx_words.specs.Numbers.{texts};

use std::alloc::{AllocError, Global};
use sx_words::Command;

// The command line of one word.
fn line_of(alloc: Global, word: &str) -> Result<Vec<String>, AllocError>
    ensures { IfOk result (λ line. texts line.items ≡ word.now ∷ []) }
{
    let mut line = Vec::new(alloc);
    line.push(String::from_str(alloc, word)?)?;
    Ok(line)
}

/// The command line of a seal by 4 workers on 16 shards, at a margin of 2^-10 and by one search of at most 500 rounds.
pub fn seal_line(alloc: Global) -> Result<Vec<String>, AllocError>
    ensures { IfOk result (λ line. asked line.items ≡ Some (Command.Seal 4 16 10 500 1)) }
{
    line_of(alloc, "seal")
}
