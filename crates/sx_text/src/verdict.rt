//! The line of a proof of an account.

ghost use Rattle.std.specs.Prelude.{◌≡◌, IfOk};
ghost use Rattle.sx_text.specs.Verdict.{proof_text, verdict_text};

use crate::text::Text;
use std::alloc::Global;
use sx_block::{Digest, Proof};
use sx_bytes::NoMemory;

// What a proof was found to be.
fn word(good: bool) -> &'static str
    ensures { result.now ≡ verdict_text good }
{
    if good { "good" } else { "bad" }
}

/// The line that says whether a proof of an account is good for a root, as `good` has it: the account,
/// its place, and the root. `NoMemory` is the only error.
pub fn proof_line(alloc: Global, root: &Digest, proof: &Proof, good: bool) -> Result<Text, NoMemory>
    ensures { IfOk result (λ text. text ≡ proof_text root.now proof.now good) }
{
    let word = word(good);
    let account = proof.account.id.0;
    let place = proof.place;
    let root = hex::encode(alloc, root.bytes())?;
    let text = format!(in alloc; "proof {word} account {account} place {place} root {root}\n")?;
    Ok(Text::of(text))
}
