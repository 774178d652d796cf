//! The summary of the demonstration.

ghost use Rattle.std.specs.Prelude.{◌≡◌, ◌-◌, ◌++◌, ◌≤◌, IfOk, OnOk, length, string_bytes};
ghost use Rattle.sx_block.specs.Block.{assets_of};
ghost use Rattle.sx_text.specs.Demonstration.{accepted as accepted_of, counts_line, demo_text, is_accepted as is_taken, market_lines, rounding_line, summary_text};

use crate::lines::{put_digest, put_spaced, put_word};
use crate::text::Text;
use crate::validity::bounds;
use std::alloc::Global;
use sx_block::{Checked, Header};
use sx_bytes::NoMemory;
use sx_outcome::{Outcome, Outcomes};

fn is_accepted(outcome: &Outcome) -> bool
    ensures { result ≡ is_taken outcome.now }
{
    matches!(outcome, Outcome::Accepted)
}

// How many candidates were accepted.
fn accepted(outcomes: &[Outcome]) -> usize
    ensures number { result ≡ accepted_of outcomes.now }
    ensures few { result ≤ length outcomes.now }
{
    let mut count = 0;
    for outcome in outcomes {
        if is_accepted(outcome) {
            count += 1;
        }
    }
    count
}

// How many candidates were accepted, and how many were not.
fn put_counts(to: &mut String, outcomes: &[Outcome]) -> Result<(), NoMemory>
    ensures { OnOk result (string_bytes to.new ≡ string_bytes to.old ++ counts_line outcomes.now) }
{
    let accepted = accepted(outcomes);
    let refused = outcomes.len() - accepted;
    write!(to, "accepted {accepted} refused {refused}\n")?;
    Ok(())
}

// What became of the lower bounds, and the value that is traded.
fn put_market(to: &mut String, checked: &Checked) -> Result<(), NoMemory>
    ensures { OnOk result (string_bytes to.new ≡ string_bytes to.old ++ market_lines checked.now) }
{
    let bounds = bounds(checked.dropped);
    let value = checked.value;
    write!(to, "bounds {bounds}\nvalue {value}\n")?;
    Ok(())
}

fn put_rounding(to: &mut String, rounding: &[u64]) -> Result<(), NoMemory>
    ensures { OnOk result (string_bytes to.new ≡ string_bytes to.old ++ rounding_line rounding.now) }
{
    put_word(to, "rounding")?;
    put_spaced(to, rounding)?;
    put_word(to, "\n")
}

fn put_summary(
    to: &mut String,
    outcomes: &[Outcome],
    checked: &Checked,
    header: &Header,
) -> Result<(), NoMemory>
    ensures { OnOk result (string_bytes to.new ≡ string_bytes to.old
        ++ summary_text outcomes.now checked.now header.now) }
{
    put_counts(to, outcomes)?;
    put_market(to, checked)?;
    put_rounding(to, header.rounding.items())?;
    put_digest(to, "after", &header.after)
}

/// The summary of the demonstration that was made from this number: how many candidates were accepted and
/// refused, what the check tells of the block, and what its header says of rounding and of the ledger
/// after it. The value is in units of `2^-24`.
pub fn demo_lines(
    alloc: Global,
    number: u64,
    outcomes: &Outcomes,
    checked: &Checked,
    header: &Header,
) -> Result<Text, NoMemory>
    requires { assets_of header.now ≡ 8 }
    ensures { IfOk result (λ text. text ≡ demo_text number outcomes.now checked.now header.now) }
{
    let mut text = format!(in alloc; "demo {number}\n")?;
    put_summary(&mut text, outcomes.items(), checked, header)?;
    Ok(Text::of(text))
}
