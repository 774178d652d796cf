//! How an actor decides a candidate.

ghost use Rattle.std.specs.Prelude.{◌≡◌};
ghost use Rattle.sx_layout.specs.Deciding.{after_claim as the_claimed, after_value as the_valued, after_purse as the_pursed, follows as the_next, too_late as the_outcome};

use sx_event::Step;
use sx_layout::{Next, Stage};
use sx_outcome::Outcome;
use sx_tx::Kind;

// The outcome of a candidate whose bit was set before.
fn too_late(of: &Kind) -> Outcome
    ensures { result ≡ the_outcome of.now }
{
    match of {
        Kind::Create { .. } => Outcome::NameTaken,
        Kind::Pay { .. } | Kind::Offer { .. } | Kind::Cancel { .. } => Outcome::OfferTaken,
    }
}

// What follows once an actor knows whether a bit was set before.
fn after_claim(clear: Next, taken: Next, told: Step) -> Next
    ensures { result ≡ the_claimed clear taken told }
{
    match told {
        Step::Clear => clear,
        Step::Seen(_) | Step::Won | Step::Lost(_) | Step::Taken | Step::Made(_) | Step::Joined =>
            taken,
    }
}

// What follows once a purse was found at a value.
fn after_value(purse: u32, need: u64, value: u64) -> Next
    ensures { result ≡ the_valued purse need value }
{
    if value < need {
        return Next::Decided(Outcome::Overdraft { seen: value, need });
    }
    Next::On(Stage::Take { purse, need })
}

// What follows of a look, and of a Take.
fn after_purse(purse: u32, need: u64, told: Step) -> Next
    ensures { result ≡ the_pursed purse need told }
{
    match told {
        Step::Seen(value) | Step::Lost(value) => after_value(purse, need, value),
        Step::Won | Step::Clear | Step::Taken | Step::Made(_) | Step::Joined => {
            Next::Decided(Outcome::Accepted)
        }
    }
}

// What follows for a candidate of this kind, at a stage. `second` comes once the number is claimed.
pub fn follows(of: &Kind, second: Stage, stage: Stage, told: Step) -> Next
    ensures { result ≡ the_next of.now second stage told }
{
    match stage {
        Stage::Number => after_claim(Next::On(second), Next::Decided(Outcome::SeqTaken), told),
        Stage::Name { .. } => after_claim(
            Next::Decided(Outcome::Accepted),
            Next::Decided(too_late(of)),
            told,
        ),
        Stage::Look { purse, need } | Stage::Take { purse, need } => after_purse(purse, need, told),
    }
}
