//! Which points of a pair have a limit up to a quotient.
//!
//! Those are the first ones of the pair, and the search for where they end begins at a guess. It goes
//! outward from there, in the direction that the limit at the guess tells, in steps that double, until
//! the test turns. Then it halves what is left between its last two places. In this drawing + stands for
//! a limit up to the quotient, - for one above it, and the guess is the third place:
//!
//! ```text
//!     place    0  1  2  3  4  5  6  7  8  9 10 11
//!     limit    +  +  +  +  +  +  +  +  -  -  -  -
//!     tried          ^  ^     ^           ^
//!     halved                     [        ]
//! ```
//!
//! With d places from the guess to the answer it takes two times log d steps, and two where the guess
//! is right. Source: Bentley and Yao (1976), as the crate's page says.

ghost use Rattle.std.specs.Prelude.{◌≡◌, ◌*◌, ◌≤◌, ◌^◌, true, false, length, nat_le};
ghost use Rattle.std.specs.List.{AllWithin};
ghost use Rattle.std.specs.List.Sorted.{IsNonDecreasingBy};
ghost use Rattle.sx_curve.specs.Curves.{IsBracket, ReachesTo, is_point_below};

use crate::points::Point;
use sx_price::Limit;

// Whether a limit is at most num over den, by the product.
fn is_below(limit: Limit, num: u128, den: u128) -> bool
    requires { den ≤ 2 ^ 60 }
    ensures { result ≡ nat_le (limit * den) num }
{
    u128::from(limit.get()) * den <= num
}

// Two places that the answer is between, at or above a place before which all limits are low enough.
fn bracket_upward(pair: &[Point], num: u128, den: u128, from: usize) -> (usize, usize)
    requires in_order { IsNonDecreasingBy (λ point. point.limit) pair.now }
    requires den { den ≤ 2 ^ 60 }
    requires within { from ≤ length pair.now }
    requires below { AllWithin (λ point. is_point_below num den point ≡ true) pair.now 0 from }
    ensures { IsBracket pair.now num den result.0 result.1 }
{
    let mut low = from;
    let mut step = 1;
    while step <= pair.len() - low && is_below(pair[low + (step - 1)].limit, num, den) {
        low += step;
        step *= 2;
    }
    (low, pair.len().min(low + (step - 1)))
}

// The same, at or below a place from which on no limit is low enough.
fn bracket_downward(pair: &[Point], num: u128, den: u128, from: usize) -> (usize, usize)
    requires in_order { IsNonDecreasingBy (λ point. point.limit) pair.now }
    requires den { den ≤ 2 ^ 60 }
    requires within { from ≤ length pair.now }
    requires above { AllWithin (λ point. is_point_below num den point ≡ false) pair.now from (length pair.now) }
    ensures { IsBracket pair.now num den result.0 result.1 }
{
    let mut high = from;
    let mut step = 1;
    while step <= high && !is_below(pair[high - step].limit, num, den) {
        high -= step;
        step *= 2;
    }
    ((high + 1).saturating_sub(step), high)
}

// Two places that the answer is between, found from any place.
#[inline(always)]
fn bracket(pair: &[Point], num: u128, den: u128, near: usize) -> (usize, usize)
    requires in_order { IsNonDecreasingBy (λ point. point.limit) pair.now }
    requires den { den ≤ 2 ^ 60 }
    ensures { IsBracket pair.now num den result.0 result.1 }
{
    let from = near.min(pair.len());
    if from < pair.len() && is_below(pair[from].limit, num, den) {
        bracket_upward(pair, num, den, from + 1)
    } else {
        bracket_downward(pair, num, den, from)
    }
}

// How many points of a pair, in order of their limits, have a limit of at most num over den. It is
// found soonest where it is near a guess.
#[inline(always)]
pub(crate) fn count_below(pair: &[Point], num: u128, den: u128, near: usize) -> usize
    requires in_order { IsNonDecreasingBy (λ point. point.limit) pair.now }
    requires den { den ≤ 2 ^ 60 }
    ensures { ReachesTo pair.now num den result }
{
    let (low, high) = bracket(pair, num, den, near);
    low + pair[low..high].partition_point(|point| is_below(point.limit, num, den))
}
