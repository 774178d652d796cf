//! The rule of the table, and what each kind of step tells its seat.
use crate::known::{Known, Opening};
use atomic_table::{Join, Play, Split, TableRule};
use std::marker::{Brand, PhantomData};

// The rule of the core, of the words and of the views of all seats.
pub struct Gathers;

impl TableRule<(), Known, Opening> for Gathers {
    ghost use Rattle.sx_shard.specs.Table.{Kept, first};

    ghost holds = { Kept };

    ghost first = { first };
}

// Names the event of the core that a step is. Each call of a step picks it, in proofs alone.
pub trait Names {
    ghost use Rattle.sx_event.specs.declared.event.Event.{Event};

    ghost event: { Event };
}

impl Names for Brand {
    ghost use Rattle.sx_event.specs.declared.event.Event.TheVariants.{Look};

    ghost event = { Look 0 };
}

// A step on a word.
pub struct Does<E> {
    event: PhantomData<E>,
}

impl<E: Names> Play<(), Known> for Does<E> {
    ghost use Rattle.sx_shard.specs.Plays.{told};

    ghost then = { told E.event };
}

// The split of a range.
pub struct Cuts<E> {
    event: PhantomData<E>,
}

impl<E: Names> Split<Known> for Cuts<E> {
    ghost use Rattle.sx_shard.specs.Plays.{kept_part, given_part};

    ghost left = { kept_part E.event };

    ghost right = { given_part E.event };
}

// The join of two ranges.
pub struct Joins;

impl Join<Known> for Joins {
    ghost use Rattle.sx_shard.specs.Plays.{both, gone};

    ghost both = { both };

    ghost spent = { gone };
}
