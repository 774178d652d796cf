//! A gathering, and how it starts.

ghost use Rattle.std.specs.Prelude.{◌≡◌, ◌≤◌, [], length, IfOk, IfErr, Err};
ghost use Rattle.sx_gather.specs.Passes.{IsPassOf};
ghost use Rattle.sx_gather.specs.Start.{fault_of as the_fault, IsFaultOf, StartsAll};
ghost use Rattle.sx_outcome.specs.declared.space.NoRoom.{NoRoom as WhyNoRoom};
ghost use Rattle.sx_outcome.specs.Room.{room_for};
ghost use Rattle.sx_tx.specs.Transactions.{most_transactions};

use crate::fault::GatherFault;
use crate::pass::Pass;
use crate::seat::PassSeat;
use std::alloc::Global;
use std::marker::Model;
use sx_bytes::NoMemory;
use sx_layout::Setting;
use sx_ledger::Ledger;
use sx_outcome::{OutcomeLog, room};
use sx_shard::Shard;
use sx_tx::Tx;

/// The candidates of a ledger, and the shards with the words that they ask for. Contracts see a
/// `Gathering`.
///
/// Threads share it by reference, each with a pass of its own.
#[derive(Drop)]
pub struct Gather<'a> {
    pub(crate) setting: Setting<'a>,
    pub(crate) shards: Vec<Shard>,
    pub(crate) alloc: Global,
}

impl<'a> Model for Gather<'a> {
    ghost use Rattle.sx_gather.specs.Passes.{Gathering};

    ghost Value = { Gathering };

    ghost view = { λ g. record { parts = g.setting.parts; candidates = g.setting.candidates; plan = g.setting.plan; shards = g.shards.items } };
}

// The shards with their opening words, and the first seat of each.
fn start_shards(
    alloc: Global,
    setting: &Setting,
    count: u32,
) -> Result<(Vec<Shard>, Vec<PassSeat>), NoMemory>
    requires { count ≡ length setting.now.candidates }
    ensures { IfOk result (λ made. StartsAll setting.now made.0.items made.1.items) }
{
    let mut shards = Vec::with_capacity(alloc, setting.shards() as usize)?;
    let mut seats = Vec::with_capacity(alloc, setting.shards() as usize)?;
    for k in 0..setting.shards() {
        let (shard, seat) = Shard::start(
            alloc,
            setting.opening_purses(k),
            setting.opening_bits(k),
            count,
        )?;
        shards.push(shard)?;
        seats.push(PassSeat::of(k, seat))?;
    }
    Ok((shards, seats))
}

impl<'a> Gather<'a> {
    /// Starts a gathering of at most 1,000,000 candidates of a ledger, on 1 to 64 shards. It answers the
    /// gathering and a pass that has all candidates, with memory for all outcomes.
    ///
    /// `Ended` comes exactly at the greatest height, else `Crowded` for the accounts exactly where those
    /// that the candidates create would pass 65,536, else for the offers exactly where those that they
    /// make would pass 262,144. Otherwise it may answer `NoMemory`.
    pub fn start(
        alloc: Global,
        ledger: &'a Ledger,
        candidates: &'a [Tx],
        shards: u32,
    ) -> Result<(Gather<'a>, Pass), GatherFault>
        requires few_candidates { length candidates.now ≤ most_transactions }
        requires some_shard { 1 ≤ shards }
        requires few_shards { shards ≤ 64 }
        ensures parts { IfOk result (λ made. made.0.parts ≡ ledger.now) }
        ensures candidates { IfOk result (λ made. made.0.candidates ≡ candidates.now) }
        ensures shards { IfOk result (λ made. length made.0.shards ≡ shards) }
        ensures pass { IfOk result (λ made. IsPassOf made.0 made.1) }
        ensures range { IfOk result (λ made. (made.1.from ≡ 0) × (made.1.next ≡ 0) × (made.1.end ≡ length candidates.now)) }
        ensures outcomes { IfOk result (λ made. made.1.outcomes ≡ []) }
        ensures spare { IfOk result (λ made. made.1.spare ≡ length candidates.now) }
        ensures fault { IfErr result (IsFaultOf (room_for ledger.now candidates.now)) }
        ensures no_room { (why : WhyNoRoom) → room_for ledger.now candidates.now ≡ Err why → result ≡ Err (the_fault why) }
    {
        room(ledger, candidates)?;
        let setting = Setting::new(alloc, ledger, candidates, shards)?;
        let count = candidates.len() as u32;
        let (shards, seats) = start_shards(alloc, &setting, count)?;
        let outcomes = OutcomeLog::with_capacity(alloc, candidates.len())?;
        let gather = Gather {
            setting,
            shards,
            alloc,
        };
        let pass = Pass {
            from: 0,
            next: 0,
            end: count,
            near: 0,
            seats,
            outcomes,
        };
        Ok((gather, pass))
    }
}
