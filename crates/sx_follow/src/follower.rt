//! A follower.

ghost use Rattle.std.specs.Prelude.{◌≡◌, ◌+◌, ◌++◌, ◌∷◌, [], ◌<◌, ◌≤◌, true, false, length, IfOk, IfNone, IfSome, OnErr, OnOk};
ghost use Rattle.sx_block.specs.Block.{IsBlock};
ghost use Rattle.sx_block.specs.Validity.{digest_of_ledger};
ghost use Rattle.sx_block.specs.Chain.{NoneIsValid};
ghost use Rattle.sx_follow.specs.Follower.{Advances, HasWholeChain, IsFollower, NextLeaves, begun, most_blocks};
ghost use Rattle.sx_follow.specs.InTurn.{LeadsTo};
ghost use Rattle.sx_follow.specs.Chosen.{AreChosen};

mod running;

use crate::choosing::choose;
use crate::finding::find;
use crate::in_turn::apply_in_turn;
use crate::leaving::Leaving;
use crate::spare::Spare;
use crate::stepping::{Alone, Stepping};
use crate::waiting::Waiting;
use std::alloc::Global;
use std::marker::Model;
use std::mem;
use sx_block::{Block, Digest, block_effect_laws, check_laws};
use sx_bytes::NoMemory;
use sx_ledger::Ledger;

// How many blocks are applied at once at most, to one copy of the head.
const MOST_AT_ONCE: u32 = 32;

/// A ledger, blocks that were proposed on top of it, and the ledger after as many blocks of their chain as it has
/// applied. Contracts see a `Followed`.
#[derive(Debug, Drop)]
pub struct Follower {
    opening: Ledger,
    blocks: Vec<Block>,
    waiting: Waiting,
    steps: u32,
    head: Ledger,
    digest: Digest,
    spare: Spare,
    // how many blocks are tried at once: fewer after one of them was refused
    reach: u32,
}

impl Model for Follower {
    ghost use Rattle.std.specs.Prelude.{◌≡◌};
    ghost use Rattle.sx_block.specs.Validity.{digest_of_ledger};
    ghost use Rattle.sx_follow.specs.Follower.{Followed, IsFollower};
    ghost use Rattle.sx_follow.specs.Waiting.{AreWaiting};

    ghost Value = { Followed };

    ghost view = { λ f. record {
      opening = f.opening;
      blocks = f.blocks.items;
      steps = f.steps;
      head = f.head;
    } };

    ghost invariant = { λ f. (f.digest ≡ digest_of_ledger f.head) × AreWaiting f.blocks.items f.waiting
        × IsFollower (record {
          opening = f.opening;
          blocks = f.blocks.items;
          steps = f.steps;
          head = f.head;
        }) };
}

impl Follower {
    /// The most blocks.
    pub const MOST_BLOCKS: u32 = 1_000_000;

    /// A follower that has taken no block yet. It works on a copy of the ledger.
    pub fn start(alloc: Global, ledger: Ledger) -> Result<Follower, NoMemory>
        ensures { IfOk result (λ follower. follower ≡ begun ledger) }
    {
        let mut spare = Spare::new(alloc);
        let digest = spare.digest(alloc, &ledger)?;
        let head = ledger.copy()?;
        Ok(Follower {
            opening: ledger,
            blocks: Vec::new(alloc),
            waiting: Waiting::new(alloc),
            steps: 0,
            head,
            digest,
            spare,
            reach: MOST_AT_ONCE,
        })
    }

    /// Takes a block, good or bad, and looks no further into it. The block has the form of one, as those have
    /// that are read.
    pub fn offer(&mut self, block: Block) -> Result<(), NoMemory>
        requires few { length self.old.blocks < most_blocks }
        requires form { IsBlock block }
        ensures taken { OnOk result (self.new ≡ record self.old { blocks = self.old.blocks ++ block ∷ [] }) }
        ensures kept { OnErr result (self.new ≡ self.old) }
    {
        block_effect_laws();
        check_laws();
        let height = block.header.height;
        let place = self.blocks.len() as u32;
        self.blocks.push(block)?;
        let alloc = *self.blocks.allocator();
        match self.waiting.enter(alloc, height, place) {
            Ok(()) => Ok(()),
            Err(error) => {
                self.blocks.truncate(place as usize);
                Err(error)
            }
        }
    }

    // Applies the first block that is valid for the head, and answers whether there was one.
    fn advance_by<S: Stepping>(&mut self, by: &S) -> Result<bool, NoMemory>
        requires ready { S.is_ready }
        ensures advances { result ≡ Ok true → Advances self.old self.new }
        ensures stays { result ≡ Ok false → NoneIsValid self.old.head self.old.blocks × (self.new ≡ self.old) }
        ensures kept { OnErr result (self.new ≡ self.old) }
        ensures follows { IsFollower self.new }
    {
        let alloc = *self.blocks.allocator();
        let head = &self.head;
        let places = self.waiting.at(head.height() + 1);
        match find(
            by,
            alloc,
            head,
            &self.digest,
            &self.blocks,
            places,
            &mut self.spare,
        )? {
            Some(left) => {
                self.take(left);
                Ok(true)
            }
            None => Ok(false),
        }
    }

    /// Applies the first block that is valid for the head, and answers whether there was one. It works on a copy
    /// of the head.
    pub fn advance(&mut self) -> Result<bool, NoMemory>
        ensures advances { result ≡ Ok true → Advances self.old self.new }
        ensures stays { result ≡ Ok false → NoneIsValid self.old.head self.old.blocks × (self.new ≡ self.old) }
        ensures kept { OnErr result (self.new ≡ self.old) }
        ensures follows { IsFollower self.new }
    {
        self.advance_by(&Alone)
    }

    // Tries twice as many blocks at once from now on, up to the most.
    fn reach_further(&mut self)
        ensures { self.new ≡ self.old }
    {
        self.reach = self.reach.saturating_mul(2).min(MOST_AT_ONCE);
    }

    // Tries one block alone next.
    fn reach_no_further(&mut self)
        ensures { self.new ≡ self.old }
    {
        self.reach = 1;
    }

    // Makes what the next block leaves the head.
    fn take(&mut self, left: Leaving)
        requires next { NextLeaves self.old.head self.old.blocks left }
        requires follows { IsFollower self.old }
        ensures advances { Advances self.old self.new }
        ensures left { self.new ≡ record self.old { steps = self.old.steps + 1; head = left.ledger } }
        ensures follows { IsFollower self.new }
    {
        self.take_in_turn(1, left);
    }

    // Makes what so many next blocks leave the head.
    fn take_in_turn(&mut self, count: usize, left: Leaving)
        requires leads { LeadsTo self.old.head self.old.blocks count left }
        requires follows { IsFollower self.old }
        ensures opening { self.new.opening ≡ self.old.opening }
        ensures blocks { self.new.blocks ≡ self.old.blocks }
        ensures steps { self.new.steps ≡ self.old.steps + count }
        ensures head { self.new.head ≡ left.ledger }
        ensures follows { IsFollower self.new }
    {
        self.steps += count as u32;
        let earlier = mem::replace(&mut self.head, left.ledger);
        self.spare.keep(earlier);
        self.digest = left.digest;
    }

    // Applies the blocks at these places in turn. Where one of them is refused, it applies none, and answers how many
    // stand before it.
    fn try_in_turn(&mut self, places: &[u32]) -> Result<Option<usize>, NoMemory>
        requires chosen { AreChosen (self.old.head.height + 1) (digest_of_ledger self.old.head) self.old.blocks places.now }
        ensures opening { self.new.opening ≡ self.old.opening }
        ensures blocks { self.new.blocks ≡ self.old.blocks }
        ensures steps { self.old.steps ≤ self.new.steps }
        ensures applied { IfOk result (λ found. IfNone found (self.new.steps ≡ self.old.steps + length places.now)) }
        ensures refused { IfOk result (λ found. IfSome found (λ count.
            (count < length places.now) × (self.new ≡ self.old))) }
        ensures follows { IsFollower self.new }
    {
        let alloc = *self.blocks.allocator();
        match apply_in_turn(
            alloc,
            &self.head,
            &self.digest,
            &self.blocks,
            places,
            &mut self.spare,
        )? {
            Ok(left) => {
                self.take_in_turn(places.len(), left);
                Ok(None)
            }
            Err(count) => Ok(Some(count)),
        }
    }

    // Applies blocks that go on from the head by the digests that they name, at most so many, up to the first that is
    // refused. It answers whether it applied some. It tries none where fewer than two are found.
    fn advance_in_turn(&mut self) -> Result<bool, NoMemory>
        ensures opening { self.new.opening ≡ self.old.opening }
        ensures blocks { self.new.blocks ≡ self.old.blocks }
        ensures steps { self.old.steps ≤ self.new.steps }
        ensures advances { result ≡ Ok true → self.old.steps < self.new.steps }
        ensures follows { IsFollower self.new }
    {
        let alloc = *self.blocks.allocator();
        let height = self.head.height() + 1;
        let places = choose(
            alloc,
            &self.blocks,
            &self.waiting,
            height,
            &self.digest,
            self.reach.min(MOST_AT_ONCE),
        )?;
        if places.len() < 2 {
            return Ok(false);
        }
        match self.try_in_turn(&places)? {
            None => {
                self.reach_further();
                Ok(true)
            }
            Some(0) => {
                self.reach_no_further();
                Ok(false)
            }
            Some(count) => {
                let found = self.try_in_turn(&places[..count])?.is_none();
                self.reach_no_further();
                Ok(found)
            }
        }
    }

    // Applies some blocks in turn, or one. It answers whether there was one.
    fn go_on_alone(&mut self) -> Result<bool, NoMemory>
        ensures opening { self.new.opening ≡ self.old.opening }
        ensures blocks { self.new.blocks ≡ self.old.blocks }
        ensures advances { result ≡ Ok true → self.old.steps < self.new.steps }
        ensures stays { result ≡ Ok false → NoneIsValid self.new.head self.new.blocks }
        ensures follows { IsFollower self.new }
    {
        if self.advance_in_turn()? {
            return Ok(true);
        }
        let found = self.advance()?;
        self.reach_further();
        Ok(found)
    }

    /// Applies blocks until none is valid for the head. Where memory runs out, those stay applied that were by then.
    pub fn advance_all(&mut self) -> Result<(), NoMemory>
        ensures opening { self.new.opening ≡ self.old.opening }
        ensures blocks { self.new.blocks ≡ self.old.blocks }
        ensures ended { OnOk result (NoneIsValid self.new.head self.new.blocks) }
        ensures whole { OnOk result (HasWholeChain self.new) }
    {
        while self.go_on_alone()? {}
        Ok(())
    }

    /// The ledger after the blocks that were applied.
    pub fn head(&self) -> &Ledger
        ensures head { result.now ≡ self.now.head }
        ensures follows { IsFollower self.now }
    {
        &self.head
    }

    /// How many blocks were taken, those among them that come twice or never serve.
    pub fn taken(&self) -> u32
        ensures number { result ≡ length self.now.blocks }
        ensures few { result ≤ most_blocks }
    {
        self.blocks.len() as u32
    }

    /// How many blocks were applied.
    pub fn steps(&self) -> u32
        ensures number { result ≡ self.now.steps }
        ensures few { result ≤ length self.now.blocks }
    {
        self.steps
    }
}
