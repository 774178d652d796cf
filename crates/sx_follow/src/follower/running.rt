//! A follower that applies blocks by several threads, and ahead of the digests that they name.

ghost use Rattle.std.specs.Prelude.{◌≡◌, ◌+◌, ◌<◌, ◌≤◌, true, false, IfOk, IfSome, OnErr, OnOk};
ghost use Rattle.std.specs.List.{All};
ghost use Rattle.sx_block.specs.Validity.{digest_of_ledger};
ghost use Rattle.sx_follow.specs.Ahead.{IsBatch, IsRight};
ghost use Rattle.sx_follow.specs.Bodies.{AreBodies};
ghost use Rattle.sx_block.specs.Chain.{NoneIsValid};
ghost use Rattle.sx_follow.specs.Follower.{Advances, HasWholeChain, IsFollower};

use crate::ahead::{Batch, Bodies, Hashed, ahead, goes_ahead, hash_and_apply, keep_states};
use crate::follower::Follower;
use crate::stepping::Spread;
use std::mem;
use std::thread::Threads;
use sx_block::validity_laws;
use sx_bytes::NoMemory;

impl Follower {
    // The same as `advance`, with so many workers for a block of many transactions.
    fn par_advance<R: Threads + Sync>(&mut self, rt: &R, workers: u32) -> Result<bool, NoMemory>
        requires some_worker { 1 ≤ workers }
        requires few_workers { workers ≤ 64 }
        ensures advances { result ≡ Ok true → Advances self.old self.new }
        ensures stays { result ≡ Ok false → NoneIsValid self.old.head self.old.blocks × (self.new ≡ self.old) }
        ensures kept { OnErr result (self.new ≡ self.old) }
        ensures follows { IsFollower self.new }
    {
        self.advance_by(&Spread { rt, workers })
    }

    // Makes what a batch leaves the head, where each block of it leaves what it names.
    fn take_batch(&mut self, batch: Batch)
        requires ahead { IsBatch self.old.head (digest_of_ledger self.old.head) self.old.blocks batch }
        requires right { All IsRight batch.claims.items }
        requires follows { IsFollower self.old }
        ensures opening { self.new.opening ≡ self.old.opening }
        ensures blocks { self.new.blocks ≡ self.old.blocks }
        ensures steps { self.old.steps < self.new.steps }
        ensures head { self.new.head ≡ batch.ledger }
        ensures digest { digest_of_ledger self.new.head ≡ batch.digest }
        ensures follows { IsFollower self.new }
    {
        validity_laws();
        let Batch {
            claims,
            ledger,
            digest,
        } = batch;
        self.steps += claims.len() as u32;
        let earlier = mem::replace(&mut self.head, ledger);
        self.digest = digest;
        self.spare.keep(earlier);
        keep_states(claims, &mut self.spare);
    }

    // Applies at most so many blocks, one after the other.
    fn advance_one_by_one<R: Threads + Sync>(
        &mut self,
        rt: &R,
        count: usize,
        workers: u32,
    ) -> Result<(), NoMemory>
        requires some_worker { 1 ≤ workers }
        requires few_workers { workers ≤ 64 }
        requires follows { IsFollower self.old }
        ensures opening { self.new.opening ≡ self.old.opening }
        ensures blocks { self.new.blocks ≡ self.old.blocks }
        ensures steps { self.old.steps ≤ self.new.steps }
        ensures follows { IsFollower self.new }
    {
        for _ in 0..count {
            if !self.par_advance(rt, workers)? {
                break;
            }
        }
        Ok(())
    }

    // Takes a batch where each block of it leaves what it names, and answers the batch on top of it, if there is one.
    // Otherwise the blocks up to the first that does not are applied once more, one after the other.
    fn next_batch<R: Threads + Sync>(
        &mut self,
        rt: &R,
        batch: Batch,
        bodies: &Bodies,
        workers: u32,
    ) -> Result<Option<Batch>, NoMemory>
        requires some_worker { 1 ≤ workers }
        requires few_workers { workers ≤ 64 }
        requires bodies { AreBodies self.old.blocks bodies.now }
        requires ahead { IsBatch self.old.head (digest_of_ledger self.old.head) self.old.blocks batch }
        ensures opening { self.new.opening ≡ self.old.opening }
        ensures blocks { self.new.blocks ≡ self.old.blocks }
        ensures steps { self.old.steps ≤ self.new.steps }
        ensures more { IfOk result (λ next. IfSome next (λ _. self.old.steps < self.new.steps)) }
        ensures ahead { IfOk result (λ next.
            IfSome next (IsBatch self.new.head (digest_of_ledger self.new.head) self.new.blocks)) }
        ensures follows { IsFollower self.new }
    {
        let alloc = *self.blocks.allocator();
        let Hashed { right, next } = hash_and_apply(
            rt,
            alloc,
            &batch,
            &self.blocks,
            bodies,
            &self.waiting,
            &mut self.spare,
            self.reach,
            (workers as usize - 1).max(1),
        )?;
        if right >= batch.claims.len() {
            self.take_batch(batch);
            self.reach_further();
            return Ok(next);
        }
        batch.keep_with(next, &mut self.spare);
        self.reach_no_further();
        self.advance_one_by_one(rt, right, workers)?;
        Ok(None)
    }

    // Takes blocks that are applied ahead, batch by batch, while threads hash states.
    fn run_ahead<R: Threads + Sync>(
        &mut self,
        rt: &R,
        bodies: &Bodies,
        workers: u32,
    ) -> Result<(), NoMemory>
        requires some_worker { 1 ≤ workers }
        requires few_workers { workers ≤ 64 }
        requires bodies { AreBodies self.old.blocks bodies.now }
        ensures opening { self.new.opening ≡ self.old.opening }
        ensures blocks { self.new.blocks ≡ self.old.blocks }
        ensures steps { self.old.steps ≤ self.new.steps }
        ensures follows { IsFollower self.new }
    {
        let alloc = *self.blocks.allocator();
        let mut batch = ahead(
            rt,
            alloc,
            &self.head,
            &self.digest,
            &self.blocks,
            bodies,
            &self.waiting,
            &mut self.spare,
            self.reach,
        )?;
        while let Some(made) = batch {
            batch = self.next_batch(rt, made, bodies, workers)?;
        }
        Ok(())
    }

    // Makes the digests of the transactions of the blocks above the head, unless they are there, where blocks are to be
    // applied ahead.
    fn make_bodies<R: Threads + Sync>(
        &self,
        rt: &R,
        bodies: &mut Bodies,
        workers: u32,
    ) -> Result<(), NoMemory>
        requires some_worker { 1 ≤ workers }
        requires bodies { AreBodies self.now.blocks bodies.old }
        ensures bodies { OnOk result (AreBodies self.now.blocks bodies.new) }
        ensures follows { IsFollower self.now }
    {
        let alloc = *self.blocks.allocator();
        if !bodies.is_empty() {
            return Ok(());
        }
        if goes_ahead(alloc, &self.head, &self.digest, &self.blocks, &self.waiting)? {
            let height = self.head.height();
            *bodies = Bodies::above(rt, alloc, &self.blocks, height, workers as usize)?;
        }
        Ok(())
    }

    // Runs ahead, and then applies one block more, by so many workers. It answers whether there was one.
    fn go_on<R: Threads + Sync>(
        &mut self,
        rt: &R,
        bodies: &mut Bodies,
        workers: u32,
    ) -> Result<bool, NoMemory>
        requires some_worker { 1 ≤ workers }
        requires few_workers { workers ≤ 64 }
        requires bodies { AreBodies self.old.blocks bodies.old }
        ensures bodies { OnOk result (AreBodies self.new.blocks bodies.new) }
        ensures opening { self.new.opening ≡ self.old.opening }
        ensures blocks { self.new.blocks ≡ self.old.blocks }
        ensures advances { result ≡ Ok true → self.old.steps < self.new.steps }
        ensures stays { result ≡ Ok false → NoneIsValid self.new.head self.new.blocks }
        ensures follows { IsFollower self.new }
    {
        self.make_bodies(rt, bodies, workers)?;
        self.run_ahead(rt, bodies, workers)?;
        let found = self.par_advance(rt, workers)?;
        self.reach_further();
        Ok(found)
    }

    /// The same as [`Follower::advance_all`], by several threads. Blocks that follow one another by the digests that
    /// they name are applied by one thread, at most 32 at a time, while others hash the ledgers that earlier ones
    /// left. Before, all of them make the digests of the transactions of the blocks above the head. Blocks count as
    /// applied once the ledgers before and after them have the digests that they name. Where one has not, what was
    /// applied on top of it is dropped, and those that were applied with it and stand before it are applied once more.
    ///
    /// A block of many transactions that is not applied ahead is judged and applied by so many workers. With one
    /// worker no thread is started, and where none can be started, one thread does all in turn. Where memory runs out,
    /// those stay applied that were by then.
    pub fn par_advance_all<R: Threads + Sync>(
        &mut self,
        rt: &R,
        workers: u32,
    ) -> Result<(), NoMemory>
        requires some_worker { 1 ≤ workers }
        requires few_workers { workers ≤ 64 }
        ensures opening { self.new.opening ≡ self.old.opening }
        ensures blocks { self.new.blocks ≡ self.old.blocks }
        ensures ended { OnOk result (NoneIsValid self.new.head self.new.blocks) }
        ensures whole { OnOk result (HasWholeChain self.new) }
    {
        if workers < 2 {
            return self.advance_all();
        }
        let mut bodies = Bodies::none(*self.blocks.allocator());
        while self.go_on(rt, &mut bodies, workers)? {}
        Ok(())
    }
}
