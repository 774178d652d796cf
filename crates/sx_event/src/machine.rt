//! The core: its words, its views, and the one call that changes them.
ghost use Rattle.std.specs.Prelude.{◌≡◌, ◌↔◌, ◌+◌, ◌<◌, ◌≤◌, max, length, IsTrue, IfOk, OnOk, OnErr};
ghost use Rattle.sx_event.specs.State.{begun, view_of};
ghost use Rattle.sx_event.specs.Step.{StepAllowed, stepped, answer};
ghost use Rattle.sx_event.specs.Rule.{Rule};

use crate::bit::{has_bit, with_bit};
use crate::event::{Event, Step};
use crate::marks::Claim;
use crate::views::Views;
use std::alloc::Global;
use std::marker::Model;
use sx_bytes::NoMemory;

/// Purse words, bit words and views, and memory for a number of steps.
///
/// Contracts see its state, `state`, and how many steps it has memory for, `spare`.
#[derive(Debug, Drop)]
pub struct Core {
    opening_purses: Vec<u64>,
    opening_bits: Vec<u64>,
    count: u32,
    purses: Vec<u64>,
    bits: Vec<u64>,
    views: Views,
    spare: u32,
}

impl Model for Core {
    ghost use Rattle.sx_event.specs.State.{Running};

    ghost Value = { Running };

    ghost use Rattle.sx_event.specs.Machine.{running, IsSound};

    ghost view = { running };

    ghost invariant = { IsSound };
}

impl Core {
    /// A core at its opening: the words are these, and view 0 has the candidates `0..count`.
    ///
    /// It has memory for `room` steps. It may answer `NoMemory`.
    pub fn start(
        alloc: Global,
        purses: &[u64],
        bits: &[u64],
        count: u32,
        room: u32,
    ) -> Result<Core, NoMemory>
        ensures state { IfOk result (λ core. core.state ≡ begun purses.now bits.now count) }
        ensures spare { IfOk result (λ core. core.spare ≡ room) }
        ensures rule { IfOk result (λ core. Rule core.state) }
    {
        let mut views = Views::new(alloc);
        views.reserve(room as usize + 1)?;
        views.open(0, count);
        Ok(Core {
            opening_purses: Vec::from_slice(alloc, purses)?,
            opening_bits: Vec::from_slice(alloc, bits)?,
            count,
            purses: Vec::from_slice(alloc, purses)?,
            bits: Vec::from_slice(alloc, bits)?,
            views,
            spare: room,
        })
    }

    /// Takes memory for more steps, so that there is enough for at least `more`.
    ///
    /// Nothing else changes. It may answer `NoMemory`, and then nothing changes.
    pub fn reserve(&mut self, more: u32) -> Result<(), NoMemory>
        ensures state { self.new.state ≡ self.old.state }
        ensures ok { OnOk result (self.new.spare ≡ max self.old.spare more) }
        ensures err { OnErr result (self.new.spare ≡ self.old.spare) }
    {
        if self.spare < more {
            self.views.reserve(more as usize)?;
            self.spare = more;
        }
        Ok(())
    }

    /// One step of the actor whose view has this name. It takes no memory.
    ///
    /// A Take reads as many tables of notes as views were joined into the actor's own, and one more. In
    /// each it passes the notes of the purse, and of purses that share its chain, that came after the
    /// table's own, or all of them if the table has none. Every other step costs the same however many
    /// views, claims and notes there are.
    pub fn step(&mut self, actor: u32, event: Event) -> Step
        requires spare { 1 ≤ self.old.spare }
        requires allowed { StepAllowed self.old.state actor event }
        ensures state { self.new.state ≡ stepped self.old.state actor event }
        ensures told { result ≡ answer self.old.state actor event }
        ensures spare { self.new.spare + 1 ≡ self.old.spare }
        ensures rule { Rule self.new.state }
    {
        let told = match event {
            Event::Look { purse } => self.look(actor, purse),
            Event::Take { purse, need } => self.take(actor, purse, need),
            Event::Claim { word, bit } => self.claim(actor, word, bit),
            Event::Split { at } => self.split(actor, at),
            Event::Join { other } => self.join(actor, other),
        };
        // The rule is part of what holds of the fields.
        let _ = &self.spare;
        told
    }

    /// Whether the conditions of this step hold, but for memory. It takes no memory.
    ///
    /// A caller whose events come from outside asks this first.
    pub fn allows(&self, actor: u32, event: Event) -> bool
        ensures { IsTrue result ↔ StepAllowed self.now.state actor event }
    {
        match event {
            Event::Look { purse } => self.can_look(actor, purse),
            Event::Take { purse, need } => self.can_take(actor, purse, need),
            Event::Claim { word, bit } => self.can_claim(actor, word, bit),
            Event::Split { at } => self.can_split(actor, at),
            Event::Join { other } => self.can_join(actor, other),
        }
    }

    fn can_look(&self, actor: u32, purse: u32) -> bool
        ensures { IsTrue result ↔ StepAllowed self.now.state actor (Event.Look purse) }
    {
        self.views.is_live(actor) && (purse as usize) < self.purses.len()
    }

    fn can_take(&self, actor: u32, purse: u32, need: u64) -> bool
        ensures { IsTrue result ↔ StepAllowed self.now.state actor (Event.Take purse need) }
    {
        self.can_look(actor, purse) && need >= 1 && self.views.covers(actor, purse, need)
    }

    fn can_claim(&self, actor: u32, word: u32, bit: u32) -> bool
        ensures { IsTrue result ↔ StepAllowed self.now.state actor (Event.Claim word bit) }
    {
        self.views.is_live(actor) && (word as usize) < self.bits.len() && bit < 64
    }

    fn can_split(&self, actor: u32, at: u32) -> bool
        ensures { IsTrue result ↔ StepAllowed self.now.state actor (Event.Split at) }
    {
        self.views.is_live(actor)
            && self.views.from(actor) < at
            && at < self.views.end(actor)
            && self.views.count() < u32::MAX as usize
    }

    fn can_join(&self, actor: u32, other: u32) -> bool
        ensures { IsTrue result ↔ StepAllowed self.now.state actor (Event.Join other) }
    {
        self.views.is_live(actor)
            && other != actor
            && self.views.is_live(other)
            && self.views.from(other) == self.views.end(actor)
    }

    fn look(&mut self, actor: u32, purse: u32) -> Step
        requires spare { 1 ≤ self.old.spare }
        requires allowed { StepAllowed self.old.state actor (Event.Look purse) }
        ensures state { self.new.state ≡ stepped self.old.state actor (Event.Look purse) }
        ensures told { result ≡ answer self.old.state actor (Event.Look purse) }
        ensures spare { self.new.spare + 1 ≡ self.old.spare }
    {
        let found = self.purses[purse as usize];
        self.views.note_low(actor, purse, found);
        self.spare -= 1;
        Step::Seen(found)
    }

    fn take(&mut self, actor: u32, purse: u32, need: u64) -> Step
        requires spare { 1 ≤ self.old.spare }
        requires allowed { StepAllowed self.old.state actor (Event.Take purse need) }
        ensures state { self.new.state ≡ stepped self.old.state actor (Event.Take purse need) }
        ensures told { result ≡ answer self.old.state actor (Event.Take purse need) }
        ensures spare { self.new.spare + 1 ≡ self.old.spare }
    {
        let found = self.purses[purse as usize];
        self.spare -= 1;
        if self.views.is_as_seen(actor, purse, found) {
            self.purses[purse as usize] = found - need;
            self.views.claim(
                actor,
                Claim::Debit {
                    purse,
                    amount: need,
                },
            );
            return Step::Won;
        }
        self.views.note_low(actor, purse, found);
        Step::Lost(found)
    }

    fn claim(&mut self, actor: u32, word: u32, bit: u32) -> Step
        requires spare { 1 ≤ self.old.spare }
        requires allowed { StepAllowed self.old.state actor (Event.Claim word bit) }
        ensures state { self.new.state ≡ stepped self.old.state actor (Event.Claim word bit) }
        ensures told { result ≡ answer self.old.state actor (Event.Claim word bit) }
        ensures spare { self.new.spare + 1 ≡ self.old.spare }
    {
        let found = self.bits[word as usize];
        self.spare -= 1;
        self.bits[word as usize] = with_bit(found, bit);
        if has_bit(found, bit) {
            self.views.note_set(actor, word, bit);
            return Step::Taken;
        }
        self.views.claim(actor, Claim::Bit { word, bit });
        Step::Clear
    }

    fn split(&mut self, actor: u32, at: u32) -> Step
        requires spare { 1 ≤ self.old.spare }
        requires allowed { StepAllowed self.old.state actor (Event.Split at) }
        ensures state { self.new.state ≡ stepped self.old.state actor (Event.Split at) }
        ensures told { result ≡ answer self.old.state actor (Event.Split at) }
        ensures spare { self.new.spare + 1 ≡ self.old.spare }
    {
        let name = self.views.count() as u32;
        self.views.split(actor, at);
        self.spare -= 1;
        Step::Made(name)
    }

    fn join(&mut self, actor: u32, other: u32) -> Step
        requires spare { 1 ≤ self.old.spare }
        requires allowed { StepAllowed self.old.state actor (Event.Join other) }
        ensures state { self.new.state ≡ stepped self.old.state actor (Event.Join other) }
        ensures told { result ≡ answer self.old.state actor (Event.Join other) }
        ensures spare { self.new.spare + 1 ≡ self.old.spare }
    {
        self.views.join(actor, other);
        self.spare -= 1;
        Step::Joined
    }

    /// The purse words.
    pub fn purses(&self) -> &[u64]
        ensures { result.now ≡ self.now.state.purses }
    {
        &self.purses
    }

    /// The bit words.
    pub fn bits(&self) -> &[u64]
        ensures { result.now ≡ self.now.state.bits }
    {
        &self.bits
    }

    /// How many steps there is memory for.
    pub fn spare(&self) -> u32
        ensures { result ≡ self.now.spare }
    {
        self.spare
    }

    /// How many views were made, live and spent.
    pub fn made(&self) -> usize
        ensures { result ≡ length self.now.state.views }
    {
        self.views.count()
    }

    /// Whether there is a live view of this name.
    pub fn is_live(&self, name: u32) -> bool
        ensures { result ≡ (view_of self.now.state name).live }
    {
        self.views.is_live(name)
    }

    /// The first candidate of the view's range.
    pub fn from(&self, name: u32) -> u32
        requires { name < length self.now.state.views }
        ensures { result ≡ (view_of self.now.state name).from }
    {
        self.views.from(name)
    }

    /// The end of the view's range.
    pub fn end(&self, name: u32) -> u32
        requires { name < length self.now.state.views }
        ensures { result ≡ (view_of self.now.state name).end }
    {
        self.views.end(name)
    }
}
