//! A ledger and its index, which a thread may still be making.

ghost use Rattle.std.specs.Prelude.{◌≡◌, IfOk};
ghost use Rattle.std.specs.Arc.{arc_value};
ghost use Rattle.sx_filter.specs.Indexed.{IsIndexOf};
ghost use Rattle.sx_ledger.specs.declared.parts.Parts.{Parts};
ghost use Rattle.sx_ledger.specs.Ledger.{ids};

use std::alloc::Global;
use std::marker::Model;
use std::snapshot::Snapshot;
use std::sync::Arc;
use std::thread::{Promise, PromisedHandle, Threads, spawn_with};
use sx_bytes::NoMemory;
use sx_ledger::{Ledger, LedgerIndex};

// From how many accounts on a thread of its own makes the index. That takes milliseconds for the most, and to start a
// thread a small part of one.
const WORTH_A_THREAD: u32 = 4_096;

/// What a thread promises of the index that it makes, if there is memory for it: it is that of this ledger.
#[derive(Drop)]
pub struct IndexOf {
    pub ledger: Snapshot<Ledger>,
}

impl Promise<Result<LedgerIndex, NoMemory>> for IndexOf {
    ghost kept_by = { λ promise found. IfOk found (λ index. index ≡ ids promise.ledger.value.accounts) };
}

// The index, or that there was no memory for it.
#[derive(Drop)]
pub(crate) enum FoundIndex {
    Known(Result<LedgerIndex, NoMemory>),
    // A thread makes it.
    Making(PromisedHandle<Result<LedgerIndex, NoMemory>, IndexOf>),
}

impl FoundIndex {
    fn start<R: Threads>(rt: &R, ledger: &Arc<Ledger, Global>) -> FoundIndex
        ensures { IsIndexOf (arc_value ledger.now) result }
    {
        if ledger.accounts() < WORTH_A_THREAD {
            return FoundIndex::Known(ledger.index());
        }
        let Ok(theirs) = Arc::try_clone(ledger) else {
            return FoundIndex::Known(ledger.index());
        };
        let promise = IndexOf {
            ledger: Snapshot::of(ledger),
        };
        let making = spawn_with(
            rt,
            promise,
            move || -> Result<LedgerIndex, NoMemory>
                ensures { IfOk result (λ index. index ≡ ids (arc_value theirs).accounts) }
            { theirs.index() },
        );
        match making {
            Ok(handle) => FoundIndex::Making(handle),
            Err(refused) => FoundIndex::Known((refused.value)()),
        }
    }

    // What was found. Where a thread still makes the index, the call waits for the thread.
    fn wait<R: Threads>(self, rt: &R) -> Result<LedgerIndex, NoMemory>
        ensures { (parts : Parts) → IsIndexOf parts self → IfOk result (λ index. index ≡ ids parts.accounts) }
    {
        match self {
            FoundIndex::Known(found) => found,
            FoundIndex::Making(handle) => handle.join(rt),
        }
    }
}

/// A ledger and its index, which a thread may still be making. Contracts see the parts of the ledger. Where this is let
/// go while a thread makes the index, the thread runs on to its end, and what it makes is lost.
#[derive(Drop)]
pub struct IndexedLedger {
    ledger: Arc<Ledger, Global>,
    index: FoundIndex,
}

impl Model for IndexedLedger {
    ghost use Rattle.std.specs.Arc.{arc_value};
    ghost use Rattle.sx_filter.specs.Indexed.{IsIndexOf};
    ghost use Rattle.sx_ledger.specs.declared.parts.Parts.{Parts};

    ghost Value = { Parts };

    ghost view = { λ l. arc_value l.ledger };

    ghost invariant = { λ l. IsIndexOf (arc_value l.ledger) l.index };
}

impl IndexedLedger {
    /// Begins to make the index of a ledger. Where that has 4,096 accounts or more, a thread of its own does, so that the
    /// caller can read candidates meanwhile. Where no thread can be started, the call makes it.
    pub fn start<R: Threads>(
        rt: &R,
        alloc: Global,
        ledger: Ledger,
    ) -> Result<IndexedLedger, NoMemory>
        ensures { IfOk result (λ indexed. indexed ≡ ledger) }
    {
        let Ok(ledger) = Arc::new(alloc, ledger) else {
            return Err(NoMemory);
        };
        let index = FoundIndex::start(rt, &ledger);
        Ok(IndexedLedger { ledger, index })
    }

    /// The ledger.
    pub fn ledger(&self) -> &Ledger
        ensures { result.now ≡ self.now }
    {
        &self.ledger
    }

    // The ledger and the index, once that is made.
    pub(crate) fn whole<R: Threads>(
        self,
        rt: &R,
    ) -> Result<(Arc<Ledger, Global>, LedgerIndex), NoMemory>
        ensures ledger { IfOk result (λ found. arc_value found.0 ≡ self) }
        ensures index { IfOk result (λ found. found.1 ≡ ids self.accounts) }
    {
        let IndexedLedger { ledger, index } = self;
        let index = index.wait(rt)?;
        Ok((ledger, index))
    }
}
