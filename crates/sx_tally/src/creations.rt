//! The accounts that a body creates.

ghost use Rattle.std.specs.Prelude.{◌≡◌, ◌++◌, [], ◌∷◌, List, length, OnOk};
ghost use Rattle.sx_tally.specs.Changes.{HasCreated};
ghost use Rattle.sx_tx.specs.declared.tx.Tx.{Tx as Transaction};

use crate::kinds::created_id;
use crate::repeats::first_again;
use std::alloc::Global;
use std::collections::BTreeSet;
use sx_bytes::NoMemory;
use sx_tx::Tx;

/// The ids of the accounts that are created, one for each creation, and as a set; and the first
/// transaction that creates one again.
#[derive(Debug, Drop)]
pub struct Creations {
    pub ids: Vec<u64>,
    set: BTreeSet<u64>,
    pub again: Option<usize>,
}

impl Creations {
    /// No account is created.
    pub fn none(alloc: Global) -> Creations
        ensures { HasCreated [] result }
    {
        Creations {
            ids: Vec::new(alloc),
            set: BTreeSet::new(alloc),
            again: None,
        }
    }

    /// Enters a transaction, which is the one at this index.
    pub fn enter(&mut self, index: usize, tx: &Tx) -> Result<(), NoMemory>
        ensures { OnOk result ((before : List Transaction) → length before ≡ index → HasCreated before self.old
            → HasCreated (before ++ tx.now ∷ []) self.new) }
    {
        let Some(id) = created_id(tx) else {
            return Ok(());
        };
        let is_new = self.set.insert(id)?;
        self.again = first_again(self.again, !is_new, index);
        self.ids.push(id)?;
        Ok(())
    }
}
