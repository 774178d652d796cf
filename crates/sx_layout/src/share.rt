//! The opening words of one shard, while its accounts come.

ghost use Rattle.std.specs.Prelude.{◌≡◌, ◌++◌, [], ◌∷◌, IfOk, OnOk, replicate};

use crate::opening::Words;
use std::alloc::Global;
use sx_bytes::NoMemory;
use sx_ledger::Account;

/// What one shard has of the accounts that came so far: their balances, and what they have used of their
/// sequence numbers.
#[derive(Drop)]
pub struct Share {
    balances: Vec<u64>,
    used: Vec<u64>,
}

impl Share {
    /// A share of no account, with memory for so many purses and so many bit words.
    pub fn with_room(alloc: Global, purses: usize, bits: usize) -> Result<Share, NoMemory>
        ensures balances { IfOk result (λ share. share.balances.items ≡ []) }
        ensures used { IfOk result (λ share. share.used.items ≡ []) }
    {
        Ok(Share {
            balances: Vec::with_capacity(alloc, purses)?,
            used: Vec::with_capacity(alloc, bits)?,
        })
    }

    /// Takes in one more account.
    pub fn take_in(&mut self, account: &Account) -> Result<(), NoMemory>
        ensures balances { OnOk result (self.new.balances.items ≡ self.old.balances.items ++ account.now.balances) }
        ensures used { OnOk result (self.new.used.items ≡ self.old.used.items ++ account.now.window.used ∷ []) }
    {
        self.balances.extend_from_slice(account.balances.items())?;
        self.used.push(account.window.used)?;
        Ok(())
    }

    /// The purses and the bit words, of which so many clear ones come last.
    pub fn into_words(self, clear: u32) -> Result<(Words, Words), NoMemory>
        ensures purses { IfOk result (λ words. words.0 ≡ self.balances.items) }
        ensures bits { IfOk result (λ words. words.1 ≡ self.used.items ++ replicate clear 0) }
    {
        let Share { balances, mut used } = self;
        used.resize(used.len() + clear as usize, 0)?;
        Ok((Words::of(balances), Words::of(used)))
    }
}
