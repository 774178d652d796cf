//! What a ledger says of one transaction, whatever stands beside it in a block.

ghost use Rattle.std.specs.Prelude.{◌≡◌, ◌*◌, ◌^◌, ◌==◌, ◌||◌, nat_lt, nat_le, not, take, drop, [], ◌∷◌, slice_get, Some, IfOk, IfSome, IfNone, is_some};
ghost use Rattle.sx_ledger.specs.declared.statics.Static.TheVariants.{UnknownAsset, SamePair, UnknownPayee, AccountExists, NoSuchOffer, Dust};
ghost use Rattle.sx_ledger.specs.Ledger.{assets_of, holds_key, ids, keys};
ghost use Rattle.sx_ledger.specs.Places.{ArePlaces, IsFound, IsNamedOffer, IsTarget, named_account, verdict};
ghost use Rattle.sx_ledger.specs.Static.{first_holding, has_offer as is_offered, number_of_static, static_list, static_of};

use crate::key::Key;
use crate::ledger::Ledger;
use crate::offer_marks::OfferMarks;
use crate::places::{Places, Target};
use sx_base::{AccountId, Amount, AssetId};
use sx_price::Limit;
use sx_tx::{Kind, Tx, WindowFault};
use thiserror::Error;

/// Why a ledger refuses a transaction, whatever stands beside it. Where several reasons hold, the
/// first as they stand here counts.
#[derive(Clone, Copy, Debug, PartialEq, Eq, Error)]
pub enum Static {
    /// 1: its account is not in the ledger.
    #[error("its account is not in the ledger")]
    UnknownAccount = 1,
    /// 2: its sequence number is at most the account's last one.
    #[error("its sequence number is not above the account's last one")]
    SeqBehind = 2,
    /// 3: its sequence number is more than 64 above the account's last one.
    #[error("its sequence number is more than 64 above the account's last one")]
    SeqBeyond = 3,
    /// 10: its sequence number is above the account's last one, and was used.
    #[error("its sequence number was used")]
    SeqUsed = 10,
    /// 4: it names an asset that the ledger does not have.
    #[error("it names an asset that the ledger does not have")]
    UnknownAsset = 4,
    /// 5: it offers an asset for itself, or cancels such an offer.
    #[error("what is sold and what is bought are the same asset")]
    SamePair = 5,
    /// 6: it pays an account that is not in the ledger.
    #[error("the payee is not in the ledger")]
    UnknownPayee = 6,
    /// 7: it creates an account that is in the ledger.
    #[error("the account that it creates is in the ledger")]
    AccountExists = 7,
    /// 8: it cancels an offer that is not in the ledger.
    #[error("the offer that it cancels is not in the ledger")]
    NoSuchOffer = 8,
    /// 9: its offer buys less than one unit at its limit.
    #[error("the offer buys less than one unit at its limit")]
    Dust = 9,
}

impl Static {
    /// The number of the refusal.
    pub fn number(self) -> u8
        ensures { result ≡ number_of_static self }
    {
        self as u8
    }
}

// The least value of an offer at its limit: one unit, in units of 2^-24.
const ONE: u128 = 1 << 24;

impl Ledger {
    fn lacks_asset(&self, asset: AssetId) -> bool
        ensures { result ≡ nat_le (assets_of self.now) asset }
    {
        self.assets() <= u32::from(asset.get())
    }

    // The account is there, at the place that was found, and the sequence number is open in its window.
    fn check_number(&self, tx: &Tx, account: Option<u32>) -> Result<u32, Static>
        requires { IsFound (ids self.now.accounts) tx.now.account.0 account }
        ensures tells { verdict result ≡ first_holding (take 4 (static_list self.now tx.now)) }
        ensures place { IfOk result (λ place. slice_get (ids self.now.accounts) place ≡ Some tx.now.account.0) }
    {
        let Some(place) = account else {
            return Err(Static::UnknownAccount);
        };
        match self.account(place).window.place(tx.seq) {
            Ok(_) => Ok(place),
            Err(WindowFault::Behind) => Err(Static::SeqBehind),
            Err(WindowFault::Beyond) => Err(Static::SeqBeyond),
            Err(WindowFault::Used) => Err(Static::SeqUsed),
        }
    }

    // The asset is there, and the payee was found.
    fn check_payment(&self, asset: AssetId, payee: Option<u32>) -> Result<Target, Static>
        ensures tells { verdict result ≡ first_holding ((nat_le (assets_of self.now) asset, UnknownAsset) ∷ (not (is_some payee), UnknownPayee) ∷ []) }
        ensures place { IfOk result (λ target. IfSome payee (λ place. target ≡ Target.Payee place)) }
    {
        if self.lacks_asset(asset) {
            return Err(Static::UnknownAsset);
        }
        match payee {
            Some(place) => Ok(Target::Payee(place)),
            None => Err(Static::UnknownPayee),
        }
    }

    // The assets are there, and they are two.
    fn check_pair(&self, sell: AssetId, buy: AssetId) -> Result<(), Static>
        ensures { result ≡ first_holding ((nat_le (assets_of self.now) sell || nat_le (assets_of self.now) buy, UnknownAsset) ∷ (sell == buy, SamePair) ∷ []) }
    {
        if self.lacks_asset(sell) || self.lacks_asset(buy) {
            return Err(Static::UnknownAsset);
        }
        if sell == buy {
            return Err(Static::SamePair);
        }
        Ok(())
    }

    // The pair is one, and the offer buys one unit or more at its limit.
    fn check_offer(
        &self,
        sell: AssetId,
        buy: AssetId,
        limit: Limit,
        amount: Amount,
    ) -> Result<(), Static>
        ensures { result ≡ first_holding ((nat_le (assets_of self.now) sell || nat_le (assets_of self.now) buy, UnknownAsset) ∷ (sell == buy, SamePair) ∷ (nat_lt (amount * limit) (2 ^ 24), Dust) ∷ []) }
    {
        self.check_pair(sell, buy)?;
        if u128::from(amount.get()) * u128::from(limit.get()) < ONE {
            return Err(Static::Dust);
        }
        Ok(())
    }

    // The place of the offer of this key. With marks the search begins at the guess that they make.
    fn find_marked(&self, key: &Key, marks: Option<&OfferMarks>) -> Option<u32>
        ensures found { IfSome result (λ place. slice_get (keys self.now.offers) place ≡ Some key.now) }
        ensures absent { IfNone result (holds_key self.now key.now → ⊥) }
    {
        match marks {
            Some(marks) => self.find_offer_near(marks.range(key), key),
            None => self.find_offer(key),
        }
    }

    // The pair is one, and an offer has this key.
    fn check_cancellation(&self, key: &Key, marks: Option<&OfferMarks>) -> Result<Target, Static>
        ensures tells { verdict result ≡ first_holding ((nat_le (assets_of self.now) key.now.sell || nat_le (assets_of self.now) key.now.buy, UnknownAsset) ∷ (key.now.sell == key.now.buy, SamePair) ∷ (not (is_offered self.now.offers key.now), NoSuchOffer) ∷ []) }
        ensures place { IfOk result (IsNamedOffer self.now key.now) }
    {
        self.check_pair(key.sell, key.buy)?;
        match self.find_marked(key, marks) {
            Some(place) => Ok(Target::Offer(place)),
            None => Err(Static::NoSuchOffer),
        }
    }

    // What the kind of the transaction asks of the ledger, where the account that it pays or creates
    // was looked up. With marks of the offers, the one that it cancels is found faster.
    fn check_kind(
        &self,
        tx: &Tx,
        named: Option<u32>,
        marks: Option<&OfferMarks>,
    ) -> Result<Target, Static>
        requires { IfSome (named_account tx.now.kind) (λ id. IsFound (ids self.now.accounts) id.0 named) }
        ensures tells { verdict result ≡ first_holding (drop 4 (static_list self.now tx.now)) }
        ensures target { IfOk result (IsTarget self.now tx.now.account.0 tx.now.kind) }
    {
        match tx.kind {
            Kind::Pay { asset, .. } => self.check_payment(asset, named),
            Kind::Create { .. } => match named {
                Some(_) => Err(Static::AccountExists),
                None => Ok(Target::Nothing),
            },
            Kind::Offer {
                sell,
                buy,
                limit,
                amount,
            } => {
                self.check_offer(sell, buy, limit, amount)?;
                Ok(Target::Nothing)
            }
            Kind::Cancel {
                sell,
                buy,
                limit,
                seq,
            } => {
                let key = Key {
                    sell,
                    buy,
                    limit,
                    account: tx.account,
                    seq,
                };
                self.check_cancellation(&key, marks)
            }
        }
    }

    // The static test of a transaction, once its account and the one that it pays or creates were
    // looked up, and the places of what it names. With marks of the offers, the one that it cancels is found faster.
    pub(crate) fn check(
        &self,
        tx: &Tx,
        account: Option<u32>,
        named: Option<u32>,
        marks: Option<&OfferMarks>,
    ) -> Result<Places, Static>
        requires account { IsFound (ids self.now.accounts) tx.now.account.0 account }
        requires named { IfSome (named_account tx.now.kind) (λ id. IsFound (ids self.now.accounts) id.0 named) }
        ensures tells { verdict result ≡ static_of self.now tx.now }
        ensures places { IfOk result (ArePlaces self.now tx.now) }
    {
        let account = self.check_number(tx, account)?;
        let target = self.check_kind(tx, named, marks)?;
        Ok(Places { account, target })
    }

    /// Why the ledger refuses a transaction, whatever stands beside it: exactly the first reason
    /// that holds, in the order in which they are listed. It takes no memory.
    pub fn static_check(&self, tx: &Tx) -> Result<(), Static>
        ensures { result ≡ static_of self.now tx.now }
    {
        let account = self.find(tx.account);
        let named = self.find_named(&tx.kind);
        match self.check(tx, account, named, None) {
            Ok(_) => Ok(()),
            Err(why) => Err(why),
        }
    }
}
