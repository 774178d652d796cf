//! A ledger, the candidates, and where all their words are.

ghost use Rattle.std.specs.Prelude.{◌≡◌, ◌-◌, ◌≤◌, ◌<◌, length, slice_get, Contains, IfOk, OnOk, IfErr, Ok, Err, Some};
ghost use Rattle.sx_layout.specs.Asked.{number_spot, wanted_of, purse_wanted, bit_wanted, IsBitSpot, IsWanted, IsSomeUnits};
ghost use Rattle.sx_layout.specs.AskedLaws.{AreThere};
ghost use Rattle.sx_layout.specs.Plan.{plan_of, place_in, offer_place, offer_spot, name_spot, words_of};
ghost use Rattle.sx_layout.specs.PlanLaws.{IsLaidOut};
ghost use Rattle.sx_ledger.specs.Body.{created_by};
ghost use Rattle.sx_ledger.specs.Ledger.{assets_of, ids};
ghost use Rattle.sx_ledger.specs.Places.{ArePlaces, IsNamedOffer};
ghost use Rattle.sx_ledger.specs.Static.{static_of, window_of};
ghost use Rattle.sx_tx.specs.Transactions.{most_transactions};

use crate::asked::{Asked, Wanted};
use crate::layout::Layout;
use crate::spot::Spot;
use std::alloc::Global;
use std::marker::Model;
use sx_base::{AccountId, Amount, AssetId};
use sx_bytes::NoMemory;
use sx_ledger::{Key, Ledger, LedgerIndex, Places, Static, Target};
use sx_tx::{Kind, Tx};

/// The candidates of a ledger, and which word of which shard each of them asks for. Contracts see the
/// ledger's parts, the candidates and the plan of the words.
///
/// [`Setting::places_of`] tests a candidate and looks up what it names, and [`Setting::asked`] tells its
/// words: the bit of its sequence number, and then a bit or an amount out of a purse. All of these words
/// are there, whatever the number of shards.
#[derive(Debug, Drop)]
pub struct Setting<'a> {
    ledger: &'a Ledger,
    candidates: &'a [Tx],
    index: LedgerIndex,
    layout: Layout,
}

impl<'a> Model for Setting<'a> {
    ghost use Rattle.std.specs.Prelude.{◌≡◌};
    ghost use Rattle.sx_layout.specs.Setting.{Setting, IsSetting};
    ghost use Rattle.sx_ledger.specs.Ledger.{ids};

    ghost Value = { Setting };

    ghost view = { λ s. record { parts = s.ledger.now; candidates = s.candidates.now; plan = s.layout } };

    ghost invariant = { λ s. IsSetting (record { parts = s.ledger.now; candidates = s.candidates.now; plan = s.layout })
        × (s.index ≡ ids s.ledger.now.accounts) };
}

impl<'a> Setting<'a> {
    /// The setting of these candidates of a ledger, at most 1,000,000, on 1 to 64 shards. It may answer
    /// `NoMemory`, and no other call takes memory.
    pub fn new(
        alloc: Global,
        ledger: &'a Ledger,
        candidates: &'a [Tx],
        shards: u32,
    ) -> Result<Setting<'a>, NoMemory>
        requires candidates { length candidates.now ≤ most_transactions }
        requires some_shard { 1 ≤ shards }
        requires few_shards { shards ≤ 64 }
        ensures setting { IfOk result (λ setting. setting ≡ record {
          parts = ledger.now;
          candidates = candidates.now;
          plan = plan_of ledger.now candidates.now shards;
        }) }
        ensures laid_out { IfOk result (λ setting. IsLaidOut ledger.now candidates.now shards) }
    {
        let index = ledger.index()?;
        let layout = Layout::new(alloc, ledger, candidates, shards)?;
        Ok(Setting {
            ledger,
            candidates,
            index,
            layout,
        })
    }

    /// The candidates.
    pub fn candidates(&self) -> &'a [Tx]
        ensures { result.now ≡ self.now.candidates }
    {
        self.candidates
    }

    /// The number of shards.
    pub fn shards(&self) -> u32
        ensures { result ≡ self.now.plan.shards }
    {
        self.layout.shards()
    }

    /// The purses of a shard at the opening.
    pub fn opening_purses(&self, shard: u32) -> &[u64]
        requires { shard < self.now.plan.shards }
        ensures { result.now ≡ words_of self.now.plan.purses shard }
    {
        self.layout.opening_purses(shard)
    }

    /// The bit words of a shard at the opening.
    pub fn opening_bits(&self, shard: u32) -> &[u64]
        requires { shard < self.now.plan.shards }
        ensures { result.now ≡ words_of self.now.plan.bits shard }
    {
        self.layout.opening_bits(shard)
    }

    /// The static test of a candidate, and the places of what it names. The account is looked for near
    /// this place first.
    pub fn places_of(&self, near: u32, tx: &Tx) -> Result<Places, Static>
        ensures refused { IfErr result (λ why. static_of self.now.parts tx.now ≡ Err why) }
        ensures passes { OnOk result (static_of self.now.parts tx.now ≡ Ok tt) }
        ensures places { IfOk result (ArePlaces self.now.parts tx.now) }
    {
        self.ledger.places_of(&self.index, near, tx)
    }

    // The bit of a candidate's sequence number in the window of its account.
    fn bit_of(&self, tx: &Tx, account: u32) -> u32
        requires place { slice_get (ids self.now.parts.accounts) account ≡ Some tx.now.account.0 }
        requires passes { static_of self.now.parts tx.now ≡ Ok tt }
        ensures { result ≡ tx.now.seq - (window_of self.now.parts.accounts tx.now.account.0).last - 1 }
    {
        let window = self.ledger.account(account).window;
        match window.place(tx.seq) {
            Ok(bit) => bit,
            // It passes the static test, so it is in the window.
            Err(_) => unreachable!(),
        }
    }

    // The bit word of a candidate's sequence number, and the bit. All words that it asks for are there.
    fn number_of(&self, tx: &Tx, account: u32) -> (Spot, u32)
        requires own { Contains self.now.candidates tx.now }
        requires place { slice_get (ids self.now.parts.accounts) account ≡ Some tx.now.account.0 }
        requires passes { static_of self.now.parts tx.now ≡ Ok tt }
        ensures number { result ≡ number_spot self.now.parts self.now.plan tx.now }
        ensures there { AreThere self.now.parts self.now.plan tx.now }
    {
        let bit = self.bit_of(tx, account);
        (self.layout.window_of(account), bit)
    }

    // So many units out of the purse of the account at a place.
    fn units_of(&self, account: u32, asset: AssetId, need: Amount, id: AccountId) -> Wanted
        requires place { slice_get (ids self.now.parts.accounts) account ≡ Some id.0 }
        requires asset { asset < assets_of self.now.parts }
        ensures wanted { result ≡ purse_wanted self.now.parts self.now.plan id.0 asset need }
        ensures some { IsSomeUnits result }
    {
        Wanted::Units {
            purse: self.layout.purse_of(account, asset),
            need: need.get(),
        }
    }

    // The bit of the id that a candidate creates.
    fn name_of(&self, tx: &Tx, id: AccountId) -> Wanted
        requires own { Contains self.now.candidates tx.now }
        requires creates { created_by tx.now.kind ≡ Some id.0 }
        ensures wanted { result ≡ bit_wanted (name_spot self.now.plan (place_in self.now.plan.names id.0)) }
        ensures some { IsSomeUnits result }
    {
        match self.layout.name_of(id) {
            Some((at, bit)) => Wanted::Bit { at, bit },
            // It is a new id.
            None => unreachable!(),
        }
    }

    // The bit of an offer, which is this target.
    fn offer_of(&self, key: &Key, target: Target) -> Wanted
        requires { IsNamedOffer self.now.parts key.now target }
        ensures wanted { result ≡ bit_wanted (offer_spot self.now.plan (offer_place self.now.parts key.now)) }
        ensures some { IsSomeUnits result }
    {
        match target {
            Target::Offer(place) => {
                let (at, bit) = self.layout.offer_of(place);
                Wanted::Bit { at, bit }
            }
            // It is an offer.
            Target::Nothing | Target::Payee(_) => unreachable!(),
        }
    }

    // What a candidate asks for once its number is claimed.
    fn wanted(&self, tx: &Tx, places: &Places) -> Wanted
        requires own { Contains self.now.candidates tx.now }
        requires passes { static_of self.now.parts tx.now ≡ Ok tt }
        requires places { ArePlaces self.now.parts tx.now places.now }
        ensures wanted { result ≡ wanted_of self.now.parts self.now.plan tx.now }
        ensures some { IsSomeUnits result }
    {
        let account = tx.account;
        match tx.kind {
            Kind::Pay { asset, amount, .. } => {
                self.units_of(places.account, asset, amount, account)
            }
            Kind::Create { id } => self.name_of(tx, id),
            Kind::Offer { sell, amount, .. } => {
                self.units_of(places.account, sell, amount, account)
            }
            Kind::Cancel {
                sell,
                buy,
                limit,
                seq,
            } => self.offer_of(
                &Key {
                    sell,
                    buy,
                    limit,
                    account,
                    seq,
                },
                places.target,
            ),
        }
    }

    /// All that a candidate asks for. Its words are there, and where it asks for units it asks for at
    /// least one.
    pub fn asked(&self, tx: &Tx, places: &Places) -> Asked
        requires own { Contains self.now.candidates tx.now }
        requires passes { static_of self.now.parts tx.now ≡ Ok tt }
        requires places { ArePlaces self.now.parts tx.now places.now }
        ensures number { (result.number, result.bit) ≡ number_spot self.now.parts self.now.plan tx.now }
        ensures wanted { result.wanted ≡ wanted_of self.now.parts self.now.plan tx.now }
        ensures number_there { IsBitSpot self.now.plan result.number result.bit }
        ensures wanted_there { IsWanted self.now.plan result.wanted }
        ensures some { IsSomeUnits result.wanted }
    {
        let (number, bit) = self.number_of(tx, places.account);
        let wanted = self.wanted(tx, places);
        Asked {
            number,
            bit,
            wanted,
        }
    }
}
