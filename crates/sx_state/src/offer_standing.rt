//! Whether all of many offers stand in order and have owners, which several threads find out.

ghost use Rattle.std.specs.Prelude.{◌≡◌, ◌<◌, ◌≤◌, None, length};
ghost use Rattle.std.specs.List.{list_all};
ghost use Rattle.sx_ledger.specs.Ledger.{ids};
ghost use Rattle.sx_state.specs.SoundOffers.{AreTold, IsTold, all_stand, key_ahead};

use crate::offer_reading::follows;
use crate::owners::has_owner;
use std::thread::Threads;
use sx_fork::for_each_mut;
use sx_ledger::{Account, AccountIndex, Key, Offer};

// The key of the offer before a place.
fn key_ahead_of(offers: &[Offer], place: usize) -> Option<Key>
    requires { place < length offers.now }
    ensures { result ≡ key_ahead None offers.now place }
{
    if place == 0 {
        return None;
    }
    Some(offers[place - 1].key())
}

// Whether the offer at a place stands after the one before it and has an owner.
fn stands(index: &AccountIndex, accounts: &[Account], offers: &[Offer], place: usize) -> bool
    requires within { place < length offers.now }
    requires indexed { index.now ≡ ids accounts.now }
    ensures { IsTold accounts.now None offers.now place result }
{
    let offer = offers[place];
    follows(key_ahead_of(offers, place), &offer.key()) && has_owner(index, accounts, &offer)
}

// Of each offer whether it stands after the one before it and has an owner.
fn tell<R: Threads + Sync>(
    rt: &R,
    threads: usize,
    index: &AccountIndex,
    accounts: &[Account],
    offers: &[Offer],
    told: &mut [bool],
)
    requires some { 1 ≤ threads }
    requires indexed { index.now ≡ ids accounts.now }
    requires one_each { length told.old ≡ length offers.now }
    ensures one_each { length told.new ≡ length offers.now }
    ensures told { AreTold accounts.now None offers.now told.new }
{
    for_each_mut(
        rt,
        told,
        threads,
        &|place: usize, told: &mut bool|
            requires { (place < length offers.now) × (index.now ≡ ids accounts.now) }
            ensures { IsTold accounts.entry.now None offers.entry.now place told.exit.now }
        {
            *told = stands(index, accounts, offers, place);
        },
    );
}

fn all_true(told: &[bool]) -> bool
    ensures { result ≡ list_all (λ told. told) told.now }
{
    told.iter().all(|told| *told)
}

// Whether each offer stands after the one before it and has an owner. There is a slot for what is told of each.
#[tactic(auto, using(crate::proofs::SoundOffers::told_all))]
pub fn all_stand_by<R: Threads + Sync>(
    rt: &R,
    threads: usize,
    index: &AccountIndex,
    accounts: &[Account],
    offers: &[Offer],
    told: &mut [bool],
) -> bool
    requires some { 1 ≤ threads }
    requires indexed { index.now ≡ ids accounts.now }
    requires one_each { length told.old ≡ length offers.now }
    ensures { result ≡ all_stand accounts.now None offers.now }
{
    tell(rt, threads, index, accounts, offers, told);
    all_true(told)
}
