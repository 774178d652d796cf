//! A layout worked out by hand, on two shards.

ghost use Rattle.std.specs.Prelude.{◌≡◌, IfSome};

use crate::markets::{create, three_accounts};
use std::alloc::Global;
use sx_base::{AccountId, AssetId};
use sx_layout::{Layout, Spot, closing_law, layout_laws};
use sx_state::read_state;

// The layout for candidates that create accounts 11, 9 and 11.
fn layout_of(alloc: Global) -> Option<Layout>
    ensures { IfSome result (λ layout. layout.shards ≡ 2) }
{
    let ledger = read_state(alloc, &three_accounts()).ok()?;
    let candidates = [create(1, 4, 11)?, create(1, 4, 9)?, create(1, 4, 11)?];
    Layout::new(alloc, &ledger, candidates.as_slice(), 2).ok()
}

fn number(spot: Spot) -> (u32, u32) {
    (spot.shard, spot.word)
}

// The shards and words of the last balance, the last account's sequence numbers and the offer, and the offer's bit.
fn spots(alloc: Global) -> Option<([(u32, u32); 3], u32)> {
    let ledger = read_state(alloc, &three_accounts()).ok()?;
    if ledger.accounts() != 3 || ledger.offers() != 1 || ledger.assets() != 2 {
        return None;
    }
    let layout = Layout::new(alloc, &ledger, &[], 2).ok()?;
    let (offer, bit) = layout.offer_of(0);
    let purse = layout.purse_of(2, AssetId::new(1).ok()?);
    Some((
        [number(purse), number(layout.window_of(2)), number(offer)],
        bit,
    ))
}

#[test]
fn words_have_spots(rt: HostRuntime) {
    assert!(rt; spots(rt.alloc()) == Some(([(0, 3), (0, 1), (0, 2)], 0)));
    layout_laws();
    closing_law();
}

// Whether a shard opens with these purses and these bit words.
fn opens_with(alloc: Global, shard: u32, purses: &[u64], bits: &[u64]) -> Option<bool> {
    let layout = layout_of(alloc)?;
    let shard = shard.min(1);
    Some(layout.opening_purses(shard) == purses && layout.opening_bits(shard) == bits)
}

#[test]
fn words_open_with_the_balances(rt: HostRuntime) {
    let alloc = rt.alloc();
    assert!(rt; opens_with(alloc, 0, &[10, 20, 40, 50], &[0, 0, 0, 0]) == Some(true));
    assert!(rt; opens_with(alloc, 1, &[30, 0], &[0]) == Some(true));
}

// The word and the bit of a new id.
fn name(alloc: Global, id: u64) -> Option<(u32, u32)> {
    let (spot, bit) = layout_of(alloc)?.name_of(AccountId(id))?;
    Some((spot.word, bit))
}

#[test]
fn new_ids_have_bits(rt: HostRuntime) {
    assert!(rt; name(rt.alloc(), 9) == Some((3, 0)));
    assert!(rt; name(rt.alloc(), 11) == Some((3, 1)));
    assert!(rt; name(rt.alloc(), 10) == None);
}
