//! Reading the header of a block, field by field from left to right. Each field is read whole and then
//! tested.

ghost use Rattle.std.specs.Prelude.{◌≡◌, ◌≤◌, IfOk, vec_len};
ghost use Rattle.sx_block.specs.Decoding.{digest_at, potential_at, front_at, market_at, outcome_at, header_at};
ghost use Rattle.sx_bytes.specs.Grammar.{DecodesOrStrays, MayDecodeOrStray, many_at};
ghost use Rattle.sx_state.specs.Decoding.{units_field_at};

use crate::digest::Digest;
use crate::header::Header;
use crate::trade_reading::{read_cut, read_flow};
use std::alloc::Global;
use sx_base::{Amount, AssetId, BalanceVec, Balances};
use sx_bytes::{Form, FormFault, ReadError, Reader};
use sx_dual::{Cut, Flow, Potentials};
use sx_ledger::Ledger;
use sx_price::{Mu, Prices};
use sx_state::read_prices;

// The greatest version.
const MOST_VERSION: u8 = 2;

fn read_digest(from: &mut Reader) -> Result<Digest, FormFault>
    ensures { DecodesOrStrays (λ x. x) (digest_at from.old) from.new result }
{
    let mut bytes = [0; 32];
    bytes.copy_from_slice(from.raw(32)?);
    Ok(Digest::of(bytes))
}

// What stands before the number of assets.
#[derive(Drop)]
struct Front {
    version: u8,
    height: u64,
    parent: Digest,
    body: Digest,
    mu: Mu,
}

#[tactic(auto, unfolding(crate::specs::Decoding::front_at))]
fn read_front(from: &mut Reader) -> Result<Front, FormFault>
    ensures { DecodesOrStrays (λ front. (front.version, front.height, front.parent, front.body, front.mu)) (front_at from.old) from.new result }
{
    let version = from.field_u8(1, MOST_VERSION, Form::Version)?;
    let height = from.field_u64(0, Ledger::MOST_HEIGHT, Form::HeightRange)?;
    let parent = read_digest(from)?;
    let body = read_digest(from)?;
    let exponent = from.field_u8(Mu::LEAST, Mu::MOST, Form::MuRange)?;
    Ok(Front {
        version,
        height,
        parent,
        body,
        mu: Mu::new(exponent).unwrap(),
    })
}

// What trades, and at which prices.
#[derive(Drop)]
struct Market {
    prices: Prices,
    trades: Flow,
    dropped: Option<Cut>,
}

#[tactic(auto, unfolding(crate::specs::Decoding::market_at))]
fn read_market(alloc: Global, from: &mut Reader, assets: u8) -> Result<Market, ReadError>
    requires some { 1 ≤ assets }
    requires few { assets ≤ 32 }
    ensures { MayDecodeOrStray (λ market. (market.prices, market.trades, market.dropped)) (market_at assets from.old) from.new result }
{
    let prices = read_prices(alloc, from, assets)?;
    let trades = read_flow(alloc, from, assets)?;
    let dropped = read_cut(from, assets)?;
    Ok(Market {
        prices,
        trades,
        dropped,
    })
}

fn read_potential(from: &mut Reader) -> Result<u32, FormFault>
    ensures { DecodesOrStrays (λ x. x) (potential_at from.old) from.new result }
{
    Ok(from.get_u32()?)
}

fn read_potentials(alloc: Global, from: &mut Reader, assets: u8) -> Result<Vec<u32>, ReadError>
    ensures exact { MayDecodeOrStray (λ v. v.items) (many_at potential_at assets from.old) from.new result }
    ensures count { IfOk result (λ v. vec_len v ≡ assets) }
{
    let mut potentials = Vec::with_capacity(alloc, usize::from(assets))?;
    for _ in 0..assets {
        potentials.push(read_potential(from)?)?;
    }
    Ok(potentials)
}

fn read_rounding(alloc: Global, from: &mut Reader, assets: u8) -> Result<BalanceVec, ReadError>
    ensures { MayDecodeOrStray (λ v. v.items) (many_at units_field_at assets from.old) from.new result }
{
    let mut rounding = BalanceVec::with_capacity(alloc, usize::from(assets))?;
    for _ in 0..assets {
        rounding.push(from.field_u64(0, Amount::MOST, Form::AmountRange)?)?;
    }
    Ok(rounding)
}

// What trading leaves, and what shows that it is right.
#[derive(Drop)]
struct Outcome {
    potentials: Potentials,
    rounding: BalanceVec,
    after: Digest,
}

#[tactic(auto, unfolding(crate::specs::Decoding::outcome_at))]
fn read_outcome(alloc: Global, from: &mut Reader, assets: u8) -> Result<Outcome, ReadError>
    requires some { 1 ≤ assets }
    requires few { assets ≤ 32 }
    ensures { MayDecodeOrStray (λ outcome. (outcome.potentials, outcome.rounding.items, outcome.after)) (outcome_at assets from.old) from.new result }
{
    let potentials = read_potentials(alloc, from, assets)?;
    let rounding = read_rounding(alloc, from, assets)?;
    let after = read_digest(from)?;
    Ok(Outcome {
        potentials: Potentials::of(potentials),
        rounding,
        after,
    })
}

#[tactic(auto, unfolding(crate::specs::Decoding::header_at))]
pub fn read_header(alloc: Global, from: &mut Reader) -> Result<Header, ReadError>
    ensures { MayDecodeOrStray (λ x. x) (header_at from.old) from.new result }
{
    let front = read_front(from)?;
    let assets = from.field_u8(1, AssetId::LIMIT, Form::AssetCount)?;
    let market = read_market(alloc, from, assets)?;
    let outcome = read_outcome(alloc, from, assets)?;
    let Front {
        version,
        height,
        parent,
        body,
        mu,
    } = front;
    let Market {
        prices,
        trades,
        dropped,
    } = market;
    let Outcome {
        potentials,
        rounding,
        after,
    } = outcome;
    Ok(Header {
        version,
        height,
        parent,
        body,
        mu,
        prices,
        trades,
        dropped,
        potentials,
        rounding: Balances::of(rounding),
        after,
    })
}
