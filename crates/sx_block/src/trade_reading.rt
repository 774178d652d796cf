//! Reading the trades of a block, and the cut.

ghost use Rattle.std.specs.Prelude.{◌≡◌, ◌≢◌, ◌<◌, ◌≤◌, All, IfOk, None, List};
ghost use Rattle.sx_block.specs.Decoding.{trade_at, trades_at, flow_at, set_at, cut_at};
ghost use Rattle.sx_block.specs.Trades.{IsTrade, trade_before};
ghost use Rattle.sx_bytes.specs.declared.fault.ReadError.TheVariants as read_error;
ghost use Rattle.sx_bytes.specs.Grammar.{DecodesOrStrays, MayDecodeOrStray, may_follow};
ghost use Rattle.sx_state.specs.Decoding.{sell_at, buy_at};

use crate::trade::{Trade, entries_of};
use std::alloc::Global;
use sx_base::AssetId;
use sx_bytes::{Form, FormFault, ReadError, Reader};
use sx_dual::{Cut, Flow};

// The greatest value of a trade, in units of 2^-24.
const MOST_VALUE: u128 = 1 << 102;

// How many bytes a trade takes.
const TRADE_BYTES: usize = 18;

// The fault of what begins at this place.
pub fn fault_at(at: usize, fault: Form) -> ReadError
    ensures { result ≡ read_error.Form (record { at = at; fault = fault }) }
{
    ReadError::Form(FormFault {
        at: at as u64,
        fault,
    })
}

// What is sold, one of this many assets.
#[inline]
fn read_sell(from: &mut Reader, assets: u8) -> Result<AssetId, FormFault>
    requires some { 1 ≤ assets }
    requires few { assets ≤ 32 }
    ensures exact { DecodesOrStrays (λ x. x) (sell_at assets from.old) from.new result }
    ensures in_range { IfOk result (λ x. x < assets) }
{
    let number = from.field_u8(0, assets - 1, Form::AssetRange)?;
    Ok(AssetId::new(number).unwrap())
}

// What is bought, another one.
#[inline]
fn read_buy(from: &mut Reader, assets: u8, sell: AssetId) -> Result<AssetId, FormFault>
    requires some { 1 ≤ assets }
    requires few { assets ≤ 32 }
    ensures exact { DecodesOrStrays (λ x. x) (buy_at assets sell from.old) from.new result }
    ensures in_range { IfOk result (λ x. x < assets) }
    ensures differ { IfOk result (λ x. x ≢ sell) }
{
    let at = from.place() as u64;
    let number = from.field_u8(0, assets - 1, Form::AssetRange)?;
    if number == sell.get() {
        let fault = Form::AssetRange;
        return Err(FormFault { at, fault });
    }
    Ok(AssetId::new(number).unwrap())
}

#[inline]
#[tactic(auto, unfolding(crate::specs::Decoding::trade_at))]
fn read_trade(from: &mut Reader, assets: u8) -> Result<Trade, FormFault>
    requires some { 1 ≤ assets }
    requires few { assets ≤ 32 }
    ensures exact { DecodesOrStrays (λ x. x) (trade_at assets from.old) from.new result }
    ensures trade { IfOk result (IsTrade assets) }
{
    let sell = read_sell(from, assets)?;
    let buy = read_buy(from, assets, sell)?;
    let value = from.field_u128(1, MOST_VALUE, Form::ValueRange)?;
    Ok(Trade { sell, buy, value })
}

// Whether a trade may follow the one before it.
fn follows(before: Option<Trade>, next: &Trade) -> bool
    ensures { result ≡ may_follow trade_before before next.now }
{
    match before {
        None => true,
        Some(before) => {
            before.sell.get() < next.sell.get()
                || (before.sell.get() == next.sell.get() && before.buy.get() < next.buy.get())
        }
    }
}

// Memory grows with what the bytes left can hold, and not with what the count claims.
fn read_trades(
    alloc: Global,
    from: &mut Reader,
    assets: u8,
    count: u16,
) -> Result<Vec<Trade>, ReadError>
    requires some { 1 ≤ assets }
    requires few { assets ≤ 32 }
    ensures exact { MayDecodeOrStray (λ v. v.items) (trades_at assets count from.old) from.new result }
    ensures trades { IfOk result (λ v. All (IsTrade assets) v.items) }
{
    let room = from.left() / TRADE_BYTES;
    let mut trades = Vec::with_capacity(alloc, room.min(usize::from(count)))?;
    let mut before = None;
    for _ in 0..count {
        let at = from.place();
        let next = read_trade(from, assets)?;
        if !follows(before, &next) {
            return Err(fault_at(at, Form::TradeOrder));
        }
        trades.push(next)?;
        before = Some(next);
    }
    Ok(trades)
}

// The flow that the trades at the place make.
#[tactic(auto, unfolding(crate::specs::Decoding::flow_at))]
pub fn read_flow(alloc: Global, from: &mut Reader, assets: u8) -> Result<Flow, ReadError>
    requires some { 1 ≤ assets }
    requires few { assets ≤ 32 }
    ensures { MayDecodeOrStray (λ x. x) (flow_at assets from.old) from.new result }
{
    let pairs = u16::from(assets) * (u16::from(assets) - 1);
    let count = from.field_u16(0, pairs, Form::TooMany)?;
    let trades = read_trades(alloc, from, assets, count)?;
    let entries = entries_of(alloc, assets, &trades)?;
    Ok(Flow::of(u32::from(assets), entries))
}

// A set of some of the assets.
fn read_set(from: &mut Reader, assets: u8) -> Result<Option<Cut>, FormFault>
    requires some { 1 ≤ assets }
    requires few { assets ≤ 32 }
    ensures { DecodesOrStrays (λ x. x) (set_at assets from.old) from.new result }
{
    let all = ((1u64 << assets) - 1) as u32;
    let set = from.field_u32(0, all, Form::CutRange)?;
    Ok(Some(Cut(set)))
}

// The cut, where the flag at the place says that lower bounds were dropped.
#[tactic(auto, unfolding(crate::specs::Decoding::cut_at))]
pub fn read_cut(from: &mut Reader, assets: u8) -> Result<Option<Cut>, FormFault>
    requires some { 1 ≤ assets }
    requires few { assets ≤ 32 }
    ensures { DecodesOrStrays (λ x. x) (cut_at assets from.old) from.new result }
{
    if from.field_u8(0, 1, Form::Tag)? == 0 {
        return Ok(None);
    }
    read_set(from, assets)
}
