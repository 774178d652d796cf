//! Writing the header of a block.

ghost use Rattle.std.specs.Prelude.{◌≡◌, ◌*◌, ◌≤◌, ◌++◌, length, OnOk, OnErr};
ghost use Rattle.std.specs.List.{flat_map};
ghost use Rattle.byteorder.specs.Endian.{big_bytes};
ghost use Rattle.sx_block.specs.Encoding.{trade_bytes, flow_bytes, cut_bytes, front_bytes, market_bytes, outcome_bytes, header_bytes};
ghost use Rattle.sx_block.specs.Trades.{trades_from};
ghost use Rattle.sx_bytes.specs.Written.{Begins};

use crate::header::Header;
use crate::trade::trade_count;
use sx_bytes::{NoMemory, Writer};
use sx_dual::{Cut, Flow};
use sx_price::Price;

#[tactic(auto, using(sx_bytes::proofs::Written::begins, sx_bytes::proofs::Written::begins_then))]
fn put_prices(to: &mut Writer, prices: &[Price]) -> Result<(), NoMemory>
    ensures ok { OnOk result (to.new ≡ to.old ++ flat_map (big_bytes 8) prices.now) }
    ensures err { OnErr result (Begins to.old to.new) }
{
    for price in prices {
        to.put_u64(price.get())?;
    }
    Ok(())
}

#[tactic(auto, using(sx_bytes::proofs::Written::begins, sx_bytes::proofs::Written::begins_then))]
fn put_potentials(to: &mut Writer, potentials: &[u32]) -> Result<(), NoMemory>
    ensures ok { OnOk result (to.new ≡ to.old ++ flat_map (big_bytes 4) potentials.now) }
    ensures err { OnErr result (Begins to.old to.new) }
{
    for potential in potentials {
        to.put_u32(*potential)?;
    }
    Ok(())
}

#[tactic(auto, using(sx_bytes::proofs::Written::begins, sx_bytes::proofs::Written::begins_then))]
fn put_rounding(to: &mut Writer, rounding: &[u64]) -> Result<(), NoMemory>
    ensures ok { OnOk result (to.new ≡ to.old ++ flat_map (big_bytes 8) rounding.now) }
    ensures err { OnErr result (Begins to.old to.new) }
{
    for units in rounding {
        to.put_u64(*units)?;
    }
    Ok(())
}

#[tactic(auto, using(sx_bytes::proofs::Written::begins, sx_bytes::proofs::Written::begins_then))]
fn put_trade(to: &mut Writer, sell: u8, buy: u8, value: u128) -> Result<(), NoMemory>
    ensures ok { OnOk result (to.new ≡ to.old ++ trade_bytes (record { sell = sell; buy = buy; value = value })) }
    ensures err { OnErr result (Begins to.old to.new) }
{
    to.put_u8(sell)?;
    to.put_u8(buy)?;
    to.put_u128(value)
}

// The pairs that trade among this many assets.
#[tactic(auto, using(sx_bytes::proofs::Written::begins, sx_bytes::proofs::Written::begins_then))]
fn put_trades(to: &mut Writer, assets: usize, entries: &[u128]) -> Result<(), NoMemory>
    requires some { 1 ≤ assets }
    requires few { assets ≤ 32 }
    requires whole { length entries.now ≡ assets * assets }
    ensures ok { OnOk result (to.new ≡ to.old ++ flat_map trade_bytes (trades_from assets 0 entries.now)) }
    ensures err { OnErr result (Begins to.old to.new) }
{
    for place in 0..entries.len() {
        let value = entries[place];
        if value != 0 {
            put_trade(to, (place / assets) as u8, (place % assets) as u8, value)?;
        }
    }
    Ok(())
}

#[tactic(auto, using(sx_bytes::proofs::Written::begins, sx_bytes::proofs::Written::begins_then))]
fn put_flow(to: &mut Writer, flow: &Flow) -> Result<(), NoMemory>
    ensures ok { OnOk result (to.new ≡ to.old ++ flow_bytes flow.now) }
    ensures err { OnErr result (Begins to.old to.new) }
{
    let assets = flow.assets() as usize;
    to.put_u16(trade_count(assets, flow.values()) as u16)?;
    put_trades(to, assets, flow.values())
}

#[tactic(auto, using(sx_bytes::proofs::Written::begins, sx_bytes::proofs::Written::begins_then))]
fn put_cut(to: &mut Writer, dropped: Option<Cut>) -> Result<(), NoMemory>
    ensures ok { OnOk result (to.new ≡ to.old ++ cut_bytes dropped) }
    ensures err { OnErr result (Begins to.old to.new) }
{
    match dropped {
        None => to.put_u8(0),
        Some(cut) => {
            to.put_u8(1)?;
            to.put_u32(cut.0)
        }
    }
}

#[tactic(auto, using(sx_bytes::proofs::Written::begins, sx_bytes::proofs::Written::begins_then))]
fn put_front(to: &mut Writer, header: &Header) -> Result<(), NoMemory>
    ensures ok { OnOk result (to.new ≡ to.old ++ front_bytes header.now) }
    ensures err { OnErr result (Begins to.old to.new) }
{
    to.put_u8(header.version)?;
    to.put_u64(header.height)?;
    to.raw(header.parent.bytes())?;
    to.raw(header.body.bytes())?;
    to.put_u8(header.mu.get())
}

#[tactic(auto, using(sx_bytes::proofs::Written::begins, sx_bytes::proofs::Written::begins_then))]
fn put_market(to: &mut Writer, header: &Header) -> Result<(), NoMemory>
    ensures ok { OnOk result (to.new ≡ to.old ++ market_bytes header.now) }
    ensures err { OnErr result (Begins to.old to.new) }
{
    put_prices(to, header.prices.items())?;
    put_flow(to, &header.trades)?;
    put_cut(to, header.dropped)
}

#[tactic(auto, using(sx_bytes::proofs::Written::begins, sx_bytes::proofs::Written::begins_then))]
fn put_outcome(to: &mut Writer, header: &Header) -> Result<(), NoMemory>
    ensures ok { OnOk result (to.new ≡ to.old ++ outcome_bytes header.now) }
    ensures err { OnErr result (Begins to.old to.new) }
{
    put_potentials(to, header.potentials.items())?;
    put_rounding(to, header.rounding.items())?;
    to.raw(header.after.bytes())
}

/// Appends the encoding of the header.
#[tactic(auto, using(sx_bytes::proofs::Written::begins, sx_bytes::proofs::Written::begins_then))]
pub fn put_header(to: &mut Writer, header: &Header) -> Result<(), NoMemory>
    requires { length header.now.prices ≤ 32 }
    ensures ok { OnOk result (to.new ≡ to.old ++ header_bytes header.now) }
    ensures err { OnErr result (Begins to.old to.new) }
{
    put_front(to, header)?;
    to.put_u8(header.prices.items().len() as u8)?;
    put_market(to, header)?;
    put_outcome(to, header)
}
