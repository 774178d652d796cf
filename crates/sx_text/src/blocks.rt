//! The text of a block.

ghost use Rattle.std.specs.Prelude.{◌≡◌, ◌*◌, ◌++◌, ◌≤◌, OnOk, length, string_bytes};
ghost use Rattle.std.specs.List.{flat_map};
ghost use Rattle.sx_block.specs.Block.{IsBlock, IsHeader};
ghost use Rattle.sx_block.specs.Trades.{trades_from, trades_of};
ghost use Rattle.sx_text.specs.Blocks.{block_line, block_text, dropped_line, front_text, header_text, market_line, trade_line};
ghost use Rattle.sx_text.specs.Pieces.{indexed};

use crate::fields::put_cut;
use crate::hands::Hands;
use crate::lines::{put_digest, put_word};
use crate::transactions::put_transactions;
use sx_block::{Block, Header};
use sx_bytes::NoMemory;
use sx_dual::{Cut, Flow};
use sx_price::Price;

fn put_block_line(to: &mut String, header: &Header) -> Result<(), NoMemory>
    ensures { OnOk result (string_bytes to.new ≡ string_bytes to.old ++ block_line header.now) }
{
    let version = header.version;
    let height = header.height;
    let mu = header.mu.get();
    let assets = header.prices.items().len();
    write!(
        to,
        "block version {version} height {height} mu {mu} assets {assets}\n"
    )?;
    Ok(())
}

// The block's own line, and the digests of what it stands on.
fn put_front(to: &mut String, header: &Header) -> Result<(), NoMemory>
    ensures { OnOk result (string_bytes to.new ≡ string_bytes to.old ++ front_text header.now) }
{
    put_block_line(to, header)?;
    put_digest(to, "parent", &header.parent)?;
    put_digest(to, "body", &header.body)
}

// The price and the potential of each asset, and what rounding keeps of it.
fn put_assets(
    to: &mut String,
    prices: &[Price],
    potentials: &[u32],
    rounding: &[u64],
) -> Result<(), NoMemory>
    requires potentials { length prices.now ≤ length potentials.now }
    requires rounding { length prices.now ≤ length rounding.now }
    ensures { OnOk result (string_bytes to.new ≡ string_bytes to.old
        ++ indexed (market_line potentials.now rounding.now) prices.now) }
{
    for asset in 0..prices.len() {
        let price = prices[asset].get();
        let potential = potentials[asset];
        let kept = rounding[asset];
        write!(
            to,
            "asset {asset} price {price} potential {potential} rounding {kept}\n"
        )?;
    }
    Ok(())
}

fn put_trade(to: &mut String, sell: usize, buy: usize, value: u128) -> Result<(), NoMemory>
    ensures { OnOk result (string_bytes to.new ≡ string_bytes to.old
        ++ trade_line (record { sell = sell; buy = buy; value = value })) }
{
    write!(to, "trade {sell} {buy} {value}\n")?;
    Ok(())
}

// The pairs that trade among this many assets.
fn put_trades(to: &mut String, assets: usize, entries: &[u128]) -> Result<(), NoMemory>
    requires { 1 ≤ assets }
    ensures { OnOk result (string_bytes to.new ≡ string_bytes to.old
        ++ flat_map trade_line (trades_from assets 0 entries.now)) }
{
    for place in 0..entries.len() {
        let value = entries[place];
        if value != 0 {
            put_trade(to, place / assets, place % assets, value)?;
        }
    }
    Ok(())
}

fn put_flow(to: &mut String, flow: &Flow) -> Result<(), NoMemory>
    ensures { OnOk result (string_bytes to.new ≡ string_bytes to.old ++ flat_map trade_line (trades_of flow.now)) }
{
    put_trades(to, flow.assets() as usize, flow.values())
}

fn put_dropped(to: &mut String, dropped: Option<Cut>) -> Result<(), NoMemory>
    ensures { OnOk result (string_bytes to.new ≡ string_bytes to.old ++ dropped_line dropped) }
{
    let Some(cut) = dropped else {
        return put_word(to, "dropped none\n");
    };
    put_word(to, "dropped ")?;
    put_cut(to, cut)?;
    put_word(to, "\n")
}

fn put_header(to: &mut String, header: &Header) -> Result<(), NoMemory>
    requires { IsHeader header.now }
    ensures { OnOk result (string_bytes to.new ≡ string_bytes to.old ++ header_text header.now) }
{
    put_front(to, header)?;
    let potentials = header.potentials.items();
    put_assets(
        to,
        header.prices.items(),
        potentials,
        header.rounding.items(),
    )?;
    put_flow(to, &header.trades)?;
    put_dropped(to, header.dropped)?;
    put_digest(to, "after", &header.after)
}

/// Appends the text of a block that has the form of one.
pub fn put_block<H: Hands>(hands: &H, to: &mut String, block: &Block) -> Result<(), NoMemory>
    requires ready { H.is_ready }
    requires form { IsBlock block.now }
    ensures { OnOk result (string_bytes to.new ≡ string_bytes to.old ++ block_text block.now) }
{
    put_header(to, &block.header)?;
    put_transactions(hands, to, "transactions", block.txs.items())
}
