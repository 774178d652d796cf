//! The trades of a block, as they are written: those pairs of a flow that trade.

ghost use Rattle.std.specs.Prelude.{◌≡◌, ◌*◌, ◌≤◌, All, IfOk, length};
ghost use Rattle.sx_block.specs.Trades.{IsTrade, entries_from, trades_from};

use std::alloc::Global;
use sx_base::AssetId;
use sx_bytes::NoMemory;

/// A value that is traded, in units of `2^-24`, of the asset that is sold for the one that is bought.
#[derive(Clone, Copy, Debug, PartialEq, Eq)]
pub struct Trade {
    pub sell: AssetId,
    pub buy: AssetId,
    pub value: u128,
}

// The entries of the flow among this many assets that has these trades.
pub fn entries_of(alloc: Global, assets: u8, trades: &[Trade]) -> Result<Vec<u128>, NoMemory>
    requires few { assets ≤ 32 }
    requires trades { All (IsTrade assets) trades.now }
    ensures { IfOk result (λ v. v.items ≡ entries_from assets trades.now 0 (assets * assets)) }
{
    let n = usize::from(assets);
    let mut entries = vec![in alloc; 0u128; n * n]?;
    // From the last trade to the first: no two are of one pair.
    let mut left = trades.len();
    while left > 0 {
        left -= 1;
        let trade = trades[left];
        let place = usize::from(trade.sell.get()) * n + usize::from(trade.buy.get());
        entries[place] = trade.value;
    }
    Ok(entries)
}

// How many pairs trade.
pub fn trade_count(assets: usize, entries: &[u128]) -> usize
    ensures { result ≡ length (trades_from assets 0 entries.now) }
{
    let mut count = 0;
    for value in entries {
        if *value != 0 {
            count += 1;
        }
    }
    count
}
