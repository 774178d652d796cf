//! Writing a block. What is written is the one encoding, and where memory runs out it is taken back.

ghost use Rattle.std.specs.Prelude.{◌≡◌, ◌≤◌, ◌++◌, length, drop, is_some, if◌then◌else◌, OnOk, OnErr};
ghost use Rattle.sx_block.specs.Block.{IsBlock};
ghost use Rattle.sx_block.specs.Encoding.{header_bytes, block_bytes};
ghost use Rattle.sx_bytes.specs.Written.{Begins};
ghost use Rattle.sx_tx.specs.Transactions.{list_bytes};

use crate::header::{Block, Header};
use crate::header_writing::put_header;
use crate::trade::trade_count;
use sx_bytes::{NoMemory, Writer};
use sx_dual::Cut;
use sx_tx::write_candidates;

// How many bytes a header has beside its assets, its trades and its cut.
const FRAME_BYTES: usize = 110;

// How many bytes an asset takes: a price, a potential and a rounding.
const ASSET_BYTES: usize = 20;

const TRADE_BYTES: usize = 18;

const CUT_BYTES: usize = 4;

#[tactic(auto, using(sx_bytes::proofs::Written::begins, sx_bytes::proofs::Written::begins_then))]
fn put_block(to: &mut Writer, block: &Block) -> Result<(), NoMemory>
    requires { IsBlock block.now }
    ensures ok { OnOk result (to.new ≡ to.old ++ block_bytes block.now) }
    ensures err { OnErr result (Begins to.old to.new) }
{
    put_header(to, &block.header)?;
    write_candidates(to, block.txs.items())
}

/// Appends the payload of the block, which is its one encoding. Where memory runs out, what was
/// written before does not change.
#[tactic(auto, using(sx_bytes::proofs::Written::begins_cut))]
pub fn write_block(to: &mut Writer, block: &Block) -> Result<(), NoMemory>
    requires { IsBlock block.now }
    ensures ok { OnOk result (to.new ≡ to.old ++ block_bytes block.now) }
    ensures err { OnErr result (to.new ≡ to.old) }
{
    let before = to.bytes().len();
    let written = put_block(to, block);
    if written.is_err() {
        to.cut(before);
    }
    written
}

/// Appends the header of a block, which is what its payload has before its transactions. Where memory runs out, what was
/// written before does not change.
#[tactic(auto, using(sx_bytes::proofs::Written::begins_cut))]
pub fn write_header(to: &mut Writer, header: &Header) -> Result<(), NoMemory>
    requires { length header.now.prices ≤ 32 }
    ensures ok { OnOk result (to.new ≡ to.old ++ header_bytes header.now) }
    ensures err { OnErr result (to.new ≡ to.old) }
{
    let before = to.bytes().len();
    let written = put_header(to, header);
    if written.is_err() {
        to.cut(before);
    }
    written
}

// How many bytes a cut takes beside the flag.
fn cut_bytes(dropped: Option<Cut>) -> usize
    ensures { result ≡ (if is_some dropped then 4 else 0) }
{
    if dropped.is_some() { CUT_BYTES } else { 0 }
}

/// How many bytes of the block's payload stand before its transactions. It takes no memory.
pub fn header_length(block: &Block) -> usize
    requires { IsBlock block.now }
    ensures exact { result ≡ length (header_bytes block.now.header) }
    ensures within { result ≤ length (block_bytes block.now) }
    // The transactions are encoded from there on.
    ensures transactions { drop result (block_bytes block.now) ≡ list_bytes block.now.txs }
{
    let header = &block.header;
    let assets = header.prices.items().len();
    let trades = trade_count(assets, header.trades.values());
    FRAME_BYTES + ASSET_BYTES * assets + TRADE_BYTES * trades + cut_bytes(header.dropped)
}
