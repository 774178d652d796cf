//! The header of a block against the ledger and the transactions: reasons 1 to 5.

ghost use Rattle.std.specs.Prelude.{◌≡◌, IfErr, OnOk};
ghost use Rattle.sha2.specs.Sha256.{sha256};
ghost use Rattle.sx_block.specs.Block.{IsBlock};
ghost use Rattle.sx_block.specs.Rule as rule;
ghost use Rattle.sx_block.specs.Validity.{HoldsBefore, HoldsButParent, digest_of_ledger};
ghost use Rattle.sx_block.specs.Checked.{IsWrongParent};
ghost use Rattle.sx_block.specs.Refusals.{RefusesButParent, RefusesEarly};
ghost use Rattle.sx_ledger.specs.Ledger.{IsLedger};
ghost use Rattle.sx_tx.specs.Transactions.{list_bytes};

use sx_block::{Block, Digest, Header, Invalid};
use sx_ledger::Ledger;

// The block has the next height. The reasons here come before the one on the digest of the ledger.
#[tactic(auto, using(sx_block::proofs::Steps::ended, sx_block::proofs::Steps::wrong_height, sx_block::proofs::Steps::ended_but, sx_block::proofs::Steps::wrong_height_but, sx_block::proofs::Steps::height_holds))]
pub fn check_height(ledger: &Ledger, block: &Block) -> Result<(), Invalid>
    ensures next { OnOk result (HoldsBefore rule.Parent ledger.now block.now) }
    ensures refused { IfErr result (RefusesEarly ledger.now block.now) }
    ensures whatever_parent { IfErr result (RefusesButParent ledger.now block.now) }
{
    let have = ledger.height();
    let said = block.header.height;
    if have == Ledger::MOST_HEIGHT {
        return Err(Invalid::Ended);
    }
    if said != have + 1 {
        return Err(Invalid::WrongHeight { have, said });
    }
    Ok(())
}

/// Whether the block follows the ledger that its header says: Ok exactly where `parent`, the digest of the ledger, is
/// the one of the header, and else `WrongParent` with both.
pub fn named(header: &Header, parent: &Digest) -> Result<(), Invalid>
    ensures same { OnOk result (header.now.parent ≡ parent.now) }
    ensures differ { IfErr result (IsWrongParent header.now parent.now) }
{
    let said = header.parent;
    let real = *parent;
    if said != real {
        return Err(Invalid::WrongParent { said, real });
    }
    Ok(())
}

// And it names the ledger, whose digest is `parent`.
#[tactic(auto, using(sx_block::proofs::Steps::wrong_parent, sx_block::proofs::Steps::parent_holds))]
pub fn check_parent(ledger: &Ledger, block: &Block, parent: &Digest) -> Result<(), Invalid>
    requires parent { parent.now ≡ digest_of_ledger ledger.now }
    ensures named { OnOk result (HoldsBefore rule.Body ledger.now block.now) }
    ensures refused { IfErr result (RefusesEarly ledger.now block.now) }
{
    check_height(ledger, block)?;
    named(&block.header, parent)
}

// The block of the next height names its transactions, whose digest is `body`.
#[tactic(auto, using(sx_block::proofs::Steps::wrong_body, sx_block::proofs::Steps::body_holds))]
fn check_commitment(ledger: &Ledger, block: &Block, body: &Digest) -> Result<(), Invalid>
    requires height { HoldsButParent rule.Body ledger.now block.now }
    requires body { body.now ≡ sha256 (list_bytes block.now.txs) }
    ensures named { OnOk result (HoldsButParent rule.Assets ledger.now block.now) }
    ensures refused { IfErr result (RefusesButParent ledger.now block.now) }
{
    let said = block.header.body;
    let real = *body;
    if said != real {
        return Err(Invalid::WrongBody { said, real });
    }
    Ok(())
}

// The header of a block of the next height is one for the ledger, whatever ledger it names: the transactions have the
// digest that it says, and it speaks of as many assets.
#[tactic(auto, using(sx_block::proofs::Steps::wrong_assets, sx_block::proofs::Steps::assets_hold))]
pub fn check_header(ledger: &Ledger, block: &Block, body: &Digest) -> Result<(), Invalid>
    requires form { IsBlock block.now }
    requires height { HoldsButParent rule.Body ledger.now block.now }
    requires body { body.now ≡ sha256 (list_bytes block.now.txs) }
    ensures kept { OnOk result (IsLedger ledger.now) }
    ensures for_ledger { OnOk result (HoldsButParent rule.Passes ledger.now block.now) }
    ensures refused { IfErr result (RefusesButParent ledger.now block.now) }
{
    check_commitment(ledger, block, body)?;
    let have = ledger.assets();
    let said = block.header.prices.items().len() as u32;
    if said != have {
        return Err(Invalid::WrongAssets { have, said });
    }
    Ok(())
}
