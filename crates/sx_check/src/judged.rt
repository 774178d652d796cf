//! What is known of a block that was judged.

use sx_apply::Effects;
use sx_block::Checked;

/// What is known of a block once it is judged, before the digest of the ledger that it leaves is compared.
#[derive(Debug, Drop)]
pub struct Judged {
    /// What the header says.
    pub checked: Checked,
    /// What the block does to the ledger, for the execution.
    pub effects: Effects,
}
