//! A law of valid blocks.

ghost use Rattle.sx_apply.specs.Laws.{ValidCanApply};

/// A valid block has what [`apply_body`](crate::apply_body) and, after it, [`trade`](crate::trade) ask
/// of its transactions and of its header, whatever the ledger.
pub fn apply_laws()
    ensures valid_can_apply { ValidCanApply }
{}
