//! Laws of the encodings and of the windows, for all values.

ghost use Rattle.std.specs.Prelude.{◌≡◌};
ghost use Rattle.sx_bytes.specs.Laws.{DecodesOnlyEncodings, DecodesEveryEncoding, IsInjective, IsPrefixFree};
ghost use Rattle.sx_bytes.specs.FaultPlaces.{FaultsWithin, PayloadFaultsWithin};
ghost use Rattle.sx_tx.specs.Transactions.{most_transactions, least_tx_bytes, tx_bytes, list_bytes, IsTx, IsTxList};
ghost use Rattle.sx_tx.specs.TransactionDecoding.{tx_at, list_at, candidates_at};
ghost use Rattle.sx_tx.specs.Window.{open_numbers};
ghost use Rattle.sx_tx.specs.Laws.{KindIsLength, NoneIsShorter, EveryListFits};
ghost use Rattle.sx_tx.specs.Laws.{HighestIsLast, NoneUsedNoChange, NextUsesBoth, UsedStaysUsed, NextIsWindow};

use crate::tx::Tx;
use crate::tx_list::MOST_TRANSACTIONS;
use crate::window::Window;

/// Decoding a transaction answers a transaction only if the bytes begin with its encoding, and does
/// so for every encoding. Two transactions of one encoding are the same, no encoding is a prefix of
/// another, and the kind alone says how many bytes there are, never fewer than `Tx::LEAST_BYTES`. A
/// fault is not after the end of the bytes.
pub fn tx_laws()
    ensures decodes_only { DecodesOnlyEncodings tx_at tx_bytes IsTx }
    ensures decodes_every { DecodesEveryEncoding tx_at tx_bytes IsTx }
    ensures injective { IsInjective tx_bytes IsTx }
    ensures prefix_free { IsPrefixFree tx_bytes IsTx }
    ensures length { KindIsLength }
    ensures shortest { NoneIsShorter }
    ensures within { FaultsWithin tx_at }
    ensures least_bytes { Tx.LEAST_BYTES ≡ least_tx_bytes }
{}

/// The same of lists of at most `MOST_TRANSACTIONS` transactions, and each fits the payload of a
/// record.
pub fn list_laws()
    ensures decodes_only { DecodesOnlyEncodings list_at list_bytes IsTxList }
    ensures decodes_every { DecodesEveryEncoding list_at list_bytes IsTxList }
    ensures injective { IsInjective list_bytes IsTxList }
    ensures prefix_free { IsPrefixFree list_bytes IsTxList }
    ensures fits { EveryListFits }
    ensures within { FaultsWithin list_at }
    ensures payload_within { PayloadFaultsWithin candidates_at }
    ensures most { MOST_TRANSACTIONS ≡ most_transactions }
{}

/// In version 1 the last sequence number after a block is the greatest that was used. In version 2 a
/// number is used afterwards exactly where it was used before or in the block. In both a window of
/// which no number was used does not change, what was used stays used, and the window is again one
/// of its version. `Window::OPEN` numbers are open.
pub fn window_laws()
    ensures highest { HighestIsLast }
    ensures none { NoneUsedNoChange }
    ensures both { NextUsesBoth }
    ensures stays { UsedStaysUsed }
    ensures keeps { NextIsWindow }
    ensures open_numbers { Window.OPEN ≡ open_numbers }
{}
