//! Laws of a block's encoding.

ghost use Rattle.sx_block.specs.Block.{IsBlock};
ghost use Rattle.sx_block.specs.Decoding.{block_at};
ghost use Rattle.sx_block.specs.Encoding.{block_bytes};
ghost use Rattle.sx_block.specs.Laws.{EveryBlockFits, HasMostBytes, SomeHasMostBytes};
ghost use Rattle.sx_bytes.specs.FaultPlaces.{PayloadFaultsWithin};
ghost use Rattle.sx_bytes.specs.Laws.{IsInjective, IsPrefixFree};

/// Two blocks of one encoding are the same, bytes begin with the encoding of one block at most, and the
/// longest encoding has 35,018,614 bytes, which fit the payload of a record. Where a payload is none, the
/// first fault is at or before its end.
pub fn block_laws()
    ensures one { IsInjective block_bytes IsBlock }
    ensures first { IsPrefixFree block_bytes IsBlock }
    ensures most { HasMostBytes }
    ensures some { SomeHasMostBytes }
    ensures fits { EveryBlockFits }
    ensures within { PayloadFaultsWithin block_at }
{}
