//! The law on which every format stands.

ghost use Rattle.sx_bytes.specs.Field.{EncodingInvertsDecoding, DecodingInvertsEncoding};

/// Encoding a field inverts decoding it, and decoding inverts encoding, for every width.
pub fn field_laws()
    ensures encoding { EncodingInvertsDecoding }
    ensures decoding { DecodingInvertsEncoding }
{}
