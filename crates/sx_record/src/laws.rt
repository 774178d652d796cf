//! The laws of records.

ghost use Rattle.sx_record.specs.Laws.{DecodesOnlyRecords, DecodesEveryRecord, AreRecordsPrefixFree, EndsOnlyAtEnd};

/// Encoding a record inverts decoding it, decoding inverts encoding and leaves what comes after, no
/// record is a prefix of another, and no record is found only if there are no bytes.
pub fn record_laws()
    ensures encoding { DecodesOnlyRecords }
    ensures decoding { DecodesEveryRecord }
    ensures prefix { AreRecordsPrefixFree }
    ensures end { EndsOnlyAtEnd }
{}
