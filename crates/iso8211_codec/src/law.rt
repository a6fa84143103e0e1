// The laws of records, as the contract of a function.
ghost use Rattle.iso8211_codec.specs.Law.{RecordLaws};

/// What is written can be read, and the fields that are read fill the record's field area. This call does nothing: its
/// clause is a law of the definitions.
pub fn record_laws()
    ensures { RecordLaws }
{}
