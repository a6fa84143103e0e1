// The laws of fields, as the contract of a function.
ghost use Rattle.s57_records.specs.Law.{FieldLaws};

/// What is written is read back, and what is read was written so, whatever the format. This call does nothing: its clause
/// is a law of the definitions.
pub fn field_laws()
    ensures { FieldLaws }
{}
