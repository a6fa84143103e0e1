// Laws over the definitions: each function's contract is a law, and it does nothing.
ghost use Rattle.exact_num.specs.Laws.{ReadsParts, FloorIsGreatest, WholeIsWorth, DecimetresDiffer, LessIsOrder};

/// A text is read as a number exactly where it is a sign, digits with a point, and a power of ten, in at most 64 bytes,
/// and the number is the one that these parts write.
pub fn reads_parts()
    ensures { ReadsParts }
{}

/// A floor is the greatest whole number that isn't above the value.
pub fn floor_is_greatest()
    ensures { FloorIsGreatest }
{}

/// A number has a whole number exactly where its value is that number.
pub fn whole_is_worth()
    ensures { WholeIsWorth }
{}

/// Two values in decimetres that have the same text are the same value.
pub fn decimetres_differ()
    ensures { DecimetresDiffer }
{}

/// Of two numbers one is below the other or both have the same value, and never two of these; and a number that is below
/// one which is below a third is below the third.
pub fn less_is_order()
    ensures { LessIsOrder }
{}
