// The laws of whole charts and of their tallies, as contracts of functions.
ghost use Rattle.chart_model.specs.Law.{TallyLaws, WholeLaws};

/// Parts are whole exactly where they keep the conditions and no cause of refusal is due. This call does nothing: its clause
/// is a law of the definitions.
pub fn whole_laws()
    ensures { WholeLaws }
{}

/// The sums of a tally are the lengths of the lists of what is counted, and no other tally says these lengths. This call
/// does nothing: its clause is a law of the definitions.
pub fn tally_laws()
    ensures { TallyLaws }
{}
