// Laws of modifications.
ghost use Rattle.record_edits.specs.Law.{KeepsIsolated, KeepsConnected, KeepsEdge, KeepsFeature};

/// A modified record keeps its number, has the version that it is given, and is one that a chart may have: an isolated node
/// has something, a feature points at what its PRIM is made of and has texts where it had some and is given some. This call
/// does nothing: its clauses are laws of the definitions.
pub fn edit_laws()
    ensures isolated { KeepsIsolated }
    ensures connected { KeepsConnected }
    ensures edge { KeepsEdge }
    ensures feature { KeepsFeature }
{}
