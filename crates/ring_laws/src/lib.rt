//! How often rings go round: how a winding number changes across a segment, and that a joined face has at most one exterior
//! ring, over any mesh that is plane. That the mesh of a field is plane in this sense isn't shown yet, so nothing stands on
//! these laws. Each function's contract is a law, and it does nothing.
#![tactic(auto)]

ghost use Rattle.ring_laws.specs.Crossing.{ChangesByCrossings};
ghost use Rattle.ring_laws.specs.OneRing.{OneIsExterior};

/// The winding number of a closed list of segments changes by 1 where a path of two legs crosses a segment of it at its
/// middle, and by nothing where all segments lie apart from the path.
pub fn crossing_laws()
    ensures crossings { ChangesByCrossings }
{}

/// Of a joined face two rings that have no segment in common aren't both exterior, where the mesh is plane and each ring goes
/// round each piece so often as its steps say.
pub fn one_exterior()
    ensures one { OneIsExterior }
{}
