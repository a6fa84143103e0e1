// Laws of chords. The contract is a law over the definitions alone, and the function does nothing.
ghost use Rattle.tri_mesh.specs.Sides.{DeepOnRight};

use plane_laws::{chord_sides, line_sides, triangle_pieces};

/// A chord has the deeper corners of its triangle strictly on its right, and the others strictly on its left.
pub fn chord_laws()
    ensures { DeepOnRight }
{
    line_sides();
    chord_sides();
    triangle_pieces();
}
