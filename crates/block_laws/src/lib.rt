//! A block of a chart has one ring: a law over the definitions alone. The function's contract is the law, and it does
//! nothing.
#![tactic(auto)]

ghost use Rattle.block_laws.specs.OneRing.{BlocksHaveOneRing};

use mesh_lines_laws::mesh_lines;

/// Where rectangles part the cells of a field into blocks, rings that have the directed boundary of a block's pieces as
/// their segments, each once, are one ring alone, and it is exterior.
pub fn blocks_have_one_ring()
    ensures one { BlocksHaveOneRing }
{
    mesh_lines();
}
