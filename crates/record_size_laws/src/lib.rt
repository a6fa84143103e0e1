//! The sizes of a chart's records: how much a small rectangle of cells asks for, how long the borders of faces and blocks
//! are where blocks are by need, and that each record of made parts fits. Laws over the definitions alone: each function's
//! contract is a law, and it does nothing.
#![tactic(auto)]

ghost use Rattle.record_size_laws.specs.ByNeed.{FacesAreShort, OutlinesAreShort};
ghost use Rattle.record_size_laws.specs.Records.{MadePartsFit};
ghost use Rattle.record_size_laws.specs.SmallRectangles.{SmallRectangles};

/// With at most 20 levels, a rectangle of at most 16 by 16 cells asks for at most 12,000: neither its outline nor the
/// boundary of one of its faces has more steps.
pub fn small_rectangles_ask_little()
    ensures short { SmallRectangles }
{}

/// Where blocks are by need, and every rectangle of at most 16 by 16 cells asks for at most 12,000 steps, each face of
/// the whole mesh has a boundary of at most 12,000 steps, and so has the outline of each block.
pub fn blocks_by_need_have_short_borders()
    ensures faces { FacesAreShort }
    ensures outlines { OutlinesAreShort }
{}

/// Where no face and no block has a border of more than 12,000 sub-segments, each record of a chart has at most 99,999
/// bytes.
pub fn records_of_made_parts_fit()
    ensures fit { MadePartsFit }
{}
