// How deep a grid is.
ghost use Rattle.built_parts.specs.Order.{AreEnds};
ghost use Rattle.shoal_buffer.specs.Views.{charted_view};
ghost use Rattle.std.specs.Prelude.{◌≤ℤ◌, pos, neg_ℤ};

use shoal_buffer::Charted;

/// The least and the greatest charted depth of a grid in decimetres below datum, in order and within ±120,000.
#[derive(Clone, Copy)]
pub(crate) struct Extent {
    pub least: i32,
    pub greatest: i32,
    pub ghost low: { neg_ℤ (pos 120000) ≤ℤ least },
    pub ghost ordered: { least ≤ℤ greatest },
    pub ghost high: { greatest ≤ℤ pos 120000 },
}

/// The extent of a grid, from 0 to 0 where no node has data.
pub(crate) fn extent_of(ch: &Charted) -> Extent
    ensures { AreEnds (charted_view ch.now).charted result.least result.greatest }
{
    let (least, greatest) = ch.extent().unwrap_or((0, 0));
    Extent { least, greatest }
}
