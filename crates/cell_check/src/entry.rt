// The lines of a strip with what has their gaps inside, and when two neighbours fit.
ghost use Rattle.cell_check.specs.Joints.{in_order_above, in_order_below, AreJoined, IsAhead, IsJoint, IsLinked};
ghost use Rattle.std.specs.Prelude.{◌≡◌, IsTrue};

use crate::holders::{Counts, Holders};
use crate::line::Line;
use crate::order::{are_on_one_line, from_below};
use plane_geom::{Seg, cross};
use plane_strips::sweeps_of_strips;

/// A line of a row, and what has the gap west of it inside.
#[derive(Clone, Copy)]
pub(crate) struct Entry {
    pub line: Line,
    pub west: Holders,
}

fn is_in_order_below(s: Seg, t: Seg) -> bool
    ensures { result ≡ in_order_below s t }
{
    if s.a.y <= t.a.y {
        cross(s.a, s.b, t.a) <= 0
    } else {
        0 <= cross(t.a, t.b, s.a)
    }
}

fn is_in_order_above(s: Seg, t: Seg) -> bool
    ensures { result ≡ in_order_above s t }
{
    if t.b.y <= s.b.y {
        cross(s.a, s.b, t.b) <= 0
    } else {
        0 <= cross(t.a, t.b, s.b)
    }
}

/// Whether s lies nowhere east of t at the heights that both reach.
pub(crate) fn lies_ahead(s: Seg, t: Seg) -> bool
    ensures { IsTrue result → IsAhead s t }
{
    sweeps_of_strips();
    let s = from_below(s);
    let t = from_below(t);
    is_in_order_below(s, t) && is_in_order_above(s, t)
}

/// Whether the gap west of a line has inside what follows from the gap east of it.
fn is_linked(entry: Entry, east: Holders, count: Counts) -> bool
    ensures { IsTrue result → IsLinked count entry east }
{
    match east.turned(entry.line.owner, count) {
        Some(west) => west == entry.west,
        None => false,
    }
}

/// Whether two neighbours are in order, what has the gaps inside fits, and the gap between them is right.
fn are_joined(west: Entry, east: Entry, count: Counts) -> bool
    ensures { IsTrue result → AreJoined count west east }
{
    if !lies_ahead(west.line.seg, east.line.seg) || !is_linked(west, east.west, count) {
        return false;
    }
    are_on_one_line(west.line.seg, east.line.seg) || east.west.are_right(count)
}

/// The same where a neighbour may be missing, at an end of the row.
pub(crate) fn is_joint(west: Option<Entry>, east: Option<Entry>, count: Counts) -> bool
    ensures { IsTrue result → IsJoint count west east }
{
    match west {
        Some(first) => match east {
            Some(second) => are_joined(first, second, count),
            None => is_linked(first, Holders::none(), count),
        },
        None => match east {
            Some(second) => second.west.are_right(count),
            None => true,
        },
    }
}
