// Points by number and lines between them, added to a net.
ghost use Rattle.std.specs.Prelude.{◌^◌, ◌<◌, ◌∷◌, [], length, IfOk, OnOk};
ghost use Rattle.boundary_arcs.specs.Collecting.{Adds, HasRoom, IsNumbered};

use crate::net::{Drawn, Net};
use chains::Line;
use indexmap::IndexSet;
use plane_geom::Point;
use std::alloc::AllocError;

// The number of a point, a new one where it has none.
fn number(points: &mut IndexSet<Point>, point: Point) -> Result<u32, AllocError>
    requires { length points.old.keys < 2 ^ 32 }
    ensures { IfOk result (IsNumbered points.old.keys points.new.keys point) }
{
    let (index, _) = points.insert_full(point)?;
    Ok(index as u32)
}

// Adds a line for a drawn sub-segment.
pub(crate) fn add(net: &mut Net, drawn: Drawn) -> Result<(), AllocError>
    requires { HasRoom 1 net.old }
    ensures { OnOk result (Adds 1 net.old net.new (drawn ∷ [])) }
{
    let begin = number(&mut net.points, drawn.seg.a)?;
    let end = number(&mut net.points, drawn.seg.b)?;
    net.lines.push(Line {
        begin,
        end,
        left: drawn.left,
        right: drawn.right,
    })?;
    Ok(())
}
