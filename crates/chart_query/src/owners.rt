// Which areas an odd number of sides belongs to.
ghost use Rattle.chart_query.specs.Owners.{Rises, toggled, toggled_by};
ghost use Rattle.std.specs.Prelude.{◌≡◌, OnOk};

use crate::sides::{Side, passes_east};
use plane_geom::Point;
use std::alloc::AllocError;

/// Takes a number out of rising numbers where it is among them, and else puts it in.
fn toggle(owners: &mut Vec<usize>, owner: usize) -> Result<(), AllocError>
    requires { Rises 0 owners.old.items }
    ensures { OnOk result (owners.new.items ≡ toggled owner owners.old.items) }
{
    match owners.binary_search(&owner) {
        Ok(at) => {
            owners.remove(at);
            Ok(())
        }
        Err(at) => {
            owners.insert(at, owner)?;
            Ok(())
        }
    }
}

/// Toggles the owner of each side that passes p's height east of p.
pub(crate) fn toggle_passing(
    sides: &[Side],
    p: Point,
    owners: &mut Vec<usize>,
) -> Result<(), AllocError>
    requires { Rises 0 owners.old.items }
    ensures rising { OnOk result (Rises 0 owners.new.items) }
    ensures toggled { OnOk result (owners.new.items ≡ toggled_by p owners.old.items sides.now) }
{
    for side in sides {
        if passes_east(side.segment, p) {
            toggle(owners, side.feature)?;
        }
    }
    Ok(())
}
