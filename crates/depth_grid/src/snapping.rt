// Positions on the raster.
ghost use Rattle.std.specs.Prelude.{◌≡◌, ◌*◌, ◌^◌, ◌≤ℤ◌, pos, neg_ℤ};
ghost use Rattle.depth_grid.specs.Snap.{snapped, snap_of, IsNearest};

const RASTER: i128 = 32;

const HALF_TURN: i128 = 1_800_000_000;

/// The multiple of 32 ten-millionths of a degree that is nearest to a position, ties upwards.
///
/// `doubled` is twice the position in units of 10^-24 degree, within ±10^31. `None` where the
/// answer is beyond ±180 degrees.
pub fn snap(doubled: i128) -> Option<i32>
    requires low { neg_ℤ (pos (10 ^ 31)) ≤ℤ doubled }
    requires high { doubled ≤ℤ pos (10 ^ 31) }
    ensures value { result ≡ snap_of doubled }
    ensures nearest { IsNearest doubled (snapped doubled) }
{
    let units = RASTER
        * (doubled + 3_200_000_000_000_000_000).div_euclid(6_400_000_000_000_000_000);
    if -HALF_TURN <= units && units <= HALF_TURN {
        Some(units as i32)
    } else {
        None
    }
}
