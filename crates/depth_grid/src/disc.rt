// Discs of nodes.
ghost use Rattle.std.specs.Prelude.{◌≡◌, ◌⊎◌, ◌<◌, ◌≤◌, ◌==◌, slice_index, if◌then◌else◌, unsigned_abs};
ghost use Rattle.depth_grid.specs.Disc.{near};

/// How far a node's disc reaches.
///
/// `radius` is in thousandths of a row's height, and a column is `aspect` thousandths of a row wide.
#[derive(Clone, Copy)]
pub struct Reach {
    pub aspect: u32,
    pub radius: u32,
}

impl Reach {
    /// Whether a node that many rows and columns away is in the disc, its rim included.
    pub fn has(&self, di: i32, dj: i32) -> bool
        requires aspect { self.now.aspect ≤ 1000 }
        requires radius { self.now.radius ≤ 64000 }
        requires rows { unsigned_abs di ≤ 1024 }
        requires cols { unsigned_abs dj ≤ 1024 }
        ensures { result ≡ near self.now.aspect self.now.radius (unsigned_abs di) (unsigned_abs dj) }
    {
        let down = 1000 * di.unsigned_abs() as u64;
        let across = self.aspect as u64 * dj.unsigned_abs() as u64;
        let radius = self.radius as u64;
        down * down + across * across <= radius * radius
    }
}

/// The radii of soundings: one for every band, or one for each.
#[derive(Clone, Copy)]
pub struct Radii {
    pub aspect: u32,
    pub count: usize,
    pub radius: [u32; 21],
}

impl Radii {
    /// The reach of a sounding of this band. One radius serves every band.
    pub fn reach(&self, band: u32) -> Reach
        requires few { self.now.count ≤ 21 }
        requires known { (self.now.count ≡ 1) ⊎ (band < self.now.count) }
        ensures aspect { result.aspect ≡ self.now.aspect }
        ensures radius { result.radius ≡ slice_index self.now.radius (if self.now.count == 1 then 0 else band) }
    {
        let at = if self.count == 1 { 0 } else { band as usize };
        Reach {
            aspect: self.aspect,
            radius: self.radius[at],
        }
    }
}
