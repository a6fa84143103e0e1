// The sheet itself.
ghost use Rattle.std.specs.Prelude.{◌≡◌, ◌≤◌, take};
ghost use Rattle.depth_rounding.specs.Views.{levels_view, from_view, steps_view};
ghost use Rattle.rule_sheet.specs.Values.{IsSheet};

use depth_grid::{Radii, Reach};
use depth_rounding::{Bands, Levels};

/// Which way the values of a grid grow: with depth below datum, or with height above it.
#[derive(Clone, Copy, Debug, PartialEq, Eq)]
pub enum Sense2 {
    Down,
    Up,
}

/// The rules by which a grid becomes a chart. Each sheet keeps the ranges and orders of its keys.
#[derive(Clone, Copy)]
pub struct Sheet {
    /// Which way the grid's values grow.
    pub positive: Sense2,
    /// The levels of contours, in decimetres.
    pub levels: Levels,
    /// The steps of rounding, in decimetres.
    pub bands: Bands,
    /// The disc in which depths are generalised.
    pub disc: Reach,
    /// The discs of soundings: one for every band, or one for each. Their aspect is the disc's.
    pub radii: Radii,
    /// The cell's name: its first `name_len` bytes, each A to Z or 0 to 9.
    pub name: [u8; 8],
    /// The bytes of the name, 1 to 8.
    pub name_len: usize,
    /// The edition of the cell, 1 to 999 (EDTN of IHO S-57, 7.3.1.1).
    pub edition: u16,
    /// The day of issue, eight digits (ISDT).
    pub issued: [u8; 8],
    /// The number of the agency that issues the cell, from 1 (AGEN).
    pub agency: u16,
    /// The denominator of the compilation scale, 1 to 100,000,000 (CSCL).
    pub scale: u32,
    /// The intended usage, 1 to 6 (INTU).
    pub usage: u8,
    /// The vertical datum, 1 to 254 (VDAT).
    pub vertical_datum: u8,
    /// The sounding datum, 1 to 254 (SDAT).
    pub sounding_datum: u8,
    /// The category of zone of confidence, 1 to 6 (CATZOC). `None` in a sheet of version 1.
    pub catzoc: Option<u8>,
    pub ghost name_fits: { name_len ≤ 8 },
    pub ghost radii_fit: { radii.count ≤ 21 },
    pub ghost one_aspect: { radii.aspect ≡ disc.aspect },
    pub ghost is_sheet: { IsSheet (record { positive = positive; levels = levels_view levels; step_from = from_view bands; steps = steps_view bands; aspect = disc.aspect; disc_radius = disc.radius; sounding_radius = take radii.count radii.radius; name = take name_len name; edition = edition; issued = issued; agency = agency; scale = scale; usage = usage; vertical_datum = vertical_datum; sounding_datum = sounding_datum; catzoc = catzoc }) },
}
