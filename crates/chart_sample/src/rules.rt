// The sample sheet.
ghost use Rattle.std.specs.Prelude.{◌≡◌};
ghost use Rattle.depth_rounding.specs.Views.{levels_view};
ghost use Rattle.rule_sheet.specs.Views.{sheet_view};
ghost use Rattle.chart_sample.specs.Rules.{sample_levels, sample_values};

use depth_grid::{Radii, Reach};
use depth_rounding::{Bands, Levels};
use rule_sheet::{Sense2, Sheet};

// The levels of the sample, in decimetres.
fn levels() -> Levels
    ensures { levels_view result ≡ sample_levels }
{
    Levels::new(&[0, 20, 50, 80, 100, 120, 150, 200, 250, 300, 350, 400])
}

/// The sheet of the sample: twelve levels from 0 to 40 metres, the usual steps, a disc of three rows for depths and one
/// of six for soundings, at the aspect of 52 degrees north. It takes no memory.
pub fn sample_sheet() -> Sheet
    ensures { sheet_view result ≡ sample_values }
{
    let mut radius = [0; 21];
    radius[0] = 6000;
    Sheet {
        positive: Sense2::Down,
        levels: levels(),
        bands: Bands::usual(),
        disc: Reach {
            aspect: 616,
            radius: 3000,
        },
        radii: Radii {
            aspect: 616,
            count: 1,
            radius,
        },
        name: *b"XX5SMPLE",
        name_len: 8,
        edition: 1,
        issued: *b"20240131",
        agency: 7,
        scale: 12_000,
        usage: 5,
        vertical_datum: 3,
        sounding_datum: 23,
        catzoc: None,
    }
}
