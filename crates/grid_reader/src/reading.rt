// The whole text.
ghost use Rattle.std.specs.Prelude.{◌≡◌, ◌≤◌, length, drop, Ok, Err, IfOk, IfErr};
ghost use Rattle.depth_grid.specs.Grid.{GridView};
ghost use Rattle.depth_grid.specs.Views.{grid_view};
ghost use Rattle.grid_reader.specs.Shape.{StepsUp, StepsDown};
ghost use Rattle.grid_reader.specs.Words.{words};
ghost use Rattle.grid_reader.specs.Reading.{reading, grid_behind, Gives};
ghost use Rattle.grid_reader.specs.Stands.{StandsFor};

use crate::header::{Header, read_header};
use crate::shape::read_places;
use crate::values::{nodata, read_depths};
use crate::{GridFault, Sense};
use depth_grid::Grid;
use std::alloc::Global;

// The grid that the values behind a header give.
fn grid_from(alloc: Global, text: &[u8], positive: Sense, header: Header) -> Result<Grid, GridFault>
    requires { header.end ≤ length text.now }
    ensures gives { Gives grid_view result (grid_behind positive header.found (words header.end (drop header.end text.now))) }
    ensures apart { IfOk result (λ g. StepsUp (grid_view g).xs × StepsDown (grid_view g).ys) }
{
    let places = read_places(alloc, &header.found)?;
    let nodes = places.ys.len() * places.xs.len();
    let nodata = nodata(&header.found);
    let depths = read_depths(alloc, text, header.end, nodes, positive, &nodata)?;
    Ok(Grid::new(places.xs, places.ys, depths))
}

/// The grid that a text stands for: an ESRI ASCII grid, whose values are metres, positive downwards or upwards.
///
/// The text is words between white space: pairs of a key and a value in any order, and then the
/// values of the nodes, row by row from north to south, as in the ESRI ASCII raster format.
/// Refuses every other text by its first fault: in the header what is no key, stands a second time
/// or has no value of its kind, in the text's order; then what is missing, a side, the cell size, a
/// position; then the values in the text's order. It reads the bytes once, and takes memory for the
/// grid alone.
#[tactic(auto, unfolding(crate::specs::Reading::reading))]
pub fn read_grid(alloc: Global, text: &[u8], positive: Sense) -> Result<Grid, GridFault>
    ensures grid { IfOk result (λ g. reading positive text.now ≡ Ok (grid_view g)) }
    ensures stands { IfOk result (λ g. StandsFor positive text.now (grid_view g)) }
    // neighbouring columns and rows lie 96 units or more from each other
    ensures apart { IfOk result (λ g. StepsUp (grid_view g).xs × StepsDown (grid_view g).ys) }
    ensures fault { IfErr result (λ e. (e ≡ GridFault.NoMemory → ⊥) → reading positive text.now ≡ Err e) }
    // a text that is refused stands for no grid
    ensures none { IfErr result (λ e. (e ≡ GridFault.NoMemory → ⊥) → (g : GridView) → ¬ (StandsFor positive text.now g)) }
{
    match read_header(text) {
        Ok(header) => grid_from(alloc, text, positive, header),
        Err(fault) => Err(fault),
    }
}
