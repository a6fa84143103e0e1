// Shelves with a worked grid and a sheet.
use chart_dev::MemShelf;
use std::alloc::{AllocError, Global};

/// Three by three nodes.
pub const THREE: &str = "ncols 3\nnrows 3\nxllcenter 0\nyllcenter 0\ncellsize 0.0032\n";

/// A plain grid of 68 bytes.
pub const G1: &str = "ncols 2\nnrows 2\nxllcenter 0\nyllcenter 0\ncellsize 0.0032\n10 10\n10 10\n";

/// The first lines of a sheet without levels.
pub const NONE: &str = "version = 1\nlevels = []\nsounding_radius = [2000]\n";

// The other lines of a sheet.
const REST: &str = "positive = \"down\"
name = \"XX5ROW02\"
edition = 1
issued = \"20240131\"
agency = 7
scale = 12000
usage = 5
vertical_datum = 3
sounding_datum = 23
";

/// A shelf with a grid as G1, and as S0 a sheet with these first lines. It takes 100 bytes a call.
pub fn shelf_of(
    alloc: Global,
    head: &str,
    values: &str,
    sheet: &str,
) -> Result<MemShelf, AllocError> {
    let grid = format!(in alloc; "{head}{values}")?;
    let sheet = format!(in alloc; "{sheet}{REST}")?;
    let mut shelf = MemShelf::new(alloc, 100);
    shelf.put_file("G1", grid.as_bytes())?;
    shelf.put_file("S0", sheet.as_bytes())?;
    Ok(shelf)
}
