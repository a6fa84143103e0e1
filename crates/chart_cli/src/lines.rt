// The lines that the program puts out.
ghost use Rattle.std.specs.Prelude.{◌≡◌, ◌<◌, ◌≤ℤ◌, length, neg_ℤ, pos, IfOk, IfSome, string_bytes};
ghost use Rattle.depth_grid.specs.Views.{grid_view};
ghost use Rattle.chart_cli.specs.Views.{node_view};
ghost use Rattle.cell_check.specs.Lines.{verdict_line};
ghost use Rattle.chart_ground.specs.Line.{ground_line};
ghost use Rattle.chart_cli.specs.Lines.{node_line, place_text, inside_text, has_node, depth_text, factor_refusal, at_text, of_key_text, grid_refusal, sheet_key_text, sheet_refusal, size_refusal, cell_line};

use crate::words::NodeWords;
use cell_check::Verdict;
use chart_ground::GroundAt;
use chart_model::Tally;
use depth_grid::{Grid, NodeId};
use depth_rounding::{Bands, shoal};
use exact_num::{decimetres_text, degree_text};
use grid_reader::{GridFault, GridKey};
use rule_sheet::{Key, SheetFault};
use std::alloc::{AllocError, Global};

fn refused_at(alloc: Global, number: &str, at: usize) -> Result<String, AllocError>
    ensures { IfOk result (λ s. string_bytes s ≡ at_text number.now at) }
{
    format!(in alloc; "refused grid {number} at {at}\n")
}

fn refused_key(alloc: Global, number: &str, key: GridKey) -> Result<String, AllocError>
    ensures { IfOk result (λ s. string_bytes s ≡ of_key_text number.now key) }
{
    let name = key.name();
    format!(in alloc; "refused grid {number} {name}\n")
}

/// The line of a grid's refusal.
pub(crate) fn grid_refusal_line(alloc: Global, fault: GridFault) -> Result<String, AllocError>
    ensures { IfOk result (λ s. string_bytes s ≡ grid_refusal fault) }
{
    match fault {
        GridFault::Header(at) => refused_at(alloc, "1", at),
        GridFault::Missing(key) => refused_key(alloc, "2", key),
        GridFault::Repeated(at) => refused_at(alloc, "3", at),
        GridFault::Number(at) => refused_at(alloc, "4", at),
        GridFault::TooFew(found) => format!(in alloc; "refused grid 5 found {found}\n"),
        GridFault::Trailing(at) => refused_at(alloc, "6", at),
        GridFault::Side(key) => refused_key(alloc, "7", key),
        GridFault::CellSize => String::from_str(alloc, "refused grid 8\n"),
        GridFault::Position => String::from_str(alloc, "refused grid 9\n"),
        GridFault::Depth(at) => refused_at(alloc, "10", at),
        GridFault::NoMemory => Ok(String::new(alloc)),
    }
}

fn refused_sheet(alloc: Global, number: &str, key: Key) -> Result<String, AllocError>
    ensures { IfOk result (λ s. string_bytes s ≡ sheet_key_text number.now key) }
{
    let name = key.name();
    format!(in alloc; "refused sheet {number} {name}\n")
}

/// The line of a sheet's refusal.
pub(crate) fn sheet_refusal_line(alloc: Global, fault: SheetFault) -> Result<String, AllocError>
    ensures { IfOk result (λ s. string_bytes s ≡ sheet_refusal fault) }
{
    match fault {
        SheetFault::Toml => String::from_str(alloc, "refused sheet 1\n"),
        SheetFault::Missing(key) => refused_sheet(alloc, "2", key),
        SheetFault::Kind(key) => refused_sheet(alloc, "3", key),
        SheetFault::Range(key) => refused_sheet(alloc, "4", key),
        SheetFault::Order(key) => refused_sheet(alloc, "5", key),
        SheetFault::Unknown => String::from_str(alloc, "refused sheet 6\n"),
        SheetFault::NoMemory => Ok(String::new(alloc)),
    }
}

/// The line of a chart that is too large, of so many nodes times bands.
pub(crate) fn size_refusal_line(alloc: Global, size: usize) -> Result<String, AllocError>
    ensures { IfOk result (λ s. string_bytes s ≡ size_refusal size) }
{
    format!(in alloc; "refused size {size} limit 3000000\n")
}

/// The line of a factor that isn't less than a grid's rows and columns.
pub(crate) fn factor_refusal_line(alloc: Global, factor: u32) -> Result<String, AllocError>
    ensures { IfOk result (λ s. string_bytes s ≡ factor_refusal factor) }
{
    format!(in alloc; "refused factor {factor}\n")
}

/// The line of a cell that was made, of so many bytes.
pub(crate) fn line_of_cell(alloc: Global, tally: Tally, len: usize) -> Result<String, AllocError>
    ensures { IfOk result (λ s. string_bytes s ≡ cell_line tally len) }
{
    let (areas, contours, soundings) = (tally.areas, tally.contours, tally.soundings);
    format!(in alloc; "areas {areas} contours {contours} soundings {soundings} bytes {len}\n")
}

fn depth_line(alloc: Global, depth: Option<i32>) -> Result<String, AllocError>
    requires { IfSome depth (λ d. (neg_ℤ (pos 12000000) ≤ℤ d) × (d ≤ℤ pos 12000000)) }
    ensures { IfOk result (λ s. string_bytes s ≡ depth_text depth) }
{
    let Some(depth) = depth else {
        return String::from_str(alloc, "nodata\n");
    };
    let metres = decimetres_text(alloc, shoal(&Bands::usual(), depth))?;
    let metres = metres.as_str();
    format!(in alloc; "depth {metres}\n")
}

fn range_line(alloc: Global, shoaler: i32, deeper: i32) -> Result<String, AllocError>
    ensures { IfOk result (λ s. string_bytes s ≡ ground_line (GroundAt.Depth shoaler deeper)) }
{
    let shoaler = decimetres_text(alloc, shoaler)?;
    let deeper = decimetres_text(alloc, deeper)?;
    let (shoaler, deeper) = (shoaler.as_str(), deeper.as_str());
    format!(in alloc; "DEPARE {shoaler} {deeper}\n")
}

/// The line of what lies at a point.
pub(crate) fn line_of_ground(alloc: Global, ground: GroundAt) -> Result<String, AllocError>
    ensures { IfOk result (λ s. string_bytes s ≡ ground_line ground) }
{
    match ground {
        GroundAt::Outside => String::from_str(alloc, "outside\n"),
        GroundAt::Edge => String::from_str(alloc, "edge\n"),
        GroundAt::Depth { shoaler, deeper } => range_line(alloc, shoaler, deeper),
        GroundAt::Unsurveyed => String::from_str(alloc, "UNSARE\n"),
    }
}

fn crossed_line(alloc: Global, height: i32) -> Result<String, AllocError>
    ensures { IfOk result (λ s. string_bytes s ≡ verdict_line (Verdict.Crossed height)) }
{
    let height = degree_text(alloc, height)?;
    let height = height.as_str();
    format!(in alloc; "check crossed {height}\n")
}

fn wrong_line(alloc: Global, height: i32) -> Result<String, AllocError>
    ensures { IfOk result (λ s. string_bytes s ≡ verdict_line (Verdict.Wrong height)) }
{
    let height = degree_text(alloc, height)?;
    let height = height.as_str();
    format!(in alloc; "check wrong {height}\n")
}

/// The line of the verdict on a cell's tiling.
pub(crate) fn line_of_verdict(alloc: Global, verdict: Verdict) -> Result<String, AllocError>
    ensures { IfOk result (λ s. string_bytes s ≡ verdict_line verdict) }
{
    match verdict {
        Verdict::Tiles(areas) => format!(in alloc; "check tiles {areas}\n"),
        Verdict::TooMany(segments) => format!(in alloc; "check toomany {segments}\n"),
        Verdict::Crossed(height) => crossed_line(alloc, height),
        Verdict::Wrong(height) => wrong_line(alloc, height),
    }
}

fn is_inside(grid: &Grid, node: NodeId) -> bool
    ensures { result ≡ has_node (grid_view grid.now) node.row node.col }
{
    node.row < grid.rows() && node.col < grid.cols()
}

fn inside_line(alloc: Global, grid: &Grid, node: NodeId) -> Result<String, AllocError>
    requires row { node.row < length (grid_view grid.now).ys }
    requires col { node.col < length (grid_view grid.now).xs }
    ensures { IfOk result (λ s. string_bytes s ≡ inside_text (grid_view grid.now) node.row node.col) }
{
    let lon = degree_text(alloc, grid.x(node.col))?;
    let lat = degree_text(alloc, grid.y(node.row))?;
    let depth = depth_line(alloc, grid.depth(node))?;
    let (lon, lat, depth) = (lon.as_str(), lat.as_str(), depth.as_str());
    format!(in alloc; " lon {lon} lat {lat} {depth}")
}

fn place_line(alloc: Global, grid: &Grid, node: NodeId) -> Result<String, AllocError>
    ensures { IfOk result (λ s. string_bytes s ≡ place_text (grid_view grid.now) node.row node.col) }
{
    if is_inside(grid, node) {
        inside_line(alloc, grid, node)
    } else {
        String::from_str(alloc, " outside\n")
    }
}

/// The line of a node.
pub(crate) fn line_of_node(
    alloc: Global,
    grid: &Grid,
    node: NodeWords<'_>,
) -> Result<String, AllocError>
    ensures { IfOk result (λ s. string_bytes s ≡ node_line (grid_view grid.now) (node_view node.entry)) }
{
    let (row, col) = (node.row, node.col);
    let id = NodeId {
        row: row as usize,
        col: col as usize,
    };
    let place = place_line(alloc, grid, id)?;
    let place = place.as_str();
    format!(in alloc; "node {row} {col}{place}")
}
