// The top call.
ghost use Rattle.chart_cli.specs.Runs.{IsRunOf, devices};
ghost use Rattle.chart_cli.specs.Words.{command_of, texts};

use crate::Status;
use crate::commands::{ask, check, ground, make, node, revise};
use crate::endings::say_usage;
use crate::words::{CommandWords, read_words};
use chart_dev::{Shelf, Sink};
use std::alloc::Global;

/// Does what the words ask for, over a shelf of files and a sink for lines.
///
/// - `node GRID ROW COL` says where a node of a grid lies and how deep it is.
/// - `compile GRID SHEET CELL` makes the cell of the grid by the rules of the sheet, under the name CELL, and says how
///   many areas of group 1, contours and soundings it has and how many bytes.
/// - `overview GRID SHEET FACTOR CELL` makes the cell of a coarser grid by the rules of the sheet and says the same: of every
///   FACTOR-th row and column of the grid, where each node has the least depth of all nodes at most FACTOR rows and columns
///   away, and none where one of these has none. FACTOR has one or two digits and is from 2 to 64.
/// - `ground GRID SHEET LON LAT` says what lies at a point by the grid and the sheet, as `query` says it: `outside`,
///   `edge`, `UNSARE`, or `DEPARE` with the range of the depths there in metres.
/// - `query CELL LON LAT` says that a point is on an `edge` of an area of the cell's group 1, or which of these areas have
///   it inside, or that it is `outside` all. An area's line is `DEPARE` with the texts of its DRVAL1 and DRVAL2, `-`
///   where it has none, or `UNSARE`, or `object` with its code; lines stand in the order of the cell. LON and LAT are
///   decimal degrees, rounded down to ten-millionths and then within 180 and 90 degrees.
/// - `picture CELL` puts out a picture of the cell as an SVG: depth areas by their depth, contours, soundings, a frame with
///   degrees and minutes, a scale bar. Of the cell's own texts only numbers stand in it.
/// - `route CELL DEPTH LON LAT LON LAT` says of the leg of a route from one point to another whether it is `clear` of areas
///   of the cell's group 1 that are unsafe for a depth in metres: those that are no DEPARE, have no DRVAL1, or whose first
///   DRVAL1 is no number or one that is less than DEPTH. Else it says `unsafe touched F K` with the record number F of the
///   first such area of which a segment has a point in common with the leg, and the place K, from 0, of the first such
///   segment; or `unsafe inside F` where there is none and F is the first such area that has the first point inside. DEPTH
///   is any decimal number.
/// - `check CELL` says whether the areas of group 1 tile what the coverage of the cell covers: `check tiles` and how many
///   there are; or `check toomany` and how many segments areas and coverage have, where these are more than 1,000,000; or
///   `check crossed` where two of their lines cross; or `check wrong` where a point is covered and not in exactly one area,
///   or not covered and in one. The last two name the lower latitude of the southernmost strip between neighbouring
///   latitudes of ends where that is so.
/// - `info CELL` says a cell's name, edition and scale, how many nodes, edges and features it has, and how many areas
///   of group 1, contours and soundings.
/// - `sample N CELL` makes the cell of the sample grid of the number N by the sample sheet, and says the same as
///   `compile`. N has one to ten digits and is at most 4,294,967,295.
/// - `apply BASE UPDATE CELL` makes the cell of the chart that an update file makes of the chart of a cell, under the name
///   CELL, and says `applied` and how many records the update has behind its data set record, and how many bytes CELL has.
///   The update is to be the next one of the cell's edition: its records insert, delete and modify nodes, edges and features.
///
/// The words are tested first. `compile`, `ground` and `overview` then read the sheet whole and check it, then the grid, and
/// then test that nodes times bands, which are levels and one more, are at most 3,000,000; `overview` first tests that the
/// factor is less than the grid's rows and columns, and the size only of the coarser grid. `compile`, `overview` and `sample`
/// make the whole cell and its line before CELL is touched; then the cell is stored, and then the line is put out, and no
/// memory is taken for that. `apply` does the same, and before that reads BASE whole and checks it as `info` does, then reads
/// the update whole and checks it, and then makes its changes. All other lines too are made before the first is put out.
///
/// A grid's file and an update's have at most 67,108,864 bytes, a sheet's at most 65,536 and a cell's at most 4,000,000,000;
/// a larger one is refused. Every line, that of a refusal too, goes to the sink. The contents of the shelf stay as they were, but for
/// the name CELL of `compile`, `overview`, `sample` and `apply` where they are done or a device failed: then it holds the cell, or,
/// where a device failed, maybe only a prefix of it, and the line is put out only where it holds all of it. Texts of a cell
/// are put out as they stand in it, whatever bytes they are.
///
/// What is promised of every run, whatever is asked for, is the record `IsRunOf` of `specs/Runs.antt`, over what the
/// shelf and the sink tell before and after the run:
///
/// - `ends`: where the shelf tells its contents, the status, what is stored and what is put out are those that the words
///   and these contents make due.
/// - `usage`: words that are no command are said to be none, whatever the shelf tells.
/// - `usage_only`: no other words are.
/// - `memory`: want of memory is never answered for words that are no command.
/// - `device`: a device is blamed only where its count of faults rose, or where a file that the words name isn't there
///   while each input before it is there and valid.
/// - `complete`: while no count of faults rises, inputs that are there and valid give their lines or their cell, or
///   memory ran out.
/// - `contents`: after every status but Done and Device the contents stay, and after these two all names but that of the
///   cell which the words name.
/// - `overview`: where an overview is done and the shelf tells its contents, CELL holds the bytes of the cell of the coarser
///   grid and the sheet, and its chart states no more water than the grid in GRID: no depth area that has a node of it inside
///   or on a segment tells more than the node's depth, none has a node without data, and each sounding stands at a node and is
///   no deeper than any node at most FACTOR rows and columns away.
/// - `later`: the counts of faults never fall.
pub fn run<S: Shelf, K: Sink>(alloc: Global, words: &[String], shelf: &mut S, out: &mut K) -> Status
    ensures { IsRunOf (command_of (texts words.now)) result (devices (S.told shelf.old) (S.faults shelf.old) (K.taken out.old) (K.faults out.old)) (devices (S.told shelf.new) (S.faults shelf.new) (K.taken out.new) (K.faults out.new)) }
{
    let Some(command) = read_words(words) else {
        return say_usage(out);
    };
    match command {
        CommandWords::Node(words) => node(alloc, words, shelf, out),
        CommandWords::Ground(names, p) => ground(alloc, names, p, shelf, out),
        CommandWords::Ask(cell, question) => ask(alloc, cell, question, shelf, out),
        CommandWords::Check(cell) => check(alloc, cell, shelf, out),
        CommandWords::Make(origin, cell) => make(alloc, origin, cell, shelf, out),
        CommandWords::Revise(names, cell) => revise(alloc, names, cell, shelf, out),
    }
}
