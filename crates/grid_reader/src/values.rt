// The values of nodes.
ghost use Rattle.std.specs.Prelude.{◌≡◌, ◌≤◌, length, drop};
ghost use Rattle.exact_num.specs.Value.{floor_at};
ghost use Rattle.grid_reader.specs.Words.{words};
ghost use Rattle.grid_reader.specs.Marks.{mark_of};
ghost use Rattle.grid_reader.specs.Values.{nodata_of, is_nodata, downwards, limited, depth_from, node_depths};
ghost use Rattle.grid_reader.specs.Millimetres.{TellsNoData};
ghost use Rattle.grid_reader.specs.Reading.{Gives};

use crate::found::Found;
use crate::marks::read_mark;
use crate::millimetres::{NoDataFloor, nodata_floor, short_depth};
use crate::short::read_short;
use crate::words::next_word;
use crate::{GridFault, Sense};
use exact_num::{Decimal, read_decimal, same, scaled_floor};
use std::alloc::Global;

/// 12,000 metres.
const DEEPEST: i128 = 12_000_000;

// The no-data value, -9999 where none is given.
pub(crate) fn nodata(found: &Found) -> Option<Decimal>
    ensures { result ≡ nodata_of found.now }
{
    match found.nodata {
        Some(mark) => mark,
        None => read_decimal(b"-9999").ok(),
    }
}

fn is_missing(nodata: &Option<Decimal>, number: &Decimal) -> bool
    ensures { result ≡ is_nodata nodata.now number.now }
{
    match nodata {
        Some(nodata) => same(nodata, number),
        None => false,
    }
}

fn downward(sense: Sense, number: &Decimal) -> Decimal
    ensures { result ≡ downwards sense number.now }
{
    match sense {
        Sense::Down => *number,
        Sense::Up => number.negated(),
    }
}

// Metres as a depth in millimetres, rounded down.
fn millimetres(metres: &Decimal, at: usize) -> Result<Option<i32>, GridFault>
    ensures { result ≡ limited at (floor_at metres.now 3) }
{
    match scaled_floor(metres, 3) {
        Some(depth) if -DEEPEST <= depth && depth <= DEEPEST => Ok(Some(depth as i32)),
        _ => Err(GridFault::Depth(at)),
    }
}

// The depth of a node whose value word stands at a place, whatever its length.
#[cold]
fn long_depth(
    word: &[u8],
    at: usize,
    sense: Sense,
    nodata: &Option<Decimal>,
) -> Result<Option<i32>, GridFault>
    ensures { result ≡ depth_from sense nodata.now at (mark_of word.now) }
{
    match read_mark(word) {
        Some(Some(number)) => {
            if is_missing(nodata, &number) {
                return Ok(None);
            }
            millimetres(&downward(sense, &number), at)
        }
        Some(None) => Ok(None),
        None => Err(GridFault::Number(at)),
    }
}

// The same, fast for short words. The no-data value is also given in millimetres, found once for all nodes.
fn read_depth(
    word: &[u8],
    at: usize,
    sense: Sense,
    nodata: &Option<Decimal>,
    floor: Option<NoDataFloor>,
) -> Result<Option<i32>, GridFault>
    requires { TellsNoData nodata.now floor }
    ensures { result ≡ depth_from sense nodata.now at (mark_of word.now) }
{
    let Some(value) = read_short(word) else {
        return long_depth(word, at, sense, nodata);
    };
    match short_depth(value, at, sense, floor) {
        Some(depth) => depth,
        None => long_depth(word, at, sense, nodata),
    }
}

// The depths of so many nodes, whose value words are all that stand from a place on. It stands by itself when it is compiled, and so
// does `after_word`: most of the time of reading is spent here, and in functions of their own their variables stay in registers.
#[inline(never)]
pub(crate) fn read_depths(
    alloc: Global,
    text: &[u8],
    from: usize,
    nodes: usize,
    sense: Sense,
    nodata: &Option<Decimal>,
) -> Result<Vec<Option<i32>>, GridFault>
    requires { from ≤ length text.now }
    ensures { Gives (λ v. v.items) result (node_depths sense nodata.now nodes (words from (drop from text.now))) }
{
    let floor = nodata_floor(nodata);
    let mut depths = Vec::with_capacity(alloc, nodes)?;
    let mut at = from;
    for found in 0..nodes {
        match next_word(text, at) {
            Some(word) => {
                let depth = read_depth(
                    &text[word.begin..word.end],
                    word.begin,
                    sense,
                    nodata,
                    floor,
                )?;
                depths.push(depth)?;
                at = word.end;
            }
            None => return Err(GridFault::TooFew(found)),
        }
    }
    match next_word(text, at) {
        Some(word) => Err(GridFault::Trailing(word.begin)),
        None => Ok(depths),
    }
}
