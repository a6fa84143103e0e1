// Depths of short numbers, in millimetres.
ghost use Rattle.std.specs.Prelude.{◌≡◌, ◌^◌, ◌<◌, ◌≤◌, true, Some, IfSome, IfNone, unsigned_abs};
ghost use Rattle.exact_num.specs.Number.{Number};
ghost use Rattle.exact_num.specs.Value.{floor_at};
ghost use Rattle.grid_reader.specs.Marks.{Mark};
ghost use Rattle.grid_reader.specs.Values.{is_nodata, downwards, limited, depth_from};
ghost use Rattle.grid_reader.specs.Millimetres.{HasThousandths, IsMillimetres, TellsNoData};

use crate::short::Thousandths;
use crate::{GridFault, Sense};
use exact_num::{Decimal, scaled_floor};

/// 12,000 metres.
const DEEPEST: i64 = 12_000_000;

/// No short number has so many millimetres, either way.
const FARTHEST: i128 = 1_000_000_000_000_000_000;

/// The no-data value in millimetres, rounded down, and whether it is exactly so many.
#[derive(Clone, Copy)]
pub(crate) struct NoDataFloor {
    pub millimetres: i64,
    pub exact: bool,
}

// The same, positive downwards.
fn turned_down(value: Thousandths, sense: Sense) -> Thousandths
    ensures few { result.whole ≡ value.whole }
    ensures value { (n : Number) → HasThousandths n value → HasThousandths (downwards sense n) result }
{
    match sense {
        Sense::Down => value,
        Sense::Up => Thousandths {
            negative: !value.negative,
            whole: value.whole,
            left: value.left,
        },
    }
}

// The greatest whole number of thousandths that isn't above the value.
fn rounded_down(value: Thousandths) -> i64
    requires few { value.whole ≤ 10 ^ 16 }
    ensures value { (n : Number) → HasThousandths n value → result ≡ floor_at n 3 }
{
    let whole = value.whole as i64;
    if !value.negative {
        return whole;
    }
    if value.left {
        return -whole - 1;
    }
    -whole
}

// A depth in millimetres, if it isn't too far from 0.
fn near_depth(depth: i64, at: usize) -> Result<Option<i32>, GridFault>
    ensures { result ≡ limited at depth }
{
    if -DEEPEST <= depth && depth <= DEEPEST {
        return Ok(Some(depth as i32));
    }
    Err(GridFault::Depth(at))
}

// Whether a number is exactly as many thousandths as its floor: then its opposite has the opposite floor.
fn is_exact(number: &Decimal, floor: i128) -> bool
    requires floor { floor ≡ floor_at number.now 3 }
    requires few { unsigned_abs floor ≤ 10 ^ 18 }
    ensures { result ≡ true → IsMillimetres number.now floor }
{
    match scaled_floor(&number.negated(), 3) {
        Some(opposite) => opposite == -floor,
        None => false,
    }
}

// A number in millimetres, if it isn't beyond all short numbers.
fn floor_of(number: &Decimal) -> Option<NoDataFloor>
    ensures floor { IfSome result (λ f. f.millimetres ≡ floor_at number.now 3) }
    ensures exact { IfSome result (λ f. f.exact ≡ true → IsMillimetres number.now f.millimetres) }
    ensures none { IfNone result (10 ^ 18 < unsigned_abs (floor_at number.now 3)) }
{
    match scaled_floor(number, 3) {
        Some(floor) if -FARTHEST <= floor && floor <= FARTHEST => Some(NoDataFloor {
            millimetres: floor as i64,
            exact: is_exact(number, floor),
        }),
        _ => None,
    }
}

/// The no-data value in millimetres: none where no short number is no data.
pub(crate) fn nodata_floor(nodata: &Option<Decimal>) -> Option<NoDataFloor>
    ensures { TellsNoData nodata.now result }
{
    match nodata {
        Some(number) => floor_of(number),
        None => None,
    }
}

// Whether the number is no data, if its thousandths tell.
fn is_missing(value: Thousandths, nodata: Option<NoDataFloor>) -> Option<bool>
    requires few { value.whole ≤ 10 ^ 16 }
    ensures { (mark : Mark) → (n : Number) → TellsNoData mark nodata → HasThousandths n value → IfSome result (λ b. is_nodata mark n ≡ b) }
{
    let Some(floor) = nodata else {
        return Some(false);
    };
    if rounded_down(value) != floor.millimetres {
        return Some(false);
    }
    if floor.exact && !value.left {
        return Some(true);
    }
    None
}

/// The depth of a node whose value stands at a place, if the value's thousandths tell it: they don't where they are those of the
/// no-data value and one of the two has more behind them.
pub(crate) fn short_depth(
    value: Thousandths,
    at: usize,
    sense: Sense,
    nodata: Option<NoDataFloor>,
) -> Option<Result<Option<i32>, GridFault>>
    requires few { value.whole ≤ 10 ^ 16 }
    ensures { (mark : Mark) → (n : Number) → TellsNoData mark nodata → HasThousandths n value → IfSome result (λ d. d ≡ depth_from sense mark at (Some (Some n))) }
{
    match is_missing(value, nodata) {
        Some(true) => Some(Ok(None)),
        Some(false) => Some(near_depth(rounded_down(turned_down(value, sense)), at)),
        None => None,
    }
}
