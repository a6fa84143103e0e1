// What a header has given so far.
ghost use Rattle.std.specs.Prelude.{◌≡◌, None, Ok};
ghost use Rattle.grid_reader.specs.Header.{has, put, put_nan, put_mark};
ghost use Rattle.grid_reader.specs.Reading.{nothing};
ghost use Rattle.grid_reader.specs.Shape.{needs_of};

use crate::key::Key;
use crate::{GridFault, GridKey};
use exact_num::Decimal;

/// Where the columns or the rows begin: at the corner of a cell, or at its centre.
#[derive(Clone, Copy)]
pub(crate) struct Origin {
    pub corner: bool,
    pub value: Decimal,
}

/// The values of the keys that stood so far. A no-data value may be `nan`, which is no number.
#[derive(Clone, Copy)]
pub(crate) struct Found {
    pub cols: Option<Decimal>,
    pub rows: Option<Decimal>,
    pub x: Option<Origin>,
    pub y: Option<Origin>,
    pub cell: Option<Decimal>,
    pub nodata: Option<Option<Decimal>>,
}

/// The values that a grid has to have.
#[derive(Clone, Copy)]
pub(crate) struct Needs {
    pub cols: Decimal,
    pub rows: Decimal,
    pub x: Origin,
    pub y: Origin,
    pub cell: Decimal,
}

pub(crate) fn nothing_found() -> Found
    ensures { result ≡ nothing }
{
    Found {
        cols: None,
        rows: None,
        x: None,
        y: None,
        cell: None,
        nodata: None,
    }
}

// The key, or its other spelling, stood before.
pub(crate) fn is_found(found: &Found, key: Key) -> bool
    ensures { result ≡ has key found.now }
{
    match key {
        Key::Ncols => found.cols.is_some(),
        Key::Nrows => found.rows.is_some(),
        Key::XCorner | Key::XCenter => found.x.is_some(),
        Key::YCorner | Key::YCenter => found.y.is_some(),
        Key::CellSize => found.cell.is_some(),
        Key::NoData => found.nodata.is_some(),
    }
}

fn with_number(found: Found, key: Key, value: Decimal) -> Found
    ensures { result ≡ put key value found }
{
    let mut found = found;
    match key {
        Key::Ncols => found.cols = Some(value),
        Key::Nrows => found.rows = Some(value),
        Key::XCorner => found.x = Some(Origin {
            corner: true,
            value,
        }),
        Key::XCenter => found.x = Some(Origin {
            corner: false,
            value,
        }),
        Key::YCorner => found.y = Some(Origin {
            corner: true,
            value,
        }),
        Key::YCenter => found.y = Some(Origin {
            corner: false,
            value,
        }),
        Key::CellSize => found.cell = Some(value),
        Key::NoData => found.nodata = Some(Some(value)),
    }
    found
}

fn with_nan(found: Found, key: Key, at: usize) -> Result<Found, GridFault>
    ensures { result ≡ put_nan key at found }
{
    match key {
        Key::NoData => {
            let mut found = found;
            found.nodata = Some(None);
            Ok(found)
        }
        _ => Err(GridFault::Number(at)),
    }
}

// The value of a key at a place, beside those that stood before.
pub(crate) fn with_mark(
    found: Found,
    key: Key,
    at: usize,
    mark: Option<Option<Decimal>>,
) -> Result<Found, GridFault>
    ensures { result ≡ put_mark key at mark found }
{
    match mark {
        Some(Some(value)) => Ok(with_number(found, key, value)),
        Some(None) => with_nan(found, key, at),
        None => Err(GridFault::Number(at)),
    }
}

// The values that a grid has to have, or the first that is missing.
pub(crate) fn find_needs(found: &Found) -> Result<Needs, GridFault>
    ensures { result ≡ needs_of found.now }
{
    Ok(Needs {
        cols: found.cols.ok_or(GridFault::Missing(GridKey::Ncols))?,
        rows: found.rows.ok_or(GridFault::Missing(GridKey::Nrows))?,
        x: found.x.ok_or(GridFault::Missing(GridKey::X))?,
        y: found.y.ok_or(GridFault::Missing(GridKey::Y))?,
        cell: found.cell.ok_or(GridFault::Missing(GridKey::CellSize))?,
    })
}
