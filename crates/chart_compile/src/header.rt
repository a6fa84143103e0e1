// What the cell says of itself.
ghost use Rattle.chart_definitions.specs.Rest.{IsHeader};
ghost use Rattle.rule_sheet.specs.Views.{sheet_view};
ghost use Rattle.std.specs.Fmt.{decimal};
ghost use Rattle.std.specs.Prelude.{codes, ◌≡◌, ◌++◌, IfOk, take};

use chart_model::{Header, Items};
use rule_sheet::Sheet;
use std::alloc::{AllocError, Global};

// What DSID and DSPM say of each cell (S-57 Edition 3.1, Part 3, 7.3.1.1 and 7.3.2.1). EXPP: the data set is new.
const NEW: u8 = 1;

// PRSP: the product specification is that for electronic navigational charts.
const NAVIGATIONAL: u8 = 1;

// PROF: the profile is EN, of new data sets.
const NEW_PROFILE: u8 = 1;

// HDAT: positions are in WGS 84.
const WGS_84: u8 = 2;

// HUNI and PUNI: heights and the accuracy of positions are in metres.
const METRES: u8 = 1;

fn text(alloc: Global, bytes: &[u8]) -> Result<Items<u8>, AllocError>
    ensures { IfOk result (λ t. t ≡ bytes.now) }
{
    Ok(Items::over(Vec::from_slice(alloc, bytes)?))
}

// The name of the cell's file: the sheet's name as the base cell.
fn file_name(alloc: Global, sheet: &Sheet) -> Result<Items<u8>, AllocError>
    ensures { IfOk result (λ t. t ≡ (sheet_view sheet.now).name ++ codes ".000") }
{
    let mut name = Vec::from_slice(alloc, &sheet.name[..sheet.name_len])?;
    name.extend_from_slice(b".000")?;
    Ok(Items::over(name))
}

fn edition(alloc: Global, sheet: &Sheet) -> Result<Items<u8>, AllocError>
    ensures { IfOk result (λ t. t ≡ decimal (sheet_view sheet.now).edition) }
{
    let number = sheet.edition;
    let digits = format!(in alloc; "{number}")?;
    Ok(Items::over(digits.into_bytes()))
}

/// The header of a sheet's cell: a base cell (UPDN 0) after Edition 03.1, in WGS 84, with depths in metres.
pub(crate) fn header_of(alloc: Global, sheet: &Sheet) -> Result<Header, AllocError>
    ensures { IfOk result (IsHeader (sheet_view sheet.now)) }
{
    let dsnm = file_name(alloc, sheet)?;
    let edtn = edition(alloc, sheet)?;
    let updn = text(alloc, b"0")?;
    let psdn = text(alloc, b"")?;
    let pred = text(alloc, b"2.0")?;
    let comt = text(alloc, b"")?;
    let note = text(alloc, b"")?;
    Ok(Header {
        expp: NEW,
        intu: sheet.usage,
        dsnm,
        edtn,
        updn,
        uadt: sheet.issued,
        isdt: sheet.issued,
        sted: *b"03.1",
        prsp: NAVIGATIONAL,
        psdn,
        pred,
        prof: NEW_PROFILE,
        agen: sheet.agency,
        comt,
        aall: 0,
        nall: 0,
        hdat: WGS_84,
        vdat: sheet.vertical_datum,
        sdat: sheet.sounding_datum,
        cscl: sheet.scale,
        huni: METRES,
        puni: METRES,
        note,
    })
}
