// The data set record and the parameter record.
ghost use Rattle.std.specs.Prelude.{◌≡◌, option_map, IfOk, Some};
ghost use Rattle.s57_records.specs.Fields.{dsid_values, dspm_values};
ghost use Rattle.cell_reader.specs.Headers.{structure_in, are_units, units_in, header_of};

use chart_model::Header;
use record_values::text_of;
use s57_codes::code::{CHAIN_NODE, DEGREE_PARTS, DEGREES, METRE_PARTS, METRES, PARAMETERS};
use s57_records::{Dsid, Dspm, Dssi, read_dspm, read_dssi};
use std::alloc::{AllocError, Global};

/// What a data set record says: DSID and DSSI.
#[derive(Clone, Copy, Debug)]
pub(crate) struct Identity<'a> {
    pub identity: Dsid<'a>,
    pub structure: Dssi,
}

/// DSSI of chain-node topology.
pub(crate) fn structure_in(body: &[u8]) -> Option<Dssi>
    ensures { result ≡ structure_in body.now }
{
    match read_dssi(body) {
        Some(dssi) if dssi.dstr == CHAIN_NODE => Some(dssi),
        _ => None,
    }
}

/// Whether DSPM has the RCNM of a parameter record, and positions are ten-millionths of a degree and depths tenths of a
/// metre.
fn are_units(dspm: &Dspm<'_>) -> bool
    ensures { result ≡ are_units (dspm_values dspm.now) }
{
    dspm.rcnm == PARAMETERS
        && dspm.duni == METRES
        && dspm.coun == DEGREES
        && dspm.comf == DEGREE_PARTS
        && dspm.somf == METRE_PARTS
}

/// DSPM with the RCNM of a parameter record and the units that a chart has.
pub(crate) fn units_in(body: &[u8]) -> Option<Dspm<'_>>
    ensures { option_map dspm_values result ≡ units_in body.now }
{
    match read_dspm(body) {
        Some(dspm) if are_units(&dspm) => Some(dspm),
        _ => None,
    }
}

/// The header of a chart.
pub(crate) fn header_of(
    alloc: Global,
    dsid: &Dsid<'_>,
    dssi: &Dssi,
    dspm: &Dspm<'_>,
) -> Result<Header, AllocError>
    ensures { IfOk result (λ header. header_of (dsid_values dsid.now) dssi.now (dspm_values dspm.now) ≡ Some header) }
{
    Ok(Header {
        expp: dsid.expp,
        intu: dsid.intu,
        dsnm: text_of(alloc, dsid.dsnm)?,
        edtn: text_of(alloc, dsid.edtn)?,
        updn: text_of(alloc, dsid.updn)?,
        uadt: dsid.uadt,
        isdt: dsid.isdt,
        sted: dsid.sted,
        prsp: dsid.prsp,
        psdn: text_of(alloc, dsid.psdn)?,
        pred: text_of(alloc, dsid.pred)?,
        prof: dsid.prof,
        agen: dsid.agen,
        comt: text_of(alloc, dsid.comt)?,
        aall: dssi.aall,
        nall: dssi.nall,
        hdat: dspm.hdat,
        vdat: dspm.vdat,
        sdat: dspm.sdat,
        cscl: dspm.cscl,
        huni: dspm.huni,
        puni: dspm.puni,
        note: text_of(alloc, dspm.comt)?,
    })
}
