// The records of the data set and of its parameters.
ghost use Rattle.std.specs.Prelude.{◌≡◌, ◌++◌, ◌∷◌, [], IsTrue, OnOk};
ghost use Rattle.cell_writer.specs.Drafts.{Adds};
ghost use Rattle.cell_writer.specs.Layout.{data_set_parts, dsid_of, dspm_of, dssi_of, field, is_short, parameter_parts};
ghost use Rattle.chart_model.specs.Whole.{HasTexts, IsWellFormed};
ghost use Rattle.iso8211_codec.specs.Layout.{record_of};
ghost use Rattle.iso8211_codec.specs.Room.{KeepsRoom};
ghost use Rattle.s57_codes.specs.Catalogue.{tag_dsid, tag_dspm, tag_dssi};
ghost use Rattle.s57_records.specs.Fields.{dsid, dspm, dssi};
ghost use Rattle.s57_records.specs.Formats.{AllFit};

use crate::counts::{CARTOGRAPHIC, COLLECTION, META, OTHER, geo_objects, objects};
use crate::draft::Draft;
use crate::laws::{byte_law, eight_law, four_law, long_law, word_law};
use chart_model::{Header, Parts};
use s57_codes::code::{
    CHAIN_NODE, DATA_SET, DEGREE_PARTS, DEGREES, METRE_PARTS, METRES, PARAMETERS,
};
use s57_codes::tag;
use s57_records::{Dsid, Dspm, Dssi, write_dsid, write_dspm, write_dssi};
use std::alloc::AllocError;

/// Adds DSID, what the data set is.
fn add_dsid(draft: &mut Draft, header: &Header) -> Result<(), AllocError>
    requires { HasTexts header.now }
    ensures adds { OnOk result (Adds (field tag_dsid dsid (dsid_of header.now) ∷ []) draft.old draft.new) }
    ensures fits { OnOk result (AllFit dsid (dsid_of header.now)) }
{
    let from = draft.bodies.len();
    let value = Dsid {
        rcnm: DATA_SET,
        rcid: 1,
        expp: header.expp,
        intu: header.intu,
        dsnm: header.dsnm.as_slice(),
        edtn: header.edtn.as_slice(),
        updn: header.updn.as_slice(),
        uadt: header.uadt,
        isdt: header.isdt,
        sted: header.sted,
        prsp: header.prsp,
        psdn: header.psdn.as_slice(),
        pred: header.pred.as_slice(),
        prof: header.prof,
        agen: header.agen,
        comt: header.comt.as_slice(),
    };
    byte_law(header.expp);
    byte_law(header.intu);
    byte_law(header.prsp);
    byte_law(header.prof);
    word_law(header.agen);
    eight_law(&header.uadt);
    eight_law(&header.isdt);
    four_law(&header.sted);
    write_dsid(&mut draft.bodies, &value)?;
    draft.end(tag::DSID, from)
}

/// Adds DSSI, how many records of which kind there are.
fn add_dssi(draft: &mut Draft, parts: &Parts) -> Result<(), AllocError>
    requires { IsWellFormed parts.now }
    ensures adds { OnOk result (Adds (field tag_dssi dssi (dssi_of parts.now) ∷ []) draft.old draft.new) }
    ensures fits { OnOk result (AllFit dssi (dssi_of parts.now)) }
{
    let from = draft.bodies.len();
    let features = parts.features.as_slice();
    let value = Dssi {
        dstr: CHAIN_NODE,
        aall: parts.header.aall,
        nall: parts.header.nall,
        nomr: objects(features, META, CARTOGRAPHIC),
        nocr: objects(features, COLLECTION, OTHER),
        nogr: geo_objects(features),
        nolr: objects(features, CARTOGRAPHIC, COLLECTION),
        noin: parts.isolated.as_slice().len() as u32,
        nocn: parts.connected.as_slice().len() as u32,
        noed: parts.edges.as_slice().len() as u32,
        // chain-node topology has no records of faces
        nofa: 0,
    };
    byte_law(parts.header.aall);
    byte_law(parts.header.nall);
    write_dssi(&mut draft.bodies, &value)?;
    draft.end(tag::DSSI, from)
}

/// Appends the record of the data set, the first of the data records.
pub(crate) fn write_data_set(
    out: &mut Vec<u8>,
    draft: &mut Draft,
    parts: &Parts,
) -> Result<(), AllocError>
    requires short { IsTrue (is_short (data_set_parts 1 parts.now)) }
    requires well_formed { IsWellFormed parts.now }
    ensures items { OnOk result (out.new.items ≡ out.old.items ++ record_of (data_set_parts 1 parts.now)) }
    ensures room { OnOk result (KeepsRoom out.old out.new) }
    ensures identity { OnOk result (AllFit dsid (dsid_of parts.now.header)) }
    ensures structure { OnOk result (AllFit dssi (dssi_of parts.now)) }
{
    draft.begin(1)?;
    add_dsid(draft, &parts.header)?;
    add_dssi(draft, parts)?;
    draft.write(out)
}

/// Adds DSPM: depths in decimetres, positions in ten-millionths of a degree.
fn add_dspm(draft: &mut Draft, header: &Header) -> Result<(), AllocError>
    requires { HasTexts header.now }
    ensures adds { OnOk result (Adds (field tag_dspm dspm (dspm_of header.now) ∷ []) draft.old draft.new) }
    ensures fits { OnOk result (AllFit dspm (dspm_of header.now)) }
{
    let from = draft.bodies.len();
    let value = Dspm {
        rcnm: PARAMETERS,
        rcid: 1,
        hdat: header.hdat,
        vdat: header.vdat,
        sdat: header.sdat,
        cscl: header.cscl,
        duni: METRES,
        huni: header.huni,
        puni: header.puni,
        coun: DEGREES,
        comf: DEGREE_PARTS,
        somf: METRE_PARTS,
        comt: header.note.as_slice(),
    };
    byte_law(header.hdat);
    byte_law(header.vdat);
    byte_law(header.sdat);
    long_law(header.cscl);
    byte_law(header.huni);
    byte_law(header.puni);
    write_dspm(&mut draft.bodies, &value)?;
    draft.end(tag::DSPM, from)
}

/// Appends the record of the parameters, the second of the data records.
pub(crate) fn write_parameters(
    out: &mut Vec<u8>,
    draft: &mut Draft,
    header: &Header,
) -> Result<(), AllocError>
    requires short { IsTrue (is_short (parameter_parts 2 header.now)) }
    requires texts { HasTexts header.now }
    ensures items { OnOk result (out.new.items ≡ out.old.items ++ record_of (parameter_parts 2 header.now)) }
    ensures room { OnOk result (KeepsRoom out.old out.new) }
    ensures fits { OnOk result (AllFit dspm (dspm_of header.now)) }
{
    draft.begin(2)?;
    add_dspm(draft, header)?;
    draft.write(out)
}
