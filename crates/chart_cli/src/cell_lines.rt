// The lines of a cell. Its texts are put out as they stand in it, whatever bytes they are.
ghost use Rattle.std.specs.Prelude.{◌≡◌, ◌++◌, IfOk, OnOk, flat_map, string_bytes};
ghost use Rattle.chart_cli.specs.CellLines.{name_line, records_line, tally_line, info_text, answer_to, cell_at_text, cell_name_text, cell_count_text, cell_refusal};
ghost use Rattle.chart_model.specs.Tally.{IsMeasured};
ghost use Rattle.chart_query.specs.Lines.{text_of, depth_area_line, area_line, line_at, place_text, query_text};

use crate::leg_lines::lines_of_leg;
use cell_reader::CellFault;
use chart_model::{Chart, Feature, Header, Parts, Tally};
use chart_picture::picture;
use chart_query::{Place, place_at};
use exact_num::Decimal;
use plane_geom::{Point, Seg};
use s57_codes::code::{DEPARE, DRVAL1, DRVAL2, UNSARE};
use std::alloc::{AllocError, Global};

/// What is asked of the chart of a cell.
#[derive(Clone, Copy)]
pub(crate) enum Question {
    /// How many records, areas, contours and soundings it holds.
    Holdings,
    /// Its picture, as an SVG.
    Picture,
    /// The areas at a point.
    At(Point),
    /// Whether a leg is clear of areas that are unsafe for a depth in metres.
    Along(Seg, Decimal),
}

fn put_name(alloc: Global, header: &Header, out: &mut Vec<u8>) -> Result<(), AllocError>
    ensures { OnOk result (out.new.items ≡ out.old.items ++ name_line header.now) }
{
    let scale = header.cscl;
    let scale = format!(in alloc; " scale {scale}\n")?;
    out.extend_from_slice(b"name ")?;
    out.extend_from_slice(header.dsnm.as_slice())?;
    out.extend_from_slice(b" edition ")?;
    out.extend_from_slice(header.edtn.as_slice())?;
    out.extend_from_slice(scale.as_bytes())
}

fn records(alloc: Global, parts: &Parts) -> Result<String, AllocError>
    ensures { IfOk result (λ s. string_bytes s ≡ records_line parts.now) }
{
    let isolated = parts.isolated.as_slice().len();
    let connected = parts.connected.as_slice().len();
    let edges = parts.edges.as_slice().len();
    let features = parts.features.as_slice().len();
    format!(in alloc; "nodes {isolated} {connected} edges {edges} features {features}\n")
}

fn counts(alloc: Global, tally: Tally) -> Result<String, AllocError>
    ensures { IfOk result (λ s. string_bytes s ≡ tally_line tally) }
{
    let (areas, contours, soundings) = (tally.areas, tally.contours, tally.soundings);
    format!(in alloc; "areas {areas} contours {contours} soundings {soundings}\n")
}

#[tactic(auto, unfolding(crate::specs::CellLines::info_text))]
fn holdings(alloc: Global, chart: &Chart) -> Result<Vec<u8>, AllocError>
    requires { IsMeasured chart.now }
    ensures { IfOk result (λ v. v.items ≡ info_text chart.now) }
{
    let parts = chart.parts();
    let records = records(alloc, parts)?;
    let counts = counts(alloc, chart.tally())?;
    let mut out = Vec::new(alloc);
    put_name(alloc, &parts.header, &mut out)?;
    out.extend_from_slice(records.as_bytes())?;
    out.extend_from_slice(counts.as_bytes())?;
    Ok(out)
}

/// Puts the text of a feature's first attribute with a code, or `-` where it has none.
fn put_text(feature: &Feature, code: u16, out: &mut Vec<u8>) -> Result<(), AllocError>
    ensures { OnOk result (out.new.items ≡ out.old.items ++ text_of code feature.now.attributes) }
{
    match feature.first(code) {
        Some(attribute) => out.extend_from_slice(attribute.text.as_slice()),
        None => out.extend_from_slice(b"-"),
    }
}

fn put_depth_area(feature: &Feature, out: &mut Vec<u8>) -> Result<(), AllocError>
    ensures { OnOk result (out.new.items ≡ out.old.items ++ depth_area_line feature.now.attributes) }
{
    out.extend_from_slice(b"DEPARE ")?;
    put_text(feature, DRVAL1, out)?;
    out.extend_from_slice(b" ")?;
    put_text(feature, DRVAL2, out)?;
    out.extend_from_slice(b"\n")
}

fn put_area(alloc: Global, feature: &Feature, out: &mut Vec<u8>) -> Result<(), AllocError>
    ensures { OnOk result (out.new.items ≡ out.old.items ++ area_line feature.now) }
{
    let object = feature.objl;
    if object == DEPARE {
        return put_depth_area(feature, out);
    }
    if object == UNSARE {
        return out.extend_from_slice(b"UNSARE\n");
    }
    let line = format!(in alloc; "object {object}\n")?;
    out.extend_from_slice(line.as_bytes())
}

#[tactic(auto, unfolding(chart_query::specs::Lines::line_at))]
fn put_area_at(
    alloc: Global,
    parts: &Parts,
    place: usize,
    out: &mut Vec<u8>,
) -> Result<(), AllocError>
    ensures { OnOk result (out.new.items ≡ out.old.items ++ line_at parts.now place) }
{
    match parts.features.as_slice().get(place) {
        Some(feature) => put_area(alloc, feature, out),
        None => Ok(()),
    }
}

fn put_areas(
    alloc: Global,
    parts: &Parts,
    found: &[usize],
    out: &mut Vec<u8>,
) -> Result<(), AllocError>
    ensures { OnOk result (out.new.items ≡ out.old.items ++ flat_map (line_at parts.now) found.now) }
{
    for place in found {
        put_area_at(alloc, parts, *place, out)?;
    }
    Ok(())
}

fn put_place(
    alloc: Global,
    parts: &Parts,
    place: &Place,
    out: &mut Vec<u8>,
) -> Result<(), AllocError>
    ensures { OnOk result (out.new.items ≡ out.old.items ++ place_text parts.now place.now) }
{
    match place {
        Place::Outside => out.extend_from_slice(b"outside\n"),
        Place::Edge => out.extend_from_slice(b"edge\n"),
        Place::Areas(found) => put_areas(alloc, parts, found.as_slice(), out),
    }
}

fn areas_at(alloc: Global, chart: &Chart, p: Point) -> Result<Vec<u8>, AllocError>
    ensures { IfOk result (λ v. v.items ≡ query_text p chart.now) }
{
    let place = place_at(alloc, chart, p)?;
    let mut out = Vec::new(alloc);
    put_place(alloc, chart.parts(), &place, &mut out)?;
    Ok(out)
}

/// The lines that answer a question about a cell's chart.
pub(crate) fn lines_of_chart(
    alloc: Global,
    chart: &Chart,
    question: Question,
) -> Result<Vec<u8>, AllocError>
    requires { IsMeasured chart.now }
    ensures { IfOk result (λ v. v.items ≡ answer_to question chart.now) }
{
    match question {
        Question::Holdings => holdings(alloc, chart),
        Question::Picture => picture(alloc, chart),
        Question::At(p) => areas_at(alloc, chart, p),
        Question::Along(leg, depth) => lines_of_leg(alloc, chart, leg, &depth),
    }
}

fn refused_at(alloc: Global, number: &str, at: usize) -> Result<String, AllocError>
    ensures { IfOk result (λ s. string_bytes s ≡ cell_at_text number.now at) }
{
    format!(in alloc; "refused cell {number} at {at}\n")
}

fn refused_name(alloc: Global, number: &str, rcnm: u8, rcid: u32) -> Result<String, AllocError>
    ensures { IfOk result (λ s. string_bytes s ≡ cell_name_text number.now rcnm rcid) }
{
    format!(in alloc; "refused cell {number} {rcnm} {rcid}\n")
}

fn refused_count(alloc: Global, which: u8, stated: u64, found: u64) -> Result<String, AllocError>
    ensures { IfOk result (λ s. string_bytes s ≡ cell_count_text which stated found) }
{
    format!(in alloc; "refused cell 10 {which} {stated} {found}\n")
}

/// The line of a cell's refusal.
pub(crate) fn cell_refusal_line(alloc: Global, fault: CellFault) -> Result<String, AllocError>
    ensures { IfOk result (λ s. string_bytes s ≡ cell_refusal fault) }
{
    match fault {
        CellFault::Short(at) => refused_at(alloc, "1", at),
        CellFault::Leader(at) => refused_at(alloc, "2", at),
        CellFault::Directory(at) => refused_at(alloc, "3", at),
        CellFault::Field(at) => refused_at(alloc, "4", at),
        CellFault::Kind(at) => refused_at(alloc, "5", at),
        CellFault::Value(at) => refused_at(alloc, "6", at),
        CellFault::Lost(rcnm, rcid) => refused_name(alloc, "7", rcnm, rcid),
        CellFault::Twice(rcnm, rcid) => refused_name(alloc, "8", rcnm, rcid),
        CellFault::Unclosed(rcid) => format!(in alloc; "refused cell 9 {rcid}\n"),
        CellFault::Count(which, stated, found) => refused_count(alloc, which, stated, found),
        CellFault::NoMemory => Ok(String::new(alloc)),
    }
}
