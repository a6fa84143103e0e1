// The line of a leg.
ghost use Rattle.std.specs.Prelude.{codes, ◌≡◌, ◌++◌, IfOk, OnOk, decimal};
ghost use Rattle.route_check.specs.Lines.{leg_text, number_at, route_text};

use chart_model::{Chart, Parts};
use exact_num::Decimal;
use plane_geom::Seg;
use route_check::{Leg, leg};
use std::alloc::{AllocError, Global};

fn put_number(alloc: Global, number: u64, out: &mut Vec<u8>) -> Result<(), AllocError>
    ensures { OnOk result (out.new.items ≡ out.old.items ++ decimal number) }
{
    let text = format!(in alloc; "{number}")?;
    out.extend_from_slice(text.as_bytes())
}

/// Puts the record number of the feature at a place.
#[tactic(auto, unfolding(route_check::specs::Lines::number_at))]
fn put_number_at(
    alloc: Global,
    parts: &Parts,
    place: usize,
    out: &mut Vec<u8>,
) -> Result<(), AllocError>
    ensures { OnOk result (out.new.items ≡ out.old.items ++ number_at parts.now place) }
{
    match parts.features.as_slice().get(place) {
        Some(feature) => put_number(alloc, feature.rcid as u64, out),
        None => Ok(()),
    }
}

fn put_inside(
    alloc: Global,
    parts: &Parts,
    place: usize,
    out: &mut Vec<u8>,
) -> Result<(), AllocError>
    ensures { OnOk result (out.new.items ≡ out.old.items ++ leg_text parts.now (Leg.Inside place)) }
{
    out.extend_from_slice(b"unsafe inside ")?;
    put_number_at(alloc, parts, place, out)?;
    out.extend_from_slice(b"\n")
}

/// Puts the place of a segment, and ends the line.
fn put_segment(alloc: Global, segment: usize, out: &mut Vec<u8>) -> Result<(), AllocError>
    ensures { OnOk result (out.new.items ≡ out.old.items ++ (codes " " ++ (decimal segment ++ codes "\n"))) }
{
    out.extend_from_slice(b" ")?;
    put_number(alloc, segment as u64, out)?;
    out.extend_from_slice(b"\n")
}

fn put_touched(
    alloc: Global,
    parts: &Parts,
    place: usize,
    segment: usize,
    out: &mut Vec<u8>,
) -> Result<(), AllocError>
    ensures { OnOk result (out.new.items ≡ out.old.items ++ leg_text parts.now (Leg.Touched place segment)) }
{
    out.extend_from_slice(b"unsafe touched ")?;
    put_number_at(alloc, parts, place, out)?;
    put_segment(alloc, segment, out)
}

fn put_leg(alloc: Global, parts: &Parts, leg: Leg, out: &mut Vec<u8>) -> Result<(), AllocError>
    ensures { OnOk result (out.new.items ≡ out.old.items ++ leg_text parts.now leg) }
{
    match leg {
        Leg::Clear => out.extend_from_slice(b"clear\n"),
        Leg::Inside(place) => put_inside(alloc, parts, place, out),
        Leg::Touched(place, segment) => put_touched(alloc, parts, place, segment, out),
    }
}

/// The line of a leg of a chart at a depth.
pub(crate) fn lines_of_leg(
    alloc: Global,
    chart: &Chart,
    seg: Seg,
    depth: &Decimal,
) -> Result<Vec<u8>, AllocError>
    ensures { IfOk result (λ v. v.items ≡ route_text depth.now seg chart.now) }
{
    let leg = leg(alloc, chart, seg.a, seg.b, depth)?;
    let mut out = Vec::new(alloc);
    put_leg(alloc, chart.parts(), leg, &mut out)?;
    Ok(out)
}
