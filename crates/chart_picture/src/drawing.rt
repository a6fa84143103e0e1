// The text of a picture.
ghost use Rattle.std.specs.Prelude.{◌≡◌, ◌++◌, ◌<◌, IfOk, OnOk, length};
ghost use Rattle.std.specs.List.{HoldsAt};
ghost use Rattle.chart_picture.specs.Frames.{IsFrame};
ghost use Rattle.chart_picture.specs.Lines.{area_text};
ghost use Rattle.chart_picture.specs.Picture.{areas_text, contours_text, picture_by, picture_text, soundings_text};

use crate::borders::{put_border, put_head};
use crate::frame::Frame;
use crate::framing::frame_for;
use crate::layering::layers_by_depth;
use crate::lines::{put_area, put_contour};
use crate::soundings::put_node;
use chart_model::Chart;
use s57_codes::code::DEPCNT;
use std::alloc::{AllocError, Global};

/// Puts the path of the area at a place among the features.
fn put_area_at(
    alloc: Global,
    f: Frame,
    chart: &Chart,
    place: usize,
    out: &mut Vec<u8>,
) -> Result<(), AllocError>
    requires frame { IsFrame f }
    requires place { place < length chart.now.features }
    ensures { OnOk result (HoldsAt (λ it. out.new.items ≡ out.old.items ++ area_text f chart.now it) chart.now.features place) }
{
    let segments = chart.area_segments(alloc, place)?;
    let area = &chart.parts().features.as_slice()[place];
    put_area(alloc, f, area, &segments, out)
}

/// Puts the paths of the areas of group 1, the deepest first, so that shoaler ones stand over deeper ones where a cell's
/// areas overlap.
#[tactic(auto, unfolding(crate::specs::Picture::areas_text))]
fn put_areas(alloc: Global, f: Frame, chart: &Chart, out: &mut Vec<u8>) -> Result<(), AllocError>
    requires { IsFrame f }
    ensures { OnOk result (out.new.items ≡ out.old.items ++ areas_text f chart.now) }
{
    let layers = layers_by_depth(alloc, chart)?;
    for layer in &layers {
        put_area_at(alloc, f, chart, layer.place, out)?;
    }
    Ok(())
}

#[tactic(auto, unfolding(crate::specs::Picture::contours_text))]
fn put_contours(alloc: Global, f: Frame, chart: &Chart, out: &mut Vec<u8>) -> Result<(), AllocError>
    requires { IsFrame f }
    ensures { OnOk result (out.new.items ≡ out.old.items ++ contours_text f chart.now) }
{
    let features = chart.parts().features.as_slice();
    for (place, contour) in features.iter().enumerate() {
        if contour.objl == DEPCNT {
            let segments = chart.area_segments(alloc, place)?;
            put_contour(alloc, f, contour, &segments, out)?;
        }
    }
    Ok(())
}

#[tactic(auto, unfolding(crate::specs::Picture::soundings_text))]
fn put_soundings(
    alloc: Global,
    f: Frame,
    chart: &Chart,
    out: &mut Vec<u8>,
) -> Result<(), AllocError>
    requires { IsFrame f }
    ensures { OnOk result (out.new.items ≡ out.old.items ++ soundings_text f chart.now) }
{
    let nodes = chart.parts().isolated.as_slice();
    for node in nodes {
        put_node(alloc, f, node, out)?;
    }
    Ok(())
}

#[tactic(auto, unfolding(crate::specs::Picture::picture_by))]
fn put_picture(alloc: Global, f: Frame, chart: &Chart, out: &mut Vec<u8>) -> Result<(), AllocError>
    requires { IsFrame f }
    ensures { OnOk result (out.new.items ≡ out.old.items ++ picture_by f chart.now) }
{
    put_head(alloc, f, out)?;
    put_areas(alloc, f, chart, out)?;
    put_contours(alloc, f, chart, out)?;
    put_border(alloc, f, out)?;
    put_soundings(alloc, f, chart, out)?;
    out.extend_from_slice(b"</svg>\n")?;
    Ok(())
}

/// The picture of a chart as an SVG: areas of group 1 by their depth, contours, a frame with degrees and minutes, a scale
/// bar, and soundings in metres. Of the chart's own texts only those stand in it that are numbers, so it is well-formed and
/// has no script and no link whatever the chart holds. Refuses only for want of memory.
#[tactic(auto, unfolding(crate::specs::Picture::picture_text))]
pub fn picture(alloc: Global, chart: &Chart) -> Result<Vec<u8>, AllocError>
    ensures { IfOk result (λ v. v.items ≡ picture_text chart.now) }
{
    let mut out = Vec::new(alloc);
    put_picture(alloc, frame_for(chart.parts()), chart, &mut out)?;
    Ok(out)
}
