// Areas and contours as paths.
ghost use Rattle.std.specs.Prelude.{◌≡◌, ◌++◌, IfOk, OnOk, string_bytes};
ghost use Rattle.chart_picture.specs.Frames.{IsFrame};
ghost use Rattle.chart_picture.specs.Titles.{area_title, contour_title};
ghost use Rattle.chart_picture.specs.Lines.{area_path, begin_text, contour_path, is_same, line_text, place_text, stroke_text, strokes, title_text};

use crate::colours::fill;
use crate::frame::Frame;
use crate::framing::{down, right};
use crate::titles::{put_area_title, put_contour_title};
use chart_model::Feature;
use plane_geom::{Point, Seg};
use std::alloc::{AllocError, Global};

#[tactic(auto, unfolding(crate::specs::Lines::place_text))]
fn place(alloc: Global, f: Frame, p: Point) -> Result<String, AllocError>
    requires { IsFrame f }
    ensures { IfOk result (λ s. string_bytes s ≡ place_text f p) }
{
    let (x, y) = (right(f, p.x), down(f, p.y));
    format!(in alloc; "{x} {y}")
}

/// Puts the letter of a step of a path and its place.
fn put_step(
    alloc: Global,
    f: Frame,
    letter: &str,
    p: Point,
    out: &mut Vec<u8>,
) -> Result<(), AllocError>
    requires { IsFrame f }
    ensures { OnOk result (out.new.items ≡ out.old.items ++ (letter.now ++ place_text f p)) }
{
    let text = place(alloc, f, p)?;
    out.extend_from_slice(letter.as_bytes())?;
    out.extend_from_slice(text.as_bytes())
}

#[tactic(auto, unfolding(crate::specs::Lines::is_same))]
fn same(p: Point, q: Point) -> bool
    ensures { result ≡ is_same p q }
{
    (p.x <= q.x && q.x <= p.x) && (p.y <= q.y && q.y <= p.y)
}

/// Begins a line anew where it doesn't go on from the last point.
#[tactic(auto, unfolding(crate::specs::Lines::begin_text))]
fn put_begin(
    alloc: Global,
    f: Frame,
    last: Option<Point>,
    p: Point,
    out: &mut Vec<u8>,
) -> Result<(), AllocError>
    requires { IsFrame f }
    ensures { OnOk result (out.new.items ≡ out.old.items ++ begin_text f last p) }
{
    match last {
        Some(last) => {
            if same(last, p) {
                Ok(())
            } else {
                put_step(alloc, f, "M", p, out)
            }
        }
        None => put_step(alloc, f, "M", p, out),
    }
}

#[tactic(auto, unfolding(crate::specs::Lines::stroke_text))]
fn put_stroke(
    alloc: Global,
    f: Frame,
    last: Option<Point>,
    s: Seg,
    out: &mut Vec<u8>,
) -> Result<(), AllocError>
    requires { IsFrame f }
    ensures { OnOk result (out.new.items ≡ out.old.items ++ stroke_text f last s) }
{
    put_begin(alloc, f, last, s.a, out)?;
    put_step(alloc, f, "L", s.b, out)
}

fn put_strokes(
    alloc: Global,
    f: Frame,
    segments: &[Seg],
    out: &mut Vec<u8>,
) -> Result<(), AllocError>
    requires { IsFrame f }
    ensures { OnOk result (out.new.items ≡ out.old.items ++ strokes f None segments.now) }
{
    let mut last = None;
    for s in segments {
        put_stroke(alloc, f, last, *s, out)?;
        last = Some(s.b);
    }
    Ok(())
}

#[tactic(auto, unfolding(crate::specs::Lines::line_text))]
fn put_line(
    alloc: Global,
    f: Frame,
    style: &str,
    segments: &[Seg],
    out: &mut Vec<u8>,
) -> Result<(), AllocError>
    requires { IsFrame f }
    ensures { OnOk result (out.new.items ≡ out.old.items ++ line_text style.now f segments.now) }
{
    out.extend_from_slice(b"<path ")?;
    out.extend_from_slice(style.as_bytes())?;
    out.extend_from_slice(b"\" d=\"")?;
    put_strokes(alloc, f, segments, out)
}

/// Puts the end of an area's path with its title.
#[tactic(auto, unfolding(crate::specs::Lines::title_text))]
fn put_area_end(alloc: Global, feature: &Feature, out: &mut Vec<u8>) -> Result<(), AllocError>
    ensures { OnOk result (out.new.items ≡ out.old.items ++ title_text (area_title feature.now)) }
{
    out.extend_from_slice(b"\"><title>")?;
    put_area_title(alloc, feature, out)?;
    out.extend_from_slice(b"</title></path>\n")?;
    Ok(())
}

/// Puts the end of a contour's path with its title.
#[tactic(auto, unfolding(crate::specs::Lines::title_text))]
fn put_contour_end(feature: &Feature, out: &mut Vec<u8>) -> Result<(), AllocError>
    ensures { OnOk result (out.new.items ≡ out.old.items ++ title_text (contour_title feature.now)) }
{
    out.extend_from_slice(b"\"><title>")?;
    put_contour_title(feature, out)?;
    out.extend_from_slice(b"</title></path>\n")?;
    Ok(())
}

/// Puts the path of an area.
#[tactic(auto, unfolding(crate::specs::Lines::area_path))]
pub(crate) fn put_area(
    alloc: Global,
    f: Frame,
    feature: &Feature,
    segments: &[Seg],
    out: &mut Vec<u8>,
) -> Result<(), AllocError>
    requires { IsFrame f }
    ensures { OnOk result (out.new.items ≡ out.old.items ++ area_path f feature.now segments.now) }
{
    put_line(alloc, f, fill(feature), segments, out)?;
    put_area_end(alloc, feature, out)
}

/// Puts the path of a contour.
#[tactic(auto, unfolding(crate::specs::Lines::contour_path))]
pub(crate) fn put_contour(
    alloc: Global,
    f: Frame,
    feature: &Feature,
    segments: &[Seg],
    out: &mut Vec<u8>,
) -> Result<(), AllocError>
    requires { IsFrame f }
    ensures { OnOk result (out.new.items ≡ out.old.items ++ contour_path f feature.now segments.now) }
{
    put_line(alloc, f, "class=\"c", segments, out)?;
    put_contour_end(feature, out)
}
