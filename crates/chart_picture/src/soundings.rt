// Soundings as numbers.
ghost use Rattle.std.specs.Prelude.{◌≡◌, ◌++◌, ◌≤◌, ◌%◌, flat_map, unsigned_abs, OnOk};
ghost use Rattle.chart_picture.specs.Frames.{IsFrame};
ghost use Rattle.chart_picture.specs.Soundings.{metres_text, node_text, number_style, sounding_text, tenths_text};

use crate::frame::Frame;
use crate::framing::{down, right};
use chart_model::{Isolated, Shape, Sounding};
use std::alloc::{AllocError, Global};

/// Begins the number of a depth: that of a drying height is underlined.
#[tactic(auto, unfolding(crate::specs::Soundings::number_style))]
fn put_style(s: Sounding, out: &mut Vec<u8>) -> Result<(), AllocError>
    ensures { OnOk result (out.new.items ≡ out.old.items ++ number_style s.depth) }
{
    if s.depth < 0 {
        out.extend_from_slice(b"<text class=\"u\" x=\"")
    } else {
        out.extend_from_slice(b"<text x=\"")
    }
}

/// Puts the place of a sounding's number, and its metres.
#[tactic(auto, unfolding(crate::specs::Soundings::metres_text))]
fn put_metres(alloc: Global, f: Frame, s: Sounding, out: &mut Vec<u8>) -> Result<(), AllocError>
    requires { IsFrame f }
    ensures { OnOk result (out.new.items ≡ out.old.items ++ metres_text f s) }
{
    let x = right(f, s.at.x);
    let y = down(f, s.at.y) + f.mm * 7 / 10;
    let metres = s.depth.unsigned_abs() / 10;
    let text = format!(in alloc; "{x}\" y=\"{y}\">{metres}")?;
    out.extend_from_slice(text.as_bytes())
}

/// Puts the tenths of a sounding's metres, lowered.
#[tactic(auto, unfolding(crate::specs::Soundings::tenths_text))]
fn put_tenths(alloc: Global, mm: u64, s: Sounding, out: &mut Vec<u8>) -> Result<(), AllocError>
    requires { mm ≤ 200 }
    ensures { OnOk result (out.new.items ≡ out.old.items ++ tenths_text mm (unsigned_abs s.depth % 10)) }
{
    let tenths = s.depth.unsigned_abs() % 10;
    if tenths == 0 {
        return Ok(());
    }
    let low = mm * 6 / 10;
    let text = format!(in alloc; "<tspan class=\"d\" dy=\"{low}\">{tenths}</tspan>")?;
    out.extend_from_slice(text.as_bytes())
}

#[tactic(auto, unfolding(crate::specs::Soundings::sounding_text))]
fn put_sounding(alloc: Global, f: Frame, s: Sounding, out: &mut Vec<u8>) -> Result<(), AllocError>
    requires { IsFrame f }
    ensures { OnOk result (out.new.items ≡ out.old.items ++ sounding_text f s) }
{
    put_style(s, out)?;
    put_metres(alloc, f, s, out)?;
    put_tenths(alloc, f.mm, s, out)?;
    out.extend_from_slice(b"</text>\n")?;
    Ok(())
}

fn put_list(
    alloc: Global,
    f: Frame,
    soundings: &[Sounding],
    out: &mut Vec<u8>,
) -> Result<(), AllocError>
    requires { IsFrame f }
    ensures { OnOk result (out.new.items ≡ out.old.items ++ flat_map (sounding_text f) soundings.now) }
{
    for s in soundings {
        put_sounding(alloc, f, *s, out)?;
    }
    Ok(())
}

/// Puts the soundings of an isolated node.
#[tactic(auto, unfolding(crate::specs::Soundings::node_text))]
pub(crate) fn put_node(
    alloc: Global,
    f: Frame,
    node: &Isolated,
    out: &mut Vec<u8>,
) -> Result<(), AllocError>
    requires { IsFrame f }
    ensures { OnOk result (out.new.items ≡ out.old.items ++ node_text f node.now) }
{
    match &node.shape {
        Shape::One(_) => Ok(()),
        Shape::Soundings(soundings) => put_list(alloc, f, soundings.as_slice(), out),
    }
}
