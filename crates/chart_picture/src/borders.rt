// What stands around the chart.
ghost use Rattle.std.specs.Prelude.{◌≡◌, ◌++◌, ◌≤◌, ◌<◌, ◌^◌, IfOk, IfSome, OnOk, string_bytes};
ghost use Rattle.chart_picture.specs.Borders.{angle_text, bar_of, bar_text, border_text, box_text, east_text, edge_text, ground_text, head_text, latitude_text, latitudes_text, length_text, longitude_text, longitudes_text, minutes_of, north_text, position_text, scale_text, side_of, south_text, styles_text, view_height, view_text, view_width, west_text};
ghost use Rattle.chart_picture.specs.Frames.{IsFrame};

use crate::frame::Frame;
use plane_geom::Point;
use std::alloc::{AllocError, Global};

/// Lengths of scale bars in metres.
const LENGTHS: [u64; 19] = [
    1_000_000, 500_000, 200_000, 100_000, 50_000, 20_000, 10_000, 5_000, 2_000, 1_000, 500, 200,
    100, 50, 20, 10, 5, 2, 1,
];

#[tactic(auto, unfolding(crate::specs::Borders::view_width))]
fn view_wide(f: Frame) -> u64
    requires { IsFrame f }
    ensures value { result ≡ view_width f }
    ensures small { result < 2 ^ 50 }
{
    f.across + 26 * f.mm
}

#[tactic(auto, unfolding(crate::specs::Borders::view_height))]
fn view_high(f: Frame) -> u64
    requires { IsFrame f }
    ensures value { result ≡ view_height f }
    ensures small { result < 2 ^ 50 }
{
    f.up + 11 * f.mm
}

#[tactic(auto, unfolding(crate::specs::Borders::view_text))]
fn view(alloc: Global, f: Frame) -> Result<String, AllocError>
    requires { IsFrame f }
    ensures { IfOk result (λ s. string_bytes s ≡ view_text f) }
{
    let wide = view_wide(f) * 6 / f.mm;
    let high = view_high(f) * 6 / f.mm;
    format!(in alloc;
        "<svg xmlns=\"http://www.w3.org/2000/svg\" width=\"{wide}\" height=\"{high}\" "
    )
}

#[tactic(auto, unfolding(crate::specs::Borders::box_text))]
fn view_box(alloc: Global, f: Frame) -> Result<String, AllocError>
    requires { IsFrame f }
    ensures { IfOk result (λ s. string_bytes s ≡ box_text f) }
{
    let (left, above) = (13 * f.mm, 3 * f.mm);
    let (wide, high) = (view_wide(f), view_high(f));
    format!(in alloc; "viewBox=\"-{left} -{above} {wide} {high}\">\n")
}

#[tactic(auto, unfolding(crate::specs::Borders::styles_text))]
fn styles(alloc: Global, f: Frame) -> Result<String, AllocError>
    requires { IsFrame f }
    ensures { IfOk result (λ s. string_bytes s ≡ styles_text f) }
{
    let (line, digits, low) = (f.mm / 8 + 1, 2 * f.mm, 14 * f.mm / 10);
    format!(in alloc;
        "<style>svg{{background:#ffffff}}path{{fill-rule:evenodd;stroke-linejoin:round}}.c,.b{{fill:none;stroke:#7d898c;stroke-width:{line}}}.b{{stroke:#07070a}}text{{font:{digits}px sans-serif;text-anchor:middle;fill:#07070a}}.d{{font-size:{low}px}}.u{{text-decoration:underline}}.w{{text-anchor:end}}.e{{text-anchor:start}}</style>\n"
    )
}

#[tactic(auto, unfolding(crate::specs::Borders::ground_text))]
fn ground(alloc: Global, f: Frame) -> Result<String, AllocError>
    ensures { IfOk result (λ s. string_bytes s ≡ ground_text f) }
{
    let (across, up) = (f.across, f.up);
    format!(in alloc; "<rect width=\"{across}\" height=\"{up}\" fill=\"#a3b4b7\"/>\n")
}

/// Puts the head of the picture and the ground.
#[tactic(auto, unfolding(crate::specs::Borders::head_text))]
pub(crate) fn put_head(alloc: Global, f: Frame, out: &mut Vec<u8>) -> Result<(), AllocError>
    requires { IsFrame f }
    ensures { OnOk result (out.new.items ≡ out.old.items ++ head_text f) }
{
    let view = view(alloc, f)?;
    let view_box = view_box(alloc, f)?;
    let styles = styles(alloc, f)?;
    let ground = ground(alloc, f)?;
    out.extend_from_slice(view.as_bytes())?;
    out.extend_from_slice(view_box.as_bytes())?;
    out.extend_from_slice(styles.as_bytes())?;
    out.extend_from_slice(ground.as_bytes())
}

fn north_west(f: Frame) -> Point
    ensures { result ≡ record { x = f.west; y = f.north } }
{
    Point {
        x: f.west,
        y: f.north,
    }
}

fn south_east(f: Frame) -> Point
    ensures { result ≡ record { x = f.east; y = f.south } }
{
    Point {
        x: f.east,
        y: f.south,
    }
}

/// Hundredths of a minute, rounded towards zero.
#[tactic(auto, unfolding(crate::specs::Borders::minutes_of))]
fn minutes(z: i32) -> u64
    ensures { result ≡ minutes_of z }
{
    u64::from(z.unsigned_abs()) * 3 / 5000
}

/// Degrees and minutes of hundredths of a minute.
#[tactic(auto, unfolding(crate::specs::Borders::angle_text))]
fn angle(alloc: Global, h: u64) -> Result<String, AllocError>
    ensures { IfOk result (λ s. string_bytes s ≡ angle_text h) }
{
    let degrees = h / 6000;
    let (tens, ones) = (h % 6000 / 1000, h % 1000 / 100);
    let (tenths, rest) = (h % 100 / 10, h % 10);
    format!(in alloc; "{degrees}&#176;{tens}{ones}.{tenths}{rest}")
}

#[tactic(auto, unfolding(crate::specs::Borders::side_of))]
fn side(below: &'static str, above: &'static str, z: i32) -> &'static str
    ensures { result.now ≡ side_of below.now above.now z }
{
    if z < 0 { below } else { above }
}

#[tactic(auto, unfolding(crate::specs::Borders::position_text))]
fn put_position(
    alloc: Global,
    below: &'static str,
    above: &'static str,
    z: i32,
    out: &mut Vec<u8>,
) -> Result<(), AllocError>
    ensures { OnOk result (out.new.items ≡ out.old.items ++ position_text below.now above.now z) }
{
    let angle = angle(alloc, minutes(z))?;
    out.extend_from_slice(angle.as_bytes())?;
    out.extend_from_slice(side(below, above, z).as_bytes())
}

#[tactic(auto, unfolding(crate::specs::Borders::latitude_text))]
fn put_latitude(alloc: Global, p: Point, out: &mut Vec<u8>) -> Result<(), AllocError>
    ensures { OnOk result (out.new.items ≡ out.old.items ++ latitude_text p.y) }
{
    put_position(alloc, "'S</text>\n", "'N</text>\n", p.y, out)
}

#[tactic(auto, unfolding(crate::specs::Borders::longitude_text))]
fn put_longitude(alloc: Global, p: Point, out: &mut Vec<u8>) -> Result<(), AllocError>
    ensures { OnOk result (out.new.items ≡ out.old.items ++ longitude_text p.x) }
{
    put_position(alloc, "'W</text>\n", "'E</text>\n", p.x, out)
}

#[tactic(auto, unfolding(crate::specs::Borders::north_text))]
fn put_north_start(alloc: Global, f: Frame, out: &mut Vec<u8>) -> Result<(), AllocError>
    requires { IsFrame f }
    ensures { OnOk result (out.new.items ≡ out.old.items ++ north_text f) }
{
    let (left, below) = (f.mm, 2 * f.mm);
    let text = format!(in alloc; "<text class=\"w\" x=\"-{left}\" y=\"{below}\">")?;
    out.extend_from_slice(text.as_bytes())
}

#[tactic(auto, unfolding(crate::specs::Borders::south_text))]
fn put_south_start(alloc: Global, f: Frame, out: &mut Vec<u8>) -> Result<(), AllocError>
    requires { IsFrame f }
    ensures { OnOk result (out.new.items ≡ out.old.items ++ south_text f) }
{
    let (left, below) = (f.mm, f.up);
    let text = format!(in alloc; "<text class=\"w\" x=\"-{left}\" y=\"{below}\">")?;
    out.extend_from_slice(text.as_bytes())
}

#[tactic(auto, unfolding(crate::specs::Borders::west_text))]
fn put_west_start(alloc: Global, f: Frame, out: &mut Vec<u8>) -> Result<(), AllocError>
    requires { IsFrame f }
    ensures { OnOk result (out.new.items ≡ out.old.items ++ west_text f) }
{
    let below = f.up + 3 * f.mm;
    let text = format!(in alloc; "<text class=\"w\" x=\"0\" y=\"{below}\">")?;
    out.extend_from_slice(text.as_bytes())
}

#[tactic(auto, unfolding(crate::specs::Borders::east_text))]
fn put_east_start(alloc: Global, f: Frame, out: &mut Vec<u8>) -> Result<(), AllocError>
    requires { IsFrame f }
    ensures { OnOk result (out.new.items ≡ out.old.items ++ east_text f) }
{
    let (right, below) = (f.across, f.up + 3 * f.mm);
    let text = format!(in alloc; "<text class=\"e\" x=\"{right}\" y=\"{below}\">")?;
    out.extend_from_slice(text.as_bytes())
}

#[tactic(auto, unfolding(crate::specs::Borders::edge_text))]
fn put_edge(alloc: Global, f: Frame, out: &mut Vec<u8>) -> Result<(), AllocError>
    ensures { OnOk result (out.new.items ≡ out.old.items ++ edge_text f) }
{
    let (across, up) = (f.across, f.up);
    let text = format!(in alloc; "<rect class=\"b\" width=\"{across}\" height=\"{up}\"/>\n")?;
    out.extend_from_slice(text.as_bytes())
}

#[tactic(auto, unfolding(crate::specs::Borders::latitudes_text))]
fn put_latitudes(alloc: Global, f: Frame, out: &mut Vec<u8>) -> Result<(), AllocError>
    requires { IsFrame f }
    ensures { OnOk result (out.new.items ≡ out.old.items ++ latitudes_text f) }
{
    put_north_start(alloc, f, out)?;
    put_latitude(alloc, north_west(f), out)?;
    put_south_start(alloc, f, out)?;
    put_latitude(alloc, south_east(f), out)?;
    Ok(())
}

#[tactic(auto, unfolding(crate::specs::Borders::longitudes_text))]
fn put_longitudes(alloc: Global, f: Frame, out: &mut Vec<u8>) -> Result<(), AllocError>
    requires { IsFrame f }
    ensures { OnOk result (out.new.items ≡ out.old.items ++ longitudes_text f) }
{
    put_west_start(alloc, f, out)?;
    put_longitude(alloc, north_west(f), out)?;
    put_east_start(alloc, f, out)?;
    put_longitude(alloc, south_east(f), out)?;
    Ok(())
}

/// The longest length that is at most half of the metres.
#[tactic(auto, unfolding(crate::specs::Borders::bar_of))]
fn bar_length(metres: u64) -> Option<u64>
    ensures value { result ≡ bar_of metres }
    ensures small { IfSome result (λ m. m ≤ metres) }
{
    let half = metres / 2;
    LENGTHS.iter().copied().find(|m| *m <= half)
}

#[tactic(auto, unfolding(crate::specs::Borders::length_text))]
fn length(alloc: Global, m: u64) -> Result<String, AllocError>
    ensures { IfOk result (λ s. string_bytes s ≡ length_text m) }
{
    if m < 1000 {
        return format!(in alloc; "{m} m</text>\n");
    }
    let km = m / 1000;
    format!(in alloc; "{km} km</text>\n")
}

#[tactic(auto, unfolding(crate::specs::Borders::bar_text))]
fn bar(alloc: Global, f: Frame, m: u64) -> Result<String, AllocError>
    requires frame { IsFrame f }
    requires small { m ≤ 2 ^ 26 }
    ensures { IfOk result (λ s. string_bytes s ≡ bar_text f m) }
{
    let (line, below) = (f.up + 4 * f.mm, f.up + 7 * f.mm);
    let long = m * 10_000_000_000 / (11_112 * f.longest);
    format!(in alloc;
        "<path class=\"b\" d=\"M0 {line}H{long}\"/>\n<text class=\"e\" x=\"0\" y=\"{below}\">"
    )
}

/// Puts a scale bar of a length.
#[tactic(auto, unfolding(crate::specs::Borders::scale_text))]
fn put_scale(
    alloc: Global,
    f: Frame,
    long: Option<u64>,
    out: &mut Vec<u8>,
) -> Result<(), AllocError>
    requires frame { IsFrame f }
    requires small { IfSome long (λ m. m ≤ 2 ^ 26) }
    ensures { OnOk result (out.new.items ≡ out.old.items ++ scale_text f long) }
{
    let Some(m) = long else {
        return Ok(());
    };
    let bar = bar(alloc, f, m)?;
    let length = length(alloc, m)?;
    out.extend_from_slice(bar.as_bytes())?;
    out.extend_from_slice(length.as_bytes())
}

/// Puts the frame with degrees and minutes, and the scale bar.
#[tactic(auto, unfolding(crate::specs::Borders::border_text))]
pub(crate) fn put_border(alloc: Global, f: Frame, out: &mut Vec<u8>) -> Result<(), AllocError>
    requires { IsFrame f }
    ensures { OnOk result (out.new.items ≡ out.old.items ++ border_text f) }
{
    put_edge(alloc, f, out)?;
    put_latitudes(alloc, f, out)?;
    put_longitudes(alloc, f, out)?;
    put_scale(alloc, f, bar_length(f.metres), out)?;
    Ok(())
}
