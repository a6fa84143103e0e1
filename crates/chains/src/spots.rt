//! What lies at each point, and which half goes on from another.

ghost use Rattle.std.specs.Prelude.{◌≡◌, ◌<◌, length, IfOk, vec_len, IsTrue, ◌↔◌};
ghost use Rattle.chains.specs.Nets.{IsNet, begin_of, end_of, ends_at};
ghost use Rattle.chains.specs.Tracing.{with_half, noted, back, Notes, Leaves};

use crate::{Half, Line};
use std::alloc::{AllocError, Global};

/// What lies at a point: the halves that begin there, where these are no more than two.
#[derive(Clone, Copy)]
pub(crate) enum Spot {
    Empty,
    One(Half),
    Two(Half, Half),
    More,
}

/// Where a half begins.
fn begin_of(lines: &[Line], half: Half) -> usize
    requires { half.line < length lines.now }
    ensures { result ≡ begin_of lines.now half }
{
    let line = lines[half.line as usize];
    if half.forward {
        line.begin as usize
    } else {
        line.end as usize
    }
}

/// Where a half ends.
fn end_of(lines: &[Line], half: Half) -> usize
    requires { half.line < length lines.now }
    ensures { result ≡ end_of lines.now half }
{
    let line = lines[half.line as usize];
    if half.forward {
        line.end as usize
    } else {
        line.begin as usize
    }
}

/// What lies at a point once one more half begins there.
fn with_half(spot: Spot, half: Half) -> Spot
    ensures { result ≡ with_half half spot }
{
    match spot {
        Spot::Empty => Spot::One(half),
        Spot::One(first) => Spot::Two(half, first),
        Spot::Two(_, _) => Spot::More,
        Spot::More => Spot::More,
    }
}

/// Notes that a half begins at a point.
fn note(spots: &mut Vec<Spot>, point: usize, half: Half)
    requires { point < vec_len spots.old }
    ensures { spots.new.items ≡ noted spots.old.items point half }
{
    let spot = with_half(spots[point], half);
    spots[point] = spot;
}

/// Notes which halves begin at each point.
pub(crate) fn note_halves(
    alloc: Global,
    lines: &[Line],
    points: usize,
) -> Result<Vec<Spot>, AllocError>
    requires { IsNet lines.now points }
    ensures { IfOk result (λ spots. Notes lines.now points (length lines.now) spots.items) }
{
    let mut spots = vec![in alloc; Spot::Empty; points]?;
    for i in 0..lines.len() {
        let line = i as u32;
        let forth = Half {
            line,
            forward: true,
        };
        note(&mut spots, begin_of(lines, forth), forth);
        let reverse = Half {
            line,
            forward: false,
        };
        note(&mut spots, begin_of(lines, reverse), reverse);
    }
    Ok(spots)
}

/// Whether one half is the other, walked back.
fn is_back(half: Half, other: Half) -> bool
    ensures { IsTrue result ↔ (half ≡ back other) }
{
    half.line == other.line && half.forward != other.forward
}

/// The half that goes on where another ends, or that half itself, where it doesn't end at a point with two line ends.
pub(crate) fn onward(lines: &[Line], spots: &[Spot], half: Half) -> Half
    requires net { IsNet lines.now (length spots.now) }
    requires noted { Notes lines.now (length spots.now) (length lines.now) spots.now }
    requires inside { half.line < length lines.now }
    ensures { Leaves lines.now half result }
{
    match spots[end_of(lines, half)] {
        Spot::Two(first, second) => if is_back(first, half) { second } else { first },
        _ => half,
    }
}

/// Whether a half begins at a point with two line ends.
pub(crate) fn begins_between(lines: &[Line], spots: &[Spot], half: Half) -> bool
    requires net { IsNet lines.now (length spots.now) }
    requires noted { Notes lines.now (length spots.now) (length lines.now) spots.now }
    requires inside { half.line < length lines.now }
    ensures { IsTrue result ↔ (ends_at lines.now (begin_of lines.now half) ≡ 2) }
{
    matches!(spots[begin_of(lines, half)], Spot::Two(_, _))
}
