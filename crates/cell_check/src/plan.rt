// The places of a chart at which lines begin or end, in the order in which the sweep comes to them.
use crate::line::Line;
use crate::order::from_below;
use plane_geom::Point;
use std::alloc::{AllocError, Global};

/// An end of a line that rises.
#[derive(Clone, Copy)]
struct End {
    at: Point,
    owner: usize,
    begins: bool,
}

/// A stretch of one height where lines begin or end, from its westernmost point to its easternmost; `begun` lines begin
/// at it or before it. What has a gap inside west of it is the same below and above it.
#[derive(Clone, Copy)]
pub(crate) struct Stretch {
    pub west: Point,
    pub east: Point,
    pub begun: usize,
}

fn ends_of(alloc: Global, rising: &[Line]) -> Result<Vec<End>, AllocError> {
    let mut ends = Vec::new(alloc);
    for line in rising {
        let s = from_below(line.seg);
        let owner = line.owner;
        ends.push(End {
            at: s.a,
            owner,
            begins: true,
        })?;
        ends.push(End {
            at: s.b,
            owner,
            begins: false,
        })?;
    }
    ends.sort_unstable_by_key(|end| (end.at.y, end.at.x));
    Ok(ends)
}

/// Takes an outline out of a list, or puts it in where it isn't there.
fn turn(open: &mut Vec<usize>, owner: usize) -> Result<(), AllocError> {
    for place in 0..open.len() {
        if open[place] == owner {
            let _ = open.swap_remove(place);
            return Ok(());
        }
    }
    open.push(owner)?;
    Ok(())
}

/// The stretches from south to north, those of one height from west to east. A stretch goes on as long as some outline
/// has an odd number of ends in it.
pub(crate) fn stretches(alloc: Global, rising: &[Line]) -> Result<Vec<Stretch>, AllocError> {
    let ends = ends_of(alloc, rising)?;
    let mut stretches = Vec::new(alloc);
    let mut open = Vec::new(alloc);
    let mut begun = 0usize;
    let Some(first) = ends.first() else {
        return Ok(stretches);
    };
    let mut west = first.at;
    let mut east = first.at;
    for end in &ends {
        let at = end.at;
        if at.y != east.y || (open.is_empty() && at.x != east.x) {
            stretches.push(Stretch { west, east, begun })?;
            west = at;
        }
        east = at;
        turn(&mut open, end.owner)?;
        if end.begins {
            begun = begun.saturating_add(1);
        }
    }
    stretches.push(Stretch { west, east, begun })?;
    Ok(stretches)
}
