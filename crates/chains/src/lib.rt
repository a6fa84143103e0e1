//! Tracing of drawn lines: lines between numbered points, each with what lies on its two sides, are put together to
//! chains that lead from junction to junction or round to where they began. Time is linear in lines and points.
#![tactic(auto)]

ghost use Rattle.std.specs.Prelude.{◌≡◌, ℕ, ◌<◌, [], false, length, IfOk, OnOk, map, slice_index_or};
ghost use Rattle.chains.specs.Nets.{IsNet, AreChains, begin_of, ends_at};
ghost use Rattle.chains.specs.Tracing.{Notes, IsUsed, IsSettled, IsTrace, Takes, MayBegin, Rests, HasOpen};

mod spots;

use spots::{Spot, begins_between, note_halves, onward};
use std::alloc::{AllocError, Global};

/// A drawn line between two points, with the number of the face on each side where there is one.
#[derive(Clone, Copy)]
pub struct Line {
    /// The point that it leads from.
    pub begin: u32,
    /// The point that it leads to.
    pub end: u32,
    /// The face on its left, walked from its beginning.
    pub left: Option<u32>,
    /// The face on its right.
    pub right: Option<u32>,
}

/// A line, walked from its beginning or back.
#[derive(Clone, Copy)]
pub struct Half {
    /// The number of the line.
    pub line: u32,
    /// Whether it is walked from its beginning.
    pub forward: bool,
}

/// Walks from `start`, whose line isn't taken yet, until no line goes on that isn't taken.
fn follow(
    lines: &[Line],
    spots: &[Spot],
    used: &mut Vec<bool>,
    path: &mut Vec<Half>,
    start: Half,
) -> Result<(), AllocError>
    requires net { IsNet lines.now (length spots.now) }
    requires noted { Notes lines.now (length spots.now) (length lines.now) spots.now }
    requires inside { start.line < length lines.now }
    requires new { slice_index_or used.old.items start.line false ≡ false }
    requires wide { length used.old.items ≡ length lines.now }
    requires settled { IsSettled lines.now used.old.items }
    requires begins { MayBegin lines.now used.old.items start }
    requires empty { path.old.items ≡ [] }
    ensures traced { OnOk result (IsTrace lines.now path.new.items) }
    ensures takes { OnOk result (Takes lines.now used.old.items path.new.items used.new.items) }
    ensures settled { OnOk result (IsSettled lines.now used.new.items) }
    ensures taken { OnOk result (IsUsed used.new.items start.line) }
{
    let mut half = start;
    while !used[half.line as usize] {
        used[half.line as usize] = true;
        path.push(half)?;
        half = onward(lines, spots, half);
    }
    Ok(())
}

/// Makes the chain that begins with `start`, unless its line is taken.
fn take_chain(
    lines: &[Line],
    spots: &[Spot],
    used: &mut Vec<bool>,
    path: &mut Vec<Half>,
    chains: &mut Vec<Vec<Half>>,
    start: Half,
) -> Result<(), AllocError>
    requires net { IsNet lines.now (length spots.now) }
    requires noted { Notes lines.now (length spots.now) (length lines.now) spots.now }
    requires inside { start.line < length lines.now }
    requires begins { MayBegin lines.now used.old.items start }
    requires rests { Rests lines.now used.old.items path.old.items (map (λ c. c.items) chains.old.items) }
    ensures rests { OnOk result (Rests lines.now used.new.items path.new.items (map (λ c. c.items) chains.new.items)) }
    ensures grows { OnOk result ((a : ℕ) → IsUsed used.old.items a → IsUsed used.new.items a) }
    ensures taken { OnOk result (IsUsed used.new.items start.line) }
{
    if !used[start.line as usize] {
        follow(lines, spots, used, path, start)?;
        let chain = path.split_off(0)?;
        chains.push(chain)?;
    }
    Ok(())
}

/// Makes the chain that begins with `start`, if it begins at a junction.
fn take_from_junction(
    lines: &[Line],
    spots: &[Spot],
    used: &mut Vec<bool>,
    path: &mut Vec<Half>,
    chains: &mut Vec<Vec<Half>>,
    start: Half,
) -> Result<(), AllocError>
    requires net { IsNet lines.now (length spots.now) }
    requires noted { Notes lines.now (length spots.now) (length lines.now) spots.now }
    requires inside { start.line < length lines.now }
    requires rests { Rests lines.now used.old.items path.old.items (map (λ c. c.items) chains.old.items) }
    ensures rests { OnOk result (Rests lines.now used.new.items path.new.items (map (λ c. c.items) chains.new.items)) }
    ensures grows { OnOk result ((a : ℕ) → IsUsed used.old.items a → IsUsed used.new.items a) }
    ensures taken { OnOk result ((ends_at lines.now (begin_of lines.now start) ≡ 2 → ⊥) → IsUsed used.new.items start.line) }
{
    if !begins_between(lines, spots, start) {
        take_chain(lines, spots, used, path, chains, start)?;
    }
    Ok(())
}

/// Makes the chains that begin at junctions.
fn take_open_chains(
    lines: &[Line],
    spots: &[Spot],
    used: &mut Vec<bool>,
    path: &mut Vec<Half>,
    chains: &mut Vec<Vec<Half>>,
) -> Result<(), AllocError>
    requires net { IsNet lines.now (length spots.now) }
    requires noted { Notes lines.now (length spots.now) (length lines.now) spots.now }
    requires rests { Rests lines.now used.old.items path.old.items (map (λ c. c.items) chains.old.items) }
    ensures rests { OnOk result (Rests lines.now used.new.items path.new.items (map (λ c. c.items) chains.new.items)) }
    ensures taken { OnOk result (HasOpen lines.now (length lines.now) used.new.items) }
{
    for i in 0..lines.len() {
        let line = i as u32;
        let forth = Half {
            line,
            forward: true,
        };
        take_from_junction(lines, spots, used, path, chains, forth)?;
        let reverse = Half {
            line,
            forward: false,
        };
        take_from_junction(lines, spots, used, path, chains, reverse)?;
    }
    Ok(())
}

/// Makes the chains that are left: all of them are closed.
fn take_closed_chains(
    lines: &[Line],
    spots: &[Spot],
    used: &mut Vec<bool>,
    path: &mut Vec<Half>,
    chains: &mut Vec<Vec<Half>>,
) -> Result<(), AllocError>
    requires net { IsNet lines.now (length spots.now) }
    requires noted { Notes lines.now (length spots.now) (length lines.now) spots.now }
    requires rests { Rests lines.now used.old.items path.old.items (map (λ c. c.items) chains.old.items) }
    requires opened { HasOpen lines.now (length lines.now) used.old.items }
    ensures rests { OnOk result (Rests lines.now used.new.items path.new.items (map (λ c. c.items) chains.new.items)) }
    ensures taken { OnOk result ((a : ℕ) → a < length lines.now → IsUsed used.new.items a) }
{
    for i in 0..lines.len() {
        let start = Half {
            line: i as u32,
            forward: true,
        };
        take_chain(lines, spots, used, path, chains, start)?;
    }
    Ok(())
}

/// Puts lines between the points 0 to `points - 1` together to chains. Each line has two different sides, and taken
/// with any face on the right, as many lines begin as end at each point. A chain is the list of its lines' halves in
/// the order of the walk: it leads from junction to junction, or round to the point where it began, and has the same
/// faces on its sides all along. Each line is in one chain, once. It takes 20 bytes a point and 9 a line while it runs,
/// and fails only for want of memory.
pub fn trace_chains(
    alloc: Global,
    lines: &[Line],
    points: usize,
) -> Result<Vec<Vec<Half>>, AllocError>
    requires { IsNet lines.now points }
    ensures { IfOk result (λ chains. AreChains lines.now (map (λ c. c.items) chains.items)) }
{
    let spots = note_halves(alloc, lines, points)?;
    let mut used = vec![in alloc; false; lines.len()]?;
    let mut path: Vec<Half> = Vec::with_capacity(alloc, lines.len())?;
    let mut chains: Vec<Vec<Half>> = Vec::new(alloc);
    take_open_chains(lines, &spots, &mut used, &mut path, &mut chains)?;
    take_closed_chains(lines, &spots, &mut used, &mut path, &mut chains)?;
    Ok(chains)
}
