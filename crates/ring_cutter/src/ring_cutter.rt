//! The table that cutting keeps between calls.

use crate::{Hop, cut};
use std::alloc::{AllocError, Global};
use std::marker::Model;
use std::mem;

/// Cuts arcs between a number of points into rings, one list of arcs after another. It is made once, with 16 bytes a
/// point, and each call takes time and memory for its own arcs alone, however many points there are. In contracts it
/// is the number of points.
#[derive(Drop)]
pub struct Cutter {
    table: Vec<Option<usize>>,
}

impl Model for Cutter {
    ghost use Rattle.std.specs.Prelude.{ℕ, length};
    ghost use Rattle.ring_cutter.specs.Cutting.{IsClear};

    ghost Value = { ℕ };

    ghost view = { λ c. length c.table.items };

    ghost invariant = { λ c. IsClear c.table.items };
}

impl Cutter {
    ghost use Rattle.std.specs.Prelude.{◌≡◌, IfOk, OnOk, OnErr, map};
    ghost use Rattle.ring_cutter.specs.Rings.{IsBalanced, CutsIntoRings};

    /// A cutter for arcs between the points 0 to `points - 1`.
    pub fn new(alloc: Global, points: usize) -> Result<Self, AllocError>
        ensures { IfOk result (λ cutter. cutter ≡ points) }
    {
        let table: Vec<Option<usize>> = vec![in alloc; None; points]?;
        Ok(Cutter { table })
    }

    /// Cuts arcs into closed rings that pass no point twice; as many arcs have to begin as end at each point.
    /// A ring is the list of its arcs' numbers in the order of the walk, and each arc is in one ring, once.
    /// It fails only for want of memory, and has then let its table go: it is a cutter for no points from then on.
    pub fn cut_into_rings(
        &mut self,
        alloc: Global,
        hops: &[Hop],
    ) -> Result<Vec<Vec<usize>>, AllocError>
        requires { IsBalanced hops.now self.old }
        ensures rings { IfOk result (λ rings. CutsIntoRings hops.now (map (λ r. r.items) rings.items)) }
        ensures kept { OnOk result (self.new ≡ self.old) }
        ensures let_go { OnErr result (self.new ≡ 0) }
    {
        let mut table = mem::replace(&mut self.table, Vec::new(alloc));
        let rings = cut(alloc, hops, &mut table)?;
        self.table = table;
        Ok(rings)
    }
}
