// Access to edges, their nodes and faces.
ghost use Rattle.std.specs.Prelude.{◌≡◌, ◌<◌, ◌≤◌, ◌^◌, length};
ghost use Rattle.boundary_arcs.specs.Edges.{arc_of};
ghost use Rattle.boundary_arcs.specs.Views.{arcs_view};

use crate::{Arc, Arcs};
use plane_geom::Point;

impl Arcs {
    /// How many edges there are, at most 2^27.
    pub fn count(&self) -> usize
        ensures value { result ≡ length (arcs_view self.now).arcs }
        ensures few { result ≤ 2 ^ 27 }
    {
        self.arcs.len()
    }

    /// An edge by its number.
    pub fn arc(&self, k: usize) -> &Arc
        requires { k < length (arcs_view self.now).arcs }
        ensures { result.now ≡ arc_of (arcs_view self.now).arcs k }
    {
        &self.arcs[k]
    }

    /// The nodes where edges begin and end, by their numbers. No two lie at one place.
    pub fn nodes(&self) -> &[Point]
        ensures { result.now ≡ (arcs_view self.now).nodes }
    {
        self.nodes.as_slice()
    }

    /// How many faces there are on the sides of edges.
    pub fn faces(&self) -> u32
        ensures { result ≡ (arcs_view self.now).faces }
    {
        self.faces
    }
}
