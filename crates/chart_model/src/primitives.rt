// What features point at, by their geometric primitives.
ghost use Rattle.chart_model.specs.Whole.{is_made};
ghost use Rattle.s57_codes.specs.Catalogue.{prim_area, prim_line, prim_point, rcnm_connected_node, rcnm_edge, rcnm_isolated_node};
ghost use Rattle.std.specs.List.{list_all};
ghost use Rattle.std.specs.Prelude.{◌≡◌, ◌&&◌, ◌||◌, cond, eqb};

use crate::{Feature, Pointer};
use s57_codes::code::{AREA, CONNECTED_NODE, EDGE, ISOLATED_NODE, LINE, NULL, POINT};

fn are_nodes(pointers: &[Pointer]) -> bool
    ensures { result ≡ list_all (λ p. eqb p.rcnm rcnm_isolated_node || eqb p.rcnm rcnm_connected_node) pointers.now }
{
    pointers
        .iter()
        .all(|p| p.rcnm == ISOLATED_NODE || p.rcnm == CONNECTED_NODE)
}

fn are_edges(pointers: &[Pointer]) -> bool
    ensures { result ≡ list_all (λ p. eqb p.rcnm rcnm_edge) pointers.now }
{
    pointers.iter().all(|p| p.rcnm == EDGE)
}

/// Whether a feature with this PRIM is made of edges.
fn has_edges(prim: u8) -> bool
    ensures { result ≡ (eqb prim prim_line || eqb prim prim_area) }
{
    prim == LINE || prim == AREA
}

/// Whether all pointers name what a feature with this PRIM is made of.
fn are_of(prim: u8, pointers: &[Pointer]) -> bool
    ensures { result ≡ cond (eqb prim prim_point) (list_all (λ p. eqb p.rcnm rcnm_isolated_node || eqb p.rcnm rcnm_connected_node) pointers.now)
        ((eqb prim prim_line || eqb prim prim_area) && list_all (λ p. eqb p.rcnm rcnm_edge) pointers.now) }
{
    if prim == POINT {
        are_nodes(pointers)
    } else {
        has_edges(prim) && are_edges(pointers)
    }
}

impl Feature {
    /// Whether it points at what its PRIM is made of (IHO S-57 Edition 3.1, Part 3, 4.2.1): a point at nodes, a line or an
    /// area at edges, each at one or more; a feature without geometry (PRIM 255) points at nothing. No feature of another
    /// PRIM is made of anything. `Chart::new` asks for it of each feature.
    pub fn is_made(&self) -> bool
        ensures { result ≡ is_made self.now }
    {
        let pointers = self.pointers.as_slice();
        if self.prim == NULL {
            pointers.is_empty()
        } else {
            !pointers.is_empty() && are_of(self.prim, pointers)
        }
    }
}
