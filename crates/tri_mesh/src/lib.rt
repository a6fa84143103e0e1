//! The mesh of a generalised grid: crossings, chords, pieces of triangles, parts of links, triangles beside links and by
//! number, blocks of cells, and the ground at a point.
#![tactic(auto)]

mod blocks;
mod chords;
mod classes;
mod corners;
mod crossing_rule;
mod cutting;
mod ground;
mod kinds;
mod laws;
mod lines;
mod links;
mod triangles;

pub use blocks::Blocks;
pub use chords::chord;
pub use corners::pieces;
pub use crossing_rule::slots;
pub use ground::class_at;
pub use kinds::{Ground, LinkParts, MeshEdge, Pieces};
pub use laws::chord_laws;
pub use links::{ends_of, part, parts};
pub use mesh_definitions::{Class, Link, Rect, Tri, Way};
pub use triangles::{numbered_tri, tri_beside, tri_number};
