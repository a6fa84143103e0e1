// The faces of a field. What can be asked of them stands in `access`.
ghost use Rattle.face_fill.specs.Numbered.{AreSound, view_of};

use mesh_definitions::Class;

/// The faces of the pieces of a generalised grid, numbered from 0 without a gap, with the class and the block of each.
///
/// There are at most 2^26 faces.
#[derive(Drop)]
pub struct Faces {
    pub(crate) rows: usize,
    pub(crate) cols: usize,
    pub(crate) starts: Vec<u32>,
    pub(crate) counts: Vec<u8>,
    pub(crate) numbers: Vec<u32>,
    pub(crate) classes: Vec<Class>,
    pub(crate) blocks: Vec<u32>,
    pub ghost sound: { AreSound (view_of rows cols starts.items counts.items numbers.items classes.items blocks.items) },
}
