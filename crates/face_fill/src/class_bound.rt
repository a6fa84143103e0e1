// A bound of a rectangle's need by classes: no face has more sub-segments at its outline than all pieces of its class together.
ghost use Rattle.std.specs.Prelude.{◌≡◌, ℕ, ◌<◌, ◌≤◌, IfOk, IsTrue};
ghost use Rattle.mesh_definitions.specs.Blocks.{IsNeed};
ghost use Rattle.face_fill.specs.Classed.{AreClassed, class_by, number_of_class};
ghost use Rattle.face_fill.specs.BandTableView.{field_by};
ghost use Rattle.face_fill.specs.PieceTableView.{IsPieceTable, block_by, item_count};

use crate::face_numbers::class_of;
use crate::needs::{NEED_LIMIT, greatest};
use crate::tables::{PieceTable, Tally};
use crate::tally::tally_all;
use mesh_definitions::Class;
use std::alloc::{AllocError, Global};

// How many classes there are: unsurveyed ground, and the 21 bands that at most 20 levels part.
const CLASSES: usize = 22;

// The number of the class of an item: 0 for unsurveyed ground, else one more than its band.
fn class_number(table: &PieceTable, item: usize) -> u32
    requires whole { IsPieceTable table.now }
    requires item { item < item_count table.now }
    ensures value { result ≡ number_of_class (class_by table.now item) }
    ensures few { result < 22 }
{
    let (tri, offset) = table.spot(item);
    match class_of(table, tri, offset) {
        Class::Unsurveyed => 0,
        Class::Band(band) => band + 1,
    }
}

// The number of each item's class.
fn class_numbers(alloc: Global, table: &PieceTable) -> Result<Vec<u32>, AllocError>
    requires { IsPieceTable table.now }
    ensures { IfOk result (λ numbers. AreClassed table.now (item_count table.now) numbers.items) }
{
    let count = table.items.owners.len();
    let mut numbers = Vec::with_capacity(alloc, count)?;
    for item in 0..count {
        numbers.push(class_number(table, item))?;
    }
    Ok(numbers)
}

// Whether a rectangle's need is seen to be small without its faces: where the outline and all sub-segments at the
// outlines of each class are at most 12,000, its need is.
pub(crate) fn is_small(alloc: Global, table: &PieceTable) -> Result<bool, AllocError>
    requires whole { IsPieceTable table.now }
    requires one { block_by table.now.blocks ≡ (λ i j. 0) }
    ensures { IfOk result (λ b. IsTrue b → (n : ℕ) → IsNeed (field_by table.now.nodes) table.now.nodes.rect n → n ≤ 12000) }
{
    let numbers = class_numbers(alloc, table)?;
    let counts = vec![in alloc; 0; CLASSES]?;
    let mut tally = Tally { counts, outline: 0 };
    tally_all(table, &numbers, &mut tally);
    Ok(u64::from(greatest(&tally)) <= NEED_LIMIT)
}
