// Marks for a list of outlines.
ghost use Rattle.chart_model.specs.Marks.{set_marks, turned_at};
ghost use Rattle.std.specs.Prelude.{◌≡◌, Bool, List, false, IfOk, length, replicate};

use std::alloc::{AllocError, Global};
use std::marker::Model;

/// A mark for each of a list of outlines, and how many are set.
///
/// Clauses see it as the marks.
#[derive(Drop)]
pub(crate) struct Marks {
    odd: Vec<bool>,
    count: usize,
}

impl Model for Marks {
    ghost Value = { List Bool };

    ghost view = { λ s. s.odd.items };

    ghost invariant = { λ s. s.count ≡ set_marks s.odd.items };
}

impl Marks {
    /// Marks of which none is set.
    pub fn none(alloc: Global, n: usize) -> Result<Marks, AllocError>
        ensures { IfOk result (λ marks. marks ≡ replicate n false) }
    {
        let odd = vec![in alloc; false; n]?;
        Ok(Marks { odd, count: 0 })
    }

    pub fn len(&self) -> usize
        ensures { result ≡ length self.now }
    {
        self.odd.len()
    }

    pub fn count(&self) -> usize
        ensures { result ≡ set_marks self.now }
    {
        self.count
    }

    /// Turns the mark at a place over, if there is one.
    pub fn turn(&mut self, place: usize)
        ensures { self.new ≡ turned_at self.old place }
    {
        if place >= self.odd.len() {
            return;
        }
        if self.odd[place] {
            self.odd[place] = false;
            self.count -= 1;
        } else {
            self.odd[place] = true;
            self.count += 1;
        }
    }
}
