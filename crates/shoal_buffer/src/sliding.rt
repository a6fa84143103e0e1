// The window of rows, which slides down the grid.
ghost use Rattle.std.specs.Prelude.{◌≡◌, ◌⊎◌, ◌+◌, ◌*◌, ◌<◌, ◌≤◌, [], IfOk, OnOk, IfSome, IsNone};
ghost use Rattle.shoal_buffer.specs.Passes.{node_key, IsRowOf, first_row, IsWindow, IsWindowAt};

use crate::pass::{Pass, Window};
use circular_buffer::HeapCircularBuffer;
use std::alloc::{AllocError, Global};

impl Pass<'_> {
    // The key of a node's value.
    fn key_at(&self, row: usize, col: usize) -> i32
        requires row { row < self.now.discs.rows }
        requires col { col < self.now.discs.cols }
        ensures { result ≡ node_key self.now row col }
    {
        self.pick.key_of(self.values[row * self.discs.cols + col])
    }

    // The keys of a row.
    fn keys_of_row(&self, alloc: Global, row: usize) -> Result<Vec<i32>, AllocError>
        requires { row < self.now.discs.rows }
        ensures { IfOk result (λ v. IsRowOf self.now row v.items) }
    {
        let mut keys = Vec::with_capacity(alloc, self.discs.cols)?;
        for col in 0..self.discs.cols {
            keys.push_reserved(self.key_at(row, col));
        }
        Ok(keys)
    }

    // Lets the next row into the window. A full window gives up its first row.
    fn let_in(&self, alloc: Global, window: &mut Window) -> Result<(), AllocError>
        requires window { IsWindow self.now window.old }
        requires more { window.old.next < self.now.discs.rows }
        ensures window { OnOk result (IsWindow self.now window.new) }
        ensures next { OnOk result (window.new.next ≡ window.old.next + 1) }
    {
        let row = self.keys_of_row(alloc, window.next)?;
        window.rows.push_back(row);
        window.next += 1;
        Ok(())
    }

    // Slides the window down to a row.
    pub(crate) fn slide(
        &self,
        alloc: Global,
        window: &mut Window,
        row: usize,
    ) -> Result<(), AllocError>
        requires row { row < self.now.discs.rows }
        requires window { IsWindow self.now window.old }
        requires behind { window.old.next ≤ row + self.now.discs.away }
        ensures window { OnOk result (IsWindowAt self.now window.new row) }
        ensures next { OnOk result (window.new.next ≤ row + self.now.discs.away + 1) }
    {
        while window.next < self.discs.rows && window.next <= row + self.discs.away {
            self.let_in(alloc, window)?;
        }
        Ok(())
    }

    // A row's keys, where the window holds them.
    pub(crate) fn held<'w>(&self, window: &'w Window, row: usize) -> Option<&'w [i32]>
        requires { IsWindow self.now window.now }
        ensures row { IfSome result (λ r. IsRowOf self.now row r.now) }
        ensures none { IsNone result → (row < first_row window.now) ⊎ (window.now.next ≤ row) }
    {
        let first = window.next - window.rows.len();
        if row < first {
            return None;
        }
        match window.rows.get(row - first) {
            Some(keys) => Some(keys.as_slice()),
            None => None,
        }
    }
}

// A window for discs that reach so many rows away, before the first row.
pub(crate) fn empty_window(alloc: Global, away: usize) -> Result<Window, AllocError>
    requires { away ≤ 64000 }
    ensures capacity { IfOk result (λ w. w.rows.capacity ≡ 2 * away + 1) }
    ensures empty { IfOk result (λ w. w.rows.items ≡ []) }
    ensures next { IfOk result (λ w. w.next ≡ 0) }
{
    let rows = HeapCircularBuffer::with_capacity(alloc, 2 * away + 1)?;
    Ok(Window { rows, next: 0 })
}
