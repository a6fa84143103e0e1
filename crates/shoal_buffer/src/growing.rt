// How the cores of a row's discs grow to the discs.
//
// Chords get narrower from a disc's middle row outwards. So rows are taken in from the middle
// outwards, and before the next two, all that was taken in so far is widened by the columns by
// which their chord is narrower: in the end each row has been widened by its own chord. On the way
// there is one row of least keys, where a table of those of every chord would take megabytes.
ghost use Rattle.std.specs.Prelude.{◌≡◌, ◌+◌, ◌<◌, ◌≤◌, length, IfOk};
ghost use Rattle.shoal_buffer.specs.Passes.{IsChordOf, IsWindowAt, AreCoresOf};

use crate::discs::chord;
use crate::pass::{Cores, Pass, Window};
use crate::rows::{take_in, widen};
use std::alloc::{AllocError, Global};
use std::mem::swap;

impl Pass<'_> {
    // Begins with a row's own nodes: they alone keep the disc's widest chord in reserve.
    fn begin(&self, window: &Window, cores: &mut Cores, row: usize)
        requires row { row < self.now.discs.rows }
        requires window { IsWindowAt self.now window.now row }
        requires least { length cores.old.least.items ≡ self.now.discs.cols }
        requires spare { length cores.old.spare.items ≡ self.now.discs.cols }
        ensures cores { AreCoresOf self.now cores.new }
        ensures row { cores.new.row ≡ row }
        ensures north { cores.new.north ≡ 0 }
        ensures south { cores.new.south ≡ 0 }
        ensures chord { IsChordOf self.now 0 cores.new.reserve }
    {
        cores.row = row;
        cores.north = 0;
        cores.south = 0;
        cores.reserve = self.discs.across;
        if let Some(own) = self.held(window, row) {
            cores.least.copy_from_slice(own);
        }
    }

    // Widens cores, until so many columns are left in reserve.
    fn widen(&self, cores: &mut Cores, reserve: usize)
        requires cores { AreCoresOf self.now cores.old }
        requires level { cores.old.north ≡ cores.old.south }
        requires less { reserve ≤ cores.old.reserve }
        requires chord { IsChordOf self.now cores.old.south cores.old.reserve }
        ensures cores { AreCoresOf self.now cores.new }
        ensures row { cores.new.row ≡ cores.old.row }
        ensures north { cores.new.north ≡ cores.old.north }
        ensures south { cores.new.south ≡ cores.old.south }
        ensures reserve { cores.new.reserve ≡ reserve }
    {
        while cores.reserve > reserve {
            widen(&cores.least, &mut cores.spare);
            swap(&mut cores.least, &mut cores.spare);
            cores.reserve -= 1;
        }
    }

    // Takes the next row north into cores, where the grid has it.
    fn take_north(&self, window: &Window, cores: &mut Cores)
        requires window { IsWindowAt self.now window.now cores.old.row }
        requires cores { AreCoresOf self.now cores.old }
        requires near { cores.old.north < self.now.discs.away }
        requires chord { IsChordOf self.now (cores.old.north + 1) cores.old.reserve }
        ensures cores { AreCoresOf self.now cores.new }
        ensures row { cores.new.row ≡ cores.old.row }
        ensures north { cores.new.north ≡ cores.old.north + 1 }
        ensures south { cores.new.south ≡ cores.old.south }
        ensures reserve { cores.new.reserve ≡ cores.old.reserve }
    {
        cores.north += 1;
        if cores.row < cores.north {
            return;
        }
        if let Some(row) = self.held(window, cores.row - cores.north) {
            take_in(&mut cores.least, row);
        }
    }

    // Takes the next row south into cores, where the grid has it.
    fn take_south(&self, window: &Window, cores: &mut Cores)
        requires window { IsWindowAt self.now window.now cores.old.row }
        requires cores { AreCoresOf self.now cores.old }
        requires near { cores.old.south < self.now.discs.away }
        requires chord { IsChordOf self.now (cores.old.south + 1) cores.old.reserve }
        ensures cores { AreCoresOf self.now cores.new }
        ensures row { cores.new.row ≡ cores.old.row }
        ensures north { cores.new.north ≡ cores.old.north }
        ensures south { cores.new.south ≡ cores.old.south + 1 }
        ensures reserve { cores.new.reserve ≡ cores.old.reserve }
    {
        cores.south += 1;
        if let Some(row) = self.held(window, cores.row + cores.south) {
            take_in(&mut cores.least, row);
        }
    }

    // Takes into cores the two rows that are one row further away.
    fn grow(&self, window: &Window, cores: &mut Cores)
        requires window { IsWindowAt self.now window.now cores.old.row }
        requires cores { AreCoresOf self.now cores.old }
        requires level { cores.old.north ≡ cores.old.south }
        requires near { cores.old.south < self.now.discs.away }
        requires chord { IsChordOf self.now cores.old.south cores.old.reserve }
        ensures cores { AreCoresOf self.now cores.new }
        ensures row { cores.new.row ≡ cores.old.row }
        ensures north { cores.new.north ≡ cores.old.north + 1 }
        ensures south { cores.new.south ≡ cores.old.south + 1 }
        ensures chord { IsChordOf self.now cores.new.south cores.new.reserve }
    {
        let next = chord(&self.discs.reach, cores.south + 1, cores.reserve);
        self.widen(cores, next);
        self.take_north(window, cores);
        self.take_south(window, cores);
    }

    // Grows the cores of a row's discs from its own nodes to the whole discs.
    pub(crate) fn grow_to_discs(&self, window: &Window, cores: &mut Cores, row: usize)
        requires row { row < self.now.discs.rows }
        requires window { IsWindowAt self.now window.now row }
        requires least { length cores.old.least.items ≡ self.now.discs.cols }
        requires spare { length cores.old.spare.items ≡ self.now.discs.cols }
        ensures cores { AreCoresOf self.now cores.new }
        ensures row { cores.new.row ≡ row }
        ensures north { cores.new.north ≡ self.now.discs.away }
        ensures south { cores.new.south ≡ self.now.discs.away }
        ensures reserve { cores.new.reserve ≡ 0 }
    {
        self.begin(window, cores, row);
        while cores.south < self.discs.away {
            self.grow(window, cores);
        }
        self.widen(cores, 0);
    }
}

// Room for the cores of rows of so many nodes.
pub(crate) fn empty_cores(alloc: Global, cols: usize) -> Result<Cores, AllocError>
    ensures least { IfOk result (λ c. length c.least.items ≡ cols) }
    ensures spare { IfOk result (λ c. length c.spare.items ≡ cols) }
{
    let least = vec![in alloc; 0; cols]?;
    let spare = vec![in alloc; 0; cols]?;
    Ok(Cores {
        row: 0,
        north: 0,
        south: 0,
        reserve: 0,
        least,
        spare,
    })
}
