// What the disc of each node of a grid gives.
ghost use Rattle.std.specs.Prelude.{◌≡◌, ◌+◌, ◌*◌, ◌<◌, ◌≤◌, length, slice_index_or, None, IfOk, vec_capacity};
ghost use Rattle.shoal_buffer.specs.declared.picks.Pick.TheVariants.{Least, Greatest};
ghost use Rattle.shoal_buffer.specs.Picks.{IsPickAt, ArePicks};
ghost use Rattle.shoal_buffer.specs.Passes.{AreCoresOf, ArePicksBefore};

use crate::discs::Discs;
use crate::growing::empty_cores;
use crate::pass::{Cores, Pass};
use crate::picks::Pick;
use crate::sliding::empty_window;
use std::alloc::{AllocError, Global};

impl Pass<'_> {
    // What the disc of one node of a row gives, nothing where the node has no value.
    fn pick_at(&self, cores: &Cores, col: usize) -> Option<i32>
        requires col { col < self.now.discs.cols }
        requires cores { AreCoresOf self.now cores.now }
        requires north { cores.now.north ≡ self.now.discs.away }
        requires south { cores.now.south ≡ self.now.discs.away }
        requires reserve { cores.now.reserve ≡ 0 }
        ensures { IsPickAt self.now.pick self.now.discs.rows self.now.discs.cols self.now.discs.reach.aspect self.now.discs.reach.radius self.now.values.now (cores.now.row * self.now.discs.cols + col) (slice_index_or self.now.values.now (cores.now.row * self.now.discs.cols + col) None) result }
    {
        let own = self.values[cores.row * self.discs.cols + col];
        self.pick.value_where(cores.least[col], own)
    }

    // Appends what the discs of a row's nodes give.
    fn append_row(&self, cores: &Cores, picked: &mut Vec<Option<i32>>)
        requires cores { AreCoresOf self.now cores.now }
        requires north { cores.now.north ≡ self.now.discs.away }
        requires south { cores.now.south ≡ self.now.discs.away }
        requires reserve { cores.now.reserve ≡ 0 }
        requires before { ArePicksBefore self.now (cores.now.row * self.now.discs.cols) picked.old.items }
        requires room { length self.now.values.now ≤ vec_capacity picked.old }
        ensures picks { ArePicksBefore self.now (cores.now.row * self.now.discs.cols + self.now.discs.cols) picked.new.items }
        ensures room { length self.now.values.now ≤ vec_capacity picked.new }
    {
        for col in 0..self.discs.cols {
            picked.push_reserved(self.pick_at(cores, col));
        }
    }

    // What the discs of all nodes give.
    fn picks(&self, alloc: Global) -> Result<Vec<Option<i32>>, AllocError>
        ensures { IfOk result (λ v. ArePicks self.now.pick self.now.discs.rows self.now.discs.cols self.now.discs.reach.aspect self.now.discs.reach.radius self.now.values.now v.items) }
    {
        let mut window = empty_window(alloc, self.discs.away)?;
        let mut cores = empty_cores(alloc, self.discs.cols)?;
        let mut picked = Vec::with_capacity(alloc, self.values.len())?;
        for row in 0..self.discs.rows {
            self.slide(alloc, &mut window, row)?;
            self.grow_to_discs(&window, &mut cores, row);
            self.append_row(&cores, &mut picked);
        }
        Ok(picked)
    }
}

impl Discs {
    // What the discs of all nodes give.
    fn picks(
        &self,
        alloc: Global,
        pick: Pick,
        values: &[Option<i32>],
    ) -> Result<Vec<Option<i32>>, AllocError>
        requires { length values.now ≡ self.now.rows * self.now.cols }
        ensures { IfOk result (λ v. ArePicks pick self.now.rows self.now.cols self.now.reach.aspect self.now.reach.radius values.now v.items) }
    {
        let pass = Pass {
            discs: *self,
            pick,
            values,
        };
        pass.picks(alloc)
    }

    // Of each node with a value the least value in its disc.
    pub(crate) fn erode(
        &self,
        alloc: Global,
        values: &[Option<i32>],
    ) -> Result<Vec<Option<i32>>, AllocError>
        requires { length values.now ≡ self.now.rows * self.now.cols }
        ensures { IfOk result (λ v. ArePicks Least self.now.rows self.now.cols self.now.reach.aspect self.now.reach.radius values.now v.items) }
    {
        self.picks(alloc, Pick::Least, values)
    }

    // Of each node with a value the greatest value in its disc.
    pub(crate) fn dilate(
        &self,
        alloc: Global,
        values: &[Option<i32>],
    ) -> Result<Vec<Option<i32>>, AllocError>
        requires { length values.now ≡ self.now.rows * self.now.cols }
        ensures { IfOk result (λ v. ArePicks Greatest self.now.rows self.now.cols self.now.reach.aspect self.now.reach.radius values.now v.items) }
    {
        self.picks(alloc, Pick::Greatest, values)
    }
}
