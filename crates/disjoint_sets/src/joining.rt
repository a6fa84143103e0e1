// Joining sets and numbering them.
ghost use Rattle.std.specs.Prelude.{◌≡◌, ℕ, ◌<◌, ◌≤◌, length, IfOk};
ghost use Rattle.disjoint_sets.specs.Sets.{Leads, KeepsRoots, IsTogether, AreJoined, NumbersSets};
ghost use Rattle.disjoint_sets.specs.Views.{parents_of};

use crate::Forest;
use std::alloc::{AllocError, Global};

/// The sets of a forest by number: one number an item.
#[derive(Drop)]
pub struct SetNumbers {
    /// One number an item, below `count`: the number of its set.
    pub numbers: Vec<u32>,
    /// How many sets there are.
    pub count: u32,
}

/// So many items, at most 2^32 - 1, each in a set by itself. It fails only for want of memory.
pub fn singles(alloc: Global, count: usize) -> Result<Forest, AllocError>
    requires few { count ≤ 4294967295 }
    ensures size { IfOk result (λ f. length (parents_of f) ≡ count) }
    ensures apart { IfOk result (λ f. (p q : ℕ) → IsTogether (parents_of f) p q → p ≡ q) }
{
    let mut parents = Vec::with_capacity(alloc, count)?;
    for item in 0..count {
        parents.push(item as u32)?;
    }
    Ok(Forest { parents })
}

impl Forest {
    /// How many items there are.
    pub fn len(&self) -> usize
        ensures { result ≡ length (parents_of self.now) }
    {
        self.parents.len()
    }

    // The root that an item leads to. Each second item on the way gets its parent's parent.
    fn root(&mut self, item: usize) -> usize
        requires { item < length (parents_of self.old) }
        ensures root { Leads (parents_of self.old) item result }
        ensures keeps { KeepsRoots (parents_of self.old) (parents_of self.new) }
    {
        let mut at = item;
        loop {
            let parent = self.parents[at] as usize;
            if parent == at {
                return at;
            }
            let above = self.parents[parent];
            self.parents[at] = above;
            at = above as usize;
        }
    }

    /// Makes one set of the sets of two items, and leaves all others as they were.
    pub fn join(&mut self, a: usize, b: usize)
        requires a { a < length (parents_of self.old) }
        requires b { b < length (parents_of self.old) }
        ensures size { length (parents_of self.new) ≡ length (parents_of self.old) }
        ensures joined { AreJoined (parents_of self.old) (parents_of self.new) a b }
    {
        let above_a = self.root(a);
        let above_b = self.root(b);
        if above_a < above_b {
            self.parents[above_b] = above_a as u32;
        } else {
            self.parents[above_a] = above_b as u32;
        }
    }

    /// Numbers the sets from 0 without a gap, in the order of their first items, in place of the parents.
    pub fn into_numbers(self) -> SetNumbers
        ensures { NumbersSets (parents_of self) result.numbers.items result.count }
    {
        let mut numbers = self.parents;
        let mut count = 0;
        for item in 0..numbers.len() {
            let parent = numbers[item] as usize;
            if parent == item {
                numbers[item] = count;
                count += 1;
            } else {
                numbers[item] = numbers[parent];
            }
        }
        SetNumbers { numbers, count }
    }
}
