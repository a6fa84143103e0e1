//! Tests of disjoint sets and of the cutting of arcs into rings.
#![tactic(auto)]

ghost use Rattle.std.specs.Prelude.{◌≤◌};

#[cfg(test)]
mod tests {
    use disjoint_sets::{SetNumbers, singles};
    use ring_cutter::{Cutter, Hop};
    use std::alloc::{AllocError, Global};
    use std::test::Fail;

    // The sets of so many items, each of which is joined with the two that stand so far before it.
    fn by_strides(
        alloc: Global,
        size: usize,
        short: usize,
        long: usize,
    ) -> Result<SetNumbers, AllocError>
        requires { size ≤ 1000 }
    {
        let mut sets = singles(alloc, size)?;
        for item in 0..size {
            for stride in [short, long] {
                if stride <= item && item < sets.len() {
                    sets.join(item, item - stride);
                }
            }
        }
        Ok(sets.into_numbers())
    }

    #[test]
    fn a_chain_and_a_block_of_a_thousand_are_one_set(rt: HostRuntime) -> Result<(), Fail> {
        for long in [1, 40, 999, 1000] {
            let found = by_strides(rt.alloc(), 1000, 1, long)?;
            assert_eq!(rt; found.count, 1);
            assert_eq!(rt; found.numbers.len(), 1000);
            assert!(rt; found.numbers.iter().all(|n| *n == 0));
        }
        Ok(())
    }

    #[test]
    fn strides_of_three_make_three_sets_and_of_a_thousand_each_its_own(
        rt: HostRuntime,
    ) -> Result<(), Fail> {
        let found = by_strides(rt.alloc(), 1000, 3, 6)?;
        assert_eq!(rt; found.count, 3);
        for (item, number) in found.numbers.iter().enumerate() {
            assert!(rt; *number as usize == item % 3);
        }
        let found = by_strides(rt.alloc(), 1000, 1000, 2000)?;
        assert_eq!(rt; found.count, 1000);
        for (item, number) in found.numbers.iter().enumerate() {
            assert!(rt; *number as usize == item);
        }
        let found = by_strides(rt.alloc(), 0, 1, 2)?;
        assert_eq!(rt; found.count, 0);
        Ok(())
    }

    #[test]
    fn a_chain_joined_from_its_end_is_one_set(rt: HostRuntime) -> Result<(), Fail> {
        let mut sets = singles(rt.alloc(), 1000)?;
        for item in 0..999 {
            let low = 998 - item;
            if low + 1 < sets.len() {
                sets.join(low + 1, low);
            }
        }
        let found = sets.into_numbers();
        assert_eq!(rt; found.count, 1);
        assert!(rt; found.numbers.iter().all(|n| *n == 0));
        Ok(())
    }

    #[test]
    fn rings_that_touch_and_nested_rings_are_cut_apart(rt: HostRuntime) -> Result<(), Fail> {
        let alloc = rt.alloc();
        let mut cutter = Cutter::new(alloc, 9)?;

        // two triangles that touch in point 0, walked as one figure of eight: each is a ring
        let touching = [
            Hop { begin: 0, end: 1 },
            Hop { begin: 1, end: 2 },
            Hop { begin: 2, end: 0 },
            Hop { begin: 0, end: 3 },
            Hop { begin: 3, end: 4 },
            Hop { begin: 4, end: 0 },
        ];
        let rings = cutter.cut_into_rings(alloc, &touching)?;
        assert_eq!(rt; rings.len(), 2);
        for ring in &rings {
            assert_eq!(rt; ring.len(), 3);
        }

        // a ring round two others, of which one is a single arc from a point to itself
        let nested = [
            Hop { begin: 5, end: 6 },
            Hop { begin: 1, end: 2 },
            Hop { begin: 6, end: 7 },
            Hop { begin: 2, end: 1 },
            Hop { begin: 8, end: 8 },
            Hop { begin: 7, end: 5 },
        ];
        let rings = cutter.cut_into_rings(alloc, &nested)?;
        assert_eq!(rt; rings.len(), 3);
        assert!(rt; rings.iter().any(|ring| ring.as_slice() == &[0, 2, 5][..]));
        assert!(rt; rings.iter().any(|ring| ring.as_slice() == &[1, 3][..]));
        assert!(rt; rings.iter().any(|ring| ring.as_slice() == &[4][..]));

        // no arcs, no rings; and the same again after it, since the table is as it was
        let rings = cutter.cut_into_rings(alloc, &[])?;
        assert_eq!(rt; rings.len(), 0);
        let rings = cutter.cut_into_rings(alloc, &touching)?;
        assert_eq!(rt; rings.len(), 2);
        Ok(())
    }
}
