// Rounding towards shoal.
ghost use Rattle.std.specs.Prelude.{◌≡◌, ◌≤ℤ◌, ◌*ℤ◌, pos, neg_ℤ, ◌+◌, ◌≤◌, ◌*◌, count_by, int_le, length, true, [], ◌∷◌};
ghost use Rattle.depth_rounding.specs.Steps.{AreSteps, is_step, step_at, shoal_of, IsShoalest};
ghost use Rattle.depth_rounding.specs.Views.{from_view, steps_view};

use crate::Bands;
use crate::padding::padded;

impl Bands {
    /// Steps of 1 decimetre, of 5 from 21 metres on and of 10 from 31 metres on.
    pub fn usual() -> Bands
        ensures from { from_view result ≡ pos 210 ∷ pos 310 ∷ [] }
        ensures steps { steps_view result ≡ pos 1 ∷ pos 5 ∷ pos 10 ∷ [] }
    {
        Bands::new(&[210, 310], &[1, 5, 10])
    }

    /// These steps, the further ones beginning at these depths, all in decimetres.
    pub fn new(step_from: &[i32], steps: &[i32]) -> Bands
        requires { AreSteps step_from.now steps.now }
        ensures from { from_view result ≡ step_from.now }
        ensures steps { steps_view result ≡ steps.now }
    {
        Bands {
            step_from: padded(step_from, 0),
            steps: padded(steps, 1),
            count: step_from.len(),
        }
    }

    // How many further steps have begun at a depth in millimetres.
    fn begun(&self, mm: i32) -> usize
        ensures value { result ≡ count_by (λ from. int_le (pos 100 *ℤ from) mm) (from_view self.now) }
        ensures within { result ≤ length (from_view self.now) }
    {
        self.step_from[..self.count]
            .iter()
            .filter(|from| 100 * **from as i64 <= mm as i64)
            .count()
    }

    // The step of a depth in millimetres.
    fn step(&self, mm: i32) -> i32
        ensures value { result ≡ step_at (from_view self.now) (steps_view self.now) mm }
        ensures known { is_step result ≡ true }
    {
        self.steps[self.begun(mm)]
    }
}

/// A depth in millimetres below datum, rounded towards shoal to decimetres.
///
/// The depth is within ±12,000,000. The answer is the greatest multiple of the depth's step that
/// is no deeper, within ±120,000 (after IHO S-4).
pub fn shoal(bands: &Bands, mm: i32) -> i32
    requires low { neg_ℤ (pos 12000000) ≤ℤ mm }
    requires high { mm ≤ℤ pos 12000000 }
    ensures value { result ≡ shoal_of (from_view bands.now) (steps_view bands.now) mm }
    ensures shoalest { IsShoalest (step_at (from_view bands.now) (steps_view bands.now) mm) mm result }
    ensures no_deeper { (pos 100 *ℤ result) ≤ℤ mm }
    ensures above { neg_ℤ (pos 120000) ≤ℤ result }
    ensures below { result ≤ℤ pos 120000 }
{
    let step = bands.step(mm);
    step * mm.div_euclid(100 * step)
}
