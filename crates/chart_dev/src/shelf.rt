// A shelf holds bytes under names, and a sink takes bytes. Each counts its faults.
ghost use Rattle.std.specs.Prelude.{◌≡◌, ◌⊎◌, ◌+◌, ◌<◌, ◌≤◌, ◌++◌, List, ℕ, Option, length, take, drop, option_map, IfOk, IfSome, IsSome, IsErr, OnOk, OnErr};
ghost use Rattle.chart_dev.specs.Contents.{Contents, started, appended, IsMissing, ReadsTold};
ghost use Rattle.chart_dev.specs.Faults.{risen, Rose, HasCause};
ghost use Rattle.std.specs.FinMap.{get};

/// A call of a device failed. The device has counted a fault, or it was asked for bytes of a name that isn't there.
#[derive(Clone, Copy, Debug, PartialEq, Eq)]
pub struct Failed;

/// Bytes under names.
///
/// A shelf may tell its contents, as one in memory does, or not, as real files don't, and no call changes which. It
/// counts its faults, in a count that never falls and that stays in a call that goes well. A call fails only where the
/// count rose in it, or stands at its last value, and `read_at` also where the contents are told and the name isn't there.
pub trait Shelf {
    /// The bytes under each name, where the shelf tells them.
    ghost told: { Self → Option Contents };

    /// How often the shelf has failed.
    ghost faults: { Self → ℕ };

    /// Reads bytes of a name, from a place on, into the beginning of a buffer, and answers how many.
    ///
    /// None are read only where the buffer is empty or the bytes end at the place or before it. The rest of the buffer
    /// and the contents stay. To ask for a name that isn't there fails, and is no fault of the shelf.
    fn read_at(&mut self, name: &str, at: u64, buf: &mut [u8]) -> Result<usize, Failed>
        ensures bound { IfOk result (λ n. n ≤ length buf.old) }
        ensures rest { IfOk result (λ n. drop n buf.new ≡ drop n buf.old) }
        ensures bytes { IfOk result (λ n. ReadsTold (told self.old) name.now at buf.new n) }
        ensures missing { IsMissing (told self.old) name.now → IsErr result × (faults self.new ≡ faults self.old) }
        ensures kept { told self.new ≡ told self.old }
        ensures later { faults self.old ≤ faults self.new }
        ensures quiet { OnOk result (faults self.new ≡ faults self.old) }
        ensures cause { OnErr result (Rose (faults self.old) (faults self.new) ⊎ IsMissing (told self.old) name.now) };

    /// Makes the bytes of a name none, whether it was there or not. The other names stay.
    ///
    /// Where it fails, the bytes are as before or none.
    fn start(&mut self, name: &str) -> Result<(), Failed>
        ensures ok { OnOk result (told self.new ≡ option_map (started name.now) (told self.old)) }
        ensures there { OnOk result (IfSome (told self.new) (λ files. IsSome (get files name.now))) }
        ensures err { OnErr result ((told self.new ≡ told self.old) ⊎ (told self.new ≡ option_map (started name.now) (told self.old))) }
        ensures cause { HasCause (faults self.old) (faults self.new) result };

    /// Adds a prefix of a piece at the end of a name's bytes, and answers how long it is: at least one byte of a piece
    /// that isn't empty. The other names stay.
    ///
    /// Where it fails, a prefix of the piece is added, or none of it.
    fn append(&mut self, name: &str, piece: &[u8]) -> Result<usize, Failed>
        requires { IfSome (told self.old) (λ files. IsSome (get files name.now)) }
        ensures bound { IfOk result (λ n. n ≤ length piece.now) }
        ensures some { IfOk result (λ n. 0 < length piece.now → 0 < n) }
        ensures ok { IfOk result (λ n. told self.new ≡ option_map (appended name.now (take n piece.now)) (told self.old)) }
        ensures err { OnErr result ((n : ℕ) × (told self.new ≡ option_map (appended name.now (take n piece.now)) (told self.old))) }
        ensures cause { HasCause (faults self.old) (faults self.new) result };
}

/// A taker of bytes.
///
/// A sink may tell the bytes that it took, or not, and no call changes which. It counts its faults, in a count that
/// never falls and that stays in a call that goes well. A call fails only where the count rose in it, or stands at its
/// last value.
pub trait Sink {
    /// The bytes that it has taken, where it tells them.
    ghost taken: { Self → Option (List ℕ) };

    /// How often it has failed.
    ghost faults: { Self → ℕ };

    /// Takes a prefix of a piece, and answers how long it is: at least one byte of a piece that isn't empty.
    ///
    /// Where it fails, it has taken a prefix of the piece, or none of it.
    fn put(&mut self, piece: &[u8]) -> Result<usize, Failed>
        ensures bound { IfOk result (λ n. n ≤ length piece.now) }
        ensures some { IfOk result (λ n. 0 < length piece.now → 0 < n) }
        ensures ok { IfOk result (λ n. taken self.new ≡ option_map (λ bytes. bytes ++ take n piece.now) (taken self.old)) }
        ensures err { OnErr result ((n : ℕ) × (taken self.new ≡ option_map (λ bytes. bytes ++ take n piece.now) (taken self.old))) }
        ensures cause { HasCause (faults self.old) (faults self.new) result };
}

// Counts a fault.
pub(crate) fn fault(faults: &mut u64) -> Failed
    ensures counts { faults.new ≡ risen faults.old }
    ensures rose { Rose faults.old faults.new }
    ensures later { faults.old ≤ faults.new }
{
    *faults = faults.saturating_add(1);
    Failed
}
