// A sink in memory, whose calls can be made to fail.
ghost use Rattle.std.specs.Prelude.{◌≡◌, ◌≤◌, [], length, OnOk, OnErr};
ghost use Rattle.chart_dev.specs.Memory.{filled, widened, failing_at};

use crate::calls::Calls;
use crate::shelf::fault;
use crate::store::Store;
use crate::{Failed, Sink};
use std::alloc::{AllocError, Global};
use std::marker::Model;

/// A sink in memory, which tells the bytes that it took.
///
/// Its room is the number of bytes that it can hold without more memory. A `put` that fits into the room takes no
/// memory and keeps the room, and fails only where it was made to. Every other `put` takes memory, and answers `Failed`
/// where it finds none, which counts as a fault. A call that fails takes no bytes.
#[derive(Drop)]
pub struct MemSink {
    taken: Store,
    most: usize,
    puts: Calls,
    faults: u64,
}

impl Model for MemSink {
    ghost use Rattle.std.specs.Prelude.{◌≤◌};
    ghost use Rattle.chart_dev.specs.Memory.{SinkMemory, sink_code};

    ghost Value = { SinkMemory };

    ghost coded = { sink_code };

    ghost view = { λ s. record { taken = s.taken; most = s.most; puts = s.puts; faults = s.faults } };

    ghost invariant = { λ s. 1 ≤ s.most };
}

impl MemSink {
    /// A sink that has taken nothing, none of whose calls is made to fail. It takes at most `most` bytes in one call.
    pub fn new(alloc: Global, most: usize) -> Self
        requires { 1 ≤ most }
        ensures { result ≡ record { taken = filled []; most = most; puts = record { made = 0; failing = [] }; faults = 0 } }
    {
        MemSink {
            taken: Store::new(alloc),
            most,
            puts: Calls::new(alloc),
            faults: 0,
        }
    }

    /// Makes the `nth` call of `put` fail, counted from 1 since the sink was made. A number that is 0, or whose call was
    /// already made, has no effect. Where it is refused, nothing changes.
    pub fn fail(&mut self, nth: u64) -> Result<(), AllocError>
        ensures ok { OnOk result (self.new ≡ record self.old { puts = failing_at nth self.old.puts }) }
        ensures err { OnErr result (self.new ≡ self.old) }
    {
        self.puts.fail(nth)
    }

    /// Makes the room at least `bytes` bytes, and changes nothing else. Where it is refused, nothing changes.
    pub fn keep_room(&mut self, bytes: usize) -> Result<(), AllocError>
        ensures ok { OnOk result (self.new ≡ record self.old { taken = widened bytes self.old.taken }) }
        ensures err { OnErr result (self.new ≡ self.old) }
    {
        self.taken.keep_room(bytes)
    }

    /// The bytes that it has taken.
    pub fn bytes(&self) -> &[u8]
        ensures bytes { result.now ≡ self.now.taken.bytes }
        ensures room { length result.now ≤ self.now.taken.room }
    {
        self.taken.bytes()
    }

    /// How many calls failed as faults. The count stops at its last value.
    pub fn faults(&self) -> u64
        ensures { result ≡ self.now.faults }
    {
        self.faults
    }
}

impl Sink for MemSink {
    ghost use Rattle.std.specs.Prelude.{◌≡◌, ◌⊎◌, ◌≤◌, ◌<◌, ◌++◌, ℕ, Some, min, length, take, IsErr, IfOk, OnErr};
    ghost use Rattle.chart_dev.specs.Faults.{risen, HasCause};
    ghost use Rattle.chart_dev.specs.Memory.{grown, HasRoom, counted, FailsNext};

    ghost taken = { λ s. Some s.taken.bytes };

    ghost faults = { λ s. s.faults };

    fn put(&mut self, piece: &[u8]) -> Result<usize, Failed>
        ensures bound { IfOk result (λ n. n ≤ length piece.now) }
        ensures some { IfOk result (λ n. 0 < length piece.now → 0 < n) }
        ensures ok { IfOk result (λ n. self.new.taken.bytes ≡ self.old.taken.bytes ++ take n piece.now) }
        ensures err { OnErr result ((n : ℕ) × (self.new.taken.bytes ≡ self.old.taken.bytes ++ take n piece.now)) }
        ensures cause { HasCause self.old.faults self.new.faults result }

        ensures count { IfOk result (λ n. n ≡ min (length piece.now) self.old.most) }
        ensures after { IfOk result (λ n. self.new ≡ record self.old { taken = grown (take n piece.now) self.old.taken; puts = counted self.old.puts }) }
        ensures failed { OnErr result (self.new ≡ record self.old { puts = counted self.old.puts; faults = risen self.old.faults }) }
        ensures made { FailsNext self.old.puts → IsErr result }

        // It fails only where it was made to, or where it takes memory.
        ensures fails { OnErr result (FailsNext self.old.puts ⊎ (HasRoom self.old.taken piece.now → ⊥)) }
    {
        if self.puts.count() {
            return Err(fault(&mut self.faults));
        }
        let count = piece.len().min(self.most);
        match self.taken.append(&piece[..count]) {
            Ok(()) => Ok(count),
            Err(_) => Err(fault(&mut self.faults)),
        }
    }
}
