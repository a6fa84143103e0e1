// Whole reads.
ghost use Rattle.std.specs.Prelude.{◌≡◌, ◌⊎◌, ◌+◌, ◌^◌, ◌<◌, ◌≤◌, Some, length, take, drop, IfOk, IfSome, IsErr, IsErrOf, OnErr, OnOk};
ghost use Rattle.std.specs.FinMap.{get};
ghost use Rattle.chart_dev.specs.Contents.{bytes_at, IsMissing, ReadsTold};
ghost use Rattle.chart_dev.specs.Faults.{Rose};

use crate::{Failed, Shelf};
use std::alloc::Global;

/// Why not all bytes of a name are read.
#[derive(Clone, Copy, Debug, PartialEq, Eq)]
pub enum ReadFault {
    /// A read failed.
    Device,
    /// There are more bytes than the limit.
    TooLarge,
    /// Memory for the bytes was refused.
    NoMemory,
}

// The bytes that a turn asks for.
const TURN: usize = 65536;

// One turn: reads bytes of a name from a place on into a buffer from that place on. What stands before it stays.
fn read_on<S: Shelf>(
    shelf: &mut S,
    name: &str,
    done: usize,
    buffer: &mut [u8],
) -> Result<usize, Failed>
    requires { done < length buffer.old }
    ensures bound { IfOk result (λ n. done + n ≤ length buffer.old) }
    ensures front { take done buffer.new ≡ take done buffer.old }
    ensures bytes { IfOk result (λ n. ReadsTold (S.told shelf.old) name.now done (drop done buffer.new) n) }
    ensures missing { IsMissing (S.told shelf.old) name.now → IsErr result × (S.faults shelf.new ≡ S.faults shelf.old) }
    ensures kept { S.told shelf.new ≡ S.told shelf.old }
    ensures later { S.faults shelf.old ≤ S.faults shelf.new }
    ensures quiet { OnOk result (S.faults shelf.new ≡ S.faults shelf.old) }
    ensures cause { OnErr result (Rose (S.faults shelf.old) (S.faults shelf.new) ⊎ IsMissing (S.told shelf.old) name.now) }
{
    match shelf.read_at(name, done as u64, &mut buffer[done..]) {
        Ok(count) => Ok(count),
        Err(failed) => Err(failed),
    }
}

/// All bytes of a name, of which there are at most `limit`, less than 2^40. The contents stay, whatever it answers.
///
/// It reads until a read answers no bytes, each time into room for 65,536 bytes behind those that it has, and keeps no
/// other copy of them. A name that isn't there, where the contents are told, is `Device` and no fault. Every other answer
/// is given only where no read of this call failed.
pub fn read_whole<S: Shelf>(
    alloc: Global,
    shelf: &mut S,
    name: &str,
    limit: u64,
) -> Result<Vec<u8>, ReadFault>
    requires { limit < 2 ^ 40 }
    ensures ok { IfOk result (λ v. IfSome (S.told shelf.old) (λ files. get files name.now ≡ Some v.items)) }
    ensures fits { IfOk result (λ v. length v.items ≤ limit) }
    ensures large { IsErrOf result ReadFault.TooLarge → IfSome (S.told shelf.old) (λ files. limit < length (bytes_at files name.now)) }
    ensures device { IsErrOf result ReadFault.Device → Rose (S.faults shelf.old) (S.faults shelf.new) ⊎ IsMissing (S.told shelf.old) name.now }
    ensures missing { IsMissing (S.told shelf.old) name.now → IsErr result × (S.faults shelf.new ≡ S.faults shelf.old) }
    ensures kept { S.told shelf.new ≡ S.told shelf.old }
    ensures later { S.faults shelf.old ≤ S.faults shelf.new }
    ensures quiet { IsErrOf result ReadFault.Device ⊎ (S.faults shelf.new ≡ S.faults shelf.old) }
{
    let mut bytes = Vec::new(alloc);
    let mut done = 0;
    loop {
        let Ok(()) = bytes.resize(done + TURN, 0) else {
            return Err(ReadFault::NoMemory);
        };
        let Ok(count) = read_on(shelf, name, done, &mut bytes) else {
            return Err(ReadFault::Device);
        };
        if count == 0 {
            bytes.truncate(done);
            return Ok(bytes);
        }
        done += count;
        if done as u64 > limit {
            return Err(ReadFault::TooLarge);
        }
    }
}
