// A shelf in memory, whose calls can be made to fail.
ghost use Rattle.std.specs.Prelude.{◌≡◌, ◌⊎◌, ◌≤◌, [], None, length, take, drop, min, ◌-◌, IsSome, IfOk, IfSome, OnOk, OnErr, option_map, option_copied};
ghost use Rattle.std.specs.FinMap.{get, insert, empty};
ghost use Rattle.chart_dev.specs.Contents.{ReadsFrom};
ghost use Rattle.chart_dev.specs.Faults.{risen, Rose};
ghost use Rattle.chart_dev.specs.Files.{files_of};
ghost use Rattle.chart_dev.specs.Memory.{contents, filled, grown, widened, emptied, stored_at, HasRoom, failing_at};

use crate::calls::Calls;
use crate::shelf::fault;
use crate::store::Store;
use crate::{CallKind, Failed, Shelf};
use std::alloc::{AllocError, Global};
use std::collections::BTreeMap;
use std::marker::Model;

/// A shelf in memory, which tells its contents.
///
/// Each name has a room, the number of bytes that can stand there without more memory. A `start` of a name that is
/// there, and an `append` that fits into the name's room, take no memory and keep the room. Such calls fail only where
/// they were made to. Every other `start` and `append` takes memory, and answers `Failed` where it finds none, which
/// counts as a fault. A call that fails changes no contents.
#[derive(Drop)]
pub struct MemShelf {
    alloc: Global,
    files: BTreeMap<String, Store>,
    most: usize,
    reads: Calls,
    starts: Calls,
    appends: Calls,
    faults: u64,
}

impl Model for MemShelf {
    ghost use Rattle.std.specs.Prelude.{◌≤◌};
    ghost use Rattle.chart_dev.specs.Files.{files_of};
    ghost use Rattle.chart_dev.specs.Memory.{ShelfMemory, shelf_code};

    ghost Value = { ShelfMemory };

    ghost coded = { shelf_code };

    ghost view = { λ s. record { files = files_of s.files.entries; most = s.most; reads = s.reads; starts = s.starts; appends = s.appends; faults = s.faults } };

    ghost invariant = { λ s. 1 ≤ s.most };
}

// Copies what stands in a file from a place on to the beginning of a buffer, at most so many bytes.
fn copy_from(bytes: &[u8], at: u64, most: usize, buf: &mut [u8]) -> usize
    requires { 1 ≤ most }
    ensures reads { ReadsFrom bytes.now at buf.new result }
    ensures bound { result ≤ length buf.old }
    ensures count { result ≡ min (min (length bytes.now - at) (length buf.old)) most }
    ensures rest { drop result buf.new ≡ drop result buf.old }
{
    if at >= bytes.len() as u64 {
        return 0;
    }
    let rest = &bytes[at as usize..];
    let count = rest.len().min(buf.len()).min(most);
    buf[..count].copy_from_slice(&rest[..count]);
    count
}

// Makes what is stored under a name the given store.
fn put(
    alloc: Global,
    files: &mut BTreeMap<String, Store>,
    name: &str,
    store: Store,
) -> Result<(), AllocError>
    ensures ok { OnOk result (files_of files.new.entries ≡ insert (files_of files.old.entries) name.now store) }
    ensures err { OnErr result (files_of files.new.entries ≡ files_of files.old.entries) }
{
    let key = String::from_str(alloc, name)?;
    files.insert(key, store)?;
    Ok(())
}

// Makes the bytes of a name none. It takes memory only where the name isn't there.
fn begin(alloc: Global, files: &mut BTreeMap<String, Store>, name: &str) -> Result<(), AllocError>
    ensures ok { OnOk result (files_of files.new.entries ≡ insert (files_of files.old.entries) name.now (emptied (stored_at (files_of files.old.entries) name.now))) }
    ensures err { OnErr result (files_of files.new.entries ≡ files_of files.old.entries) }
    ensures absent { OnErr result (get (files_of files.old.entries) name.now ≡ None) }
{
    match files.get_mut(name) {
        Some(store) => {
            store.clear();
            Ok(())
        }
        None => put(alloc, files, name, Store::new(alloc)),
    }
}

// Adds bytes at the end of those of a name. It takes memory only where they have no room.
fn extend(files: &mut BTreeMap<String, Store>, name: &str, piece: &[u8]) -> Result<(), AllocError>
    requires { IsSome (get (files_of files.old.entries) name.now) }
    ensures ok { OnOk result (files_of files.new.entries ≡ insert (files_of files.old.entries) name.now (grown piece.now (stored_at (files_of files.old.entries) name.now))) }
    ensures err { OnErr result (files_of files.new.entries ≡ files_of files.old.entries) }
    ensures full { OnErr result (HasRoom (stored_at (files_of files.old.entries) name.now) piece.now → ⊥) }
{
    match files.get_mut(name) {
        Some(store) => match store.append(piece) {
            Ok(()) => Ok(()),
            Err(e) => Err(e),
        },
        None => unreachable!(),
    }
}

// Makes the room of a name at least so many bytes.
fn widen(files: &mut BTreeMap<String, Store>, name: &str, bytes: usize) -> Result<(), AllocError>
    requires { IsSome (get (files_of files.old.entries) name.now) }
    ensures ok { OnOk result (files_of files.new.entries ≡ insert (files_of files.old.entries) name.now (widened bytes (stored_at (files_of files.old.entries) name.now))) }
    ensures err { OnErr result (files_of files.new.entries ≡ files_of files.old.entries) }
{
    match files.get_mut(name) {
        Some(store) => match store.keep_room(bytes) {
            Ok(()) => Ok(()),
            Err(e) => Err(e),
        },
        None => unreachable!(),
    }
}

impl MemShelf {
    ghost use Rattle.chart_dev.specs.Kinds.{calls_of, with_calls};

    /// An empty shelf, none of whose calls is made to fail. It reads or appends at most `most` bytes in one call.
    pub fn new(alloc: Global, most: usize) -> Self
        requires { 1 ≤ most }
        ensures { result ≡ record { files = empty; most = most; reads = record { made = 0; failing = [] }; starts = record { made = 0; failing = [] }; appends = record { made = 0; failing = [] }; faults = 0 } }
    {
        MemShelf {
            alloc,
            files: BTreeMap::new(alloc),
            most,
            reads: Calls::new(alloc),
            starts: Calls::new(alloc),
            appends: Calls::new(alloc),
            faults: 0,
        }
    }

    /// Makes the bytes of a name the given ones, whether it was there or not, in a room of their length. The other
    /// names stay. Where it is refused, nothing changes.
    pub fn put_file(&mut self, name: &str, bytes: &[u8]) -> Result<(), AllocError>
        ensures ok { OnOk result (self.new ≡ record self.old { files = insert self.old.files name.now (filled bytes.now) }) }
        ensures there { OnOk result (IsSome (get (contents self.new.files) name.now)) }
        ensures err { OnErr result (self.new ≡ self.old) }
    {
        let store = Store::from_slice(self.alloc, bytes)?;
        put(self.alloc, &mut self.files, name, store)
    }

    /// Makes the `nth` call of a kind fail, counted from 1 since the shelf was made. A number that is 0, or whose call
    /// was already made, has no effect. Where it is refused, nothing changes.
    pub fn fail(&mut self, kind: CallKind, nth: u64) -> Result<(), AllocError>
        ensures ok { OnOk result (self.new ≡ with_calls kind (failing_at nth (calls_of kind self.old)) self.old) }
        ensures err { OnErr result (self.new ≡ self.old) }
    {
        match kind {
            CallKind::Read => self.reads.fail(nth),
            CallKind::Start => self.starts.fail(nth),
            CallKind::Append => self.appends.fail(nth),
        }
    }

    /// The bytes of a name. `None` where it isn't there.
    pub fn bytes_of(&self, name: &str) -> Option<&[u8]>
        ensures bytes { option_copied result ≡ get (contents self.now.files) name.now }
        ensures room { IfSome result (λ bytes. length bytes.now ≤ (stored_at self.now.files name.now).room) }
    {
        match self.files.get(name) {
            Some(store) => Some(store.bytes()),
            None => None,
        }
    }

    /// How many calls failed as faults. The count stops at its last value.
    pub fn faults(&self) -> u64
        ensures { result ≡ self.now.faults }
    {
        self.faults
    }

    /// Makes the room of a name that is there at least `bytes` bytes, and changes nothing else. Where it is refused,
    /// nothing changes.
    pub fn keep_room(&mut self, name: &str, bytes: usize) -> Result<(), AllocError>
        requires { IsSome (get (contents self.old.files) name.now) }
        ensures ok { OnOk result (self.new ≡ record self.old { files = insert self.old.files name.now (widened bytes (stored_at self.old.files name.now)) }) }
        ensures there { IsSome (get (contents self.new.files) name.now) }
        ensures err { OnErr result (self.new ≡ self.old) }
    {
        widen(&mut self.files, name, bytes)
    }
}

impl Shelf for MemShelf {
    ghost use Rattle.std.specs.Prelude.{◌≡◌, ◌⊎◌, ◌≤◌, ◌<◌, ◌-◌, min, ℕ, None, Some, length, take, drop, IsSome, IsErr, IfOk, OnOk, OnErr};
    ghost use Rattle.std.specs.FinMap.{get, insert};
    ghost use Rattle.chart_dev.specs.Contents.{IsMissing, ReadsTold, started, appended};
    ghost use Rattle.chart_dev.specs.Faults.{risen, Rose, HasCause};
    ghost use Rattle.chart_dev.specs.Memory.{contents, emptied, grown, stored_at, HasRoom, counted, FailsNext};

    ghost told = { λ s. Some (contents s.files) };

    ghost faults = { λ s. s.faults };

    fn read_at(&mut self, name: &str, at: u64, buf: &mut [u8]) -> Result<usize, Failed>
        ensures bound { IfOk result (λ n. n ≤ length buf.old) }
        ensures rest { IfOk result (λ n. drop n buf.new ≡ drop n buf.old) }
        ensures bytes { IfOk result (λ n. ReadsTold (Some (contents self.old.files)) name.now at buf.new n) }
        ensures missing { IsMissing (Some (contents self.old.files)) name.now → IsErr result × (self.new.faults ≡ self.old.faults) }
        ensures kept { contents self.new.files ≡ contents self.old.files }
        ensures later { self.old.faults ≤ self.new.faults }
        ensures quiet { OnOk result (self.new.faults ≡ self.old.faults) }
        ensures cause { OnErr result (Rose self.old.faults self.new.faults ⊎ IsMissing (Some (contents self.old.files)) name.now) }

        ensures count { IfOk result (λ n. n ≡ min (min (length (stored_at self.old.files name.now).bytes - at) (length buf.old)) self.old.most) }
        ensures counts { OnOk result (self.new ≡ record self.old { reads = counted self.old.reads }) }
        ensures made { FailsNext self.old.reads → IsErr result }

        // It fails where the name isn't there, and then it isn't counted, or where it was made to.
        ensures fails { OnErr result ((get self.old.files name.now ≡ None) × (self.new ≡ self.old)
            ⊎ FailsNext self.old.reads × (self.new ≡ record self.old { reads = counted self.old.reads; faults = risen self.old.faults })) }
    {
        let Some(store) = self.files.get(name) else {
            return Err(Failed);
        };
        let held = store.bytes();
        if self.reads.count() {
            return Err(fault(&mut self.faults));
        }
        Ok(copy_from(held, at, self.most, buf))
    }

    fn start(&mut self, name: &str) -> Result<(), Failed>
        ensures ok { OnOk result (contents self.new.files ≡ started name.now (contents self.old.files)) }
        ensures there { OnOk result (IsSome (get (contents self.new.files) name.now)) }
        ensures err { OnErr result (contents self.new.files ≡ contents self.old.files) }
        ensures cause { HasCause self.old.faults self.new.faults result }

        ensures after { OnOk result (self.new ≡ record self.old { files = insert self.old.files name.now (emptied (stored_at self.old.files name.now)); starts = counted self.old.starts }) }
        ensures failed { OnErr result (self.new ≡ record self.old { starts = counted self.old.starts; faults = risen self.old.faults }) }
        ensures made { FailsNext self.old.starts → IsErr result }

        // It fails only where it was made to, or where it takes memory.
        ensures fails { OnErr result (FailsNext self.old.starts ⊎ (get self.old.files name.now ≡ None)) }
    {
        if self.starts.count() {
            return Err(fault(&mut self.faults));
        }
        match begin(self.alloc, &mut self.files, name) {
            Ok(()) => Ok(()),
            Err(_) => Err(fault(&mut self.faults)),
        }
    }

    fn append(&mut self, name: &str, piece: &[u8]) -> Result<usize, Failed>
        requires { IsSome (get (contents self.old.files) name.now) }
        ensures bound { IfOk result (λ n. n ≤ length piece.now) }
        ensures some { IfOk result (λ n. 0 < length piece.now → 0 < n) }
        ensures ok { IfOk result (λ n. contents self.new.files ≡ appended name.now (take n piece.now) (contents self.old.files)) }
        ensures err { OnErr result ((n : ℕ) × (contents self.new.files ≡ appended name.now (take n piece.now) (contents self.old.files))) }
        ensures cause { HasCause self.old.faults self.new.faults result }

        ensures count { IfOk result (λ n. n ≡ min (length piece.now) self.old.most) }
        ensures after { IfOk result (λ n. self.new ≡ record self.old { files = insert self.old.files name.now (grown (take n piece.now) (stored_at self.old.files name.now)); appends = counted self.old.appends }) }
        ensures failed { OnErr result (self.new ≡ record self.old { appends = counted self.old.appends; faults = risen self.old.faults }) }
        ensures made { FailsNext self.old.appends → IsErr result }

        // It fails only where it was made to, or where it takes memory.
        ensures fails { OnErr result (FailsNext self.old.appends ⊎ (HasRoom (stored_at self.old.files name.now) piece.now → ⊥)) }
    {
        if self.appends.count() {
            return Err(fault(&mut self.faults));
        }
        let count = piece.len().min(self.most);
        match extend(&mut self.files, name, &piece[..count]) {
            Ok(()) => Ok(count),
            Err(_) => Err(fault(&mut self.faults)),
        }
    }
}
