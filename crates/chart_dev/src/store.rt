// Bytes in memory with room for more.
ghost use Rattle.std.specs.Prelude.{◌≡◌, ◌≤◌, [], length, IfOk, OnOk, OnErr};
ghost use Rattle.chart_dev.specs.Memory.{filled, emptied, grown, widened, HasRoom};

use std::alloc::{AllocError, Global};
use std::marker::Model;

// Some bytes, and how many can stand there without more memory.
#[derive(Drop)]
pub(crate) struct Store {
    bytes: Vec<u8>,
    room: usize,
}

impl Model for Store {
    ghost use Rattle.std.specs.Prelude.{◌≤◌, vec_len};
    ghost use Rattle.std.specs.Vec.{vec_capacity};
    ghost use Rattle.chart_dev.specs.Memory.{Stored, stored_code};

    ghost Value = { Stored };

    ghost coded = { stored_code };

    ghost view = { λ s. record { bytes = s.bytes.items; room = s.room } };

    ghost invariant = { λ s. (vec_len s.bytes ≤ s.room) × (s.room ≤ vec_capacity s.bytes) };
}

impl Store {
    pub(crate) fn new(alloc: Global) -> Self
        ensures { result ≡ filled [] }
    {
        Store {
            bytes: Vec::new(alloc),
            room: 0,
        }
    }

    pub(crate) fn from_slice(alloc: Global, bytes: &[u8]) -> Result<Self, AllocError>
        ensures { IfOk result (λ s. s ≡ filled bytes.now) }
    {
        let bytes = Vec::from_slice(alloc, bytes)?;
        let room = bytes.len();
        Ok(Store { bytes, room })
    }

    // Makes the bytes none, and keeps the room.
    pub(crate) fn clear(&mut self)
        ensures { self.new ≡ emptied self.old }
    {
        self.bytes.clear();
    }

    // Adds bytes at the end. Where they have room it takes no memory.
    pub(crate) fn append(&mut self, piece: &[u8]) -> Result<(), AllocError>
        ensures ok { OnOk result (self.new ≡ grown piece.now self.old) }
        ensures err { OnErr result (self.new ≡ self.old) }
        ensures full { OnErr result (HasRoom self.old piece.now → ⊥) }
    {
        self.bytes.extend_from_slice(piece)?;
        if self.room < self.bytes.len() {
            self.room = self.bytes.len();
        }
        Ok(())
    }

    // Makes the room at least so many bytes.
    pub(crate) fn keep_room(&mut self, bytes: usize) -> Result<(), AllocError>
        ensures ok { OnOk result (self.new ≡ widened bytes self.old) }
        ensures err { OnErr result (self.new ≡ self.old) }
    {
        if self.room < bytes {
            self.bytes.reserve(bytes - self.bytes.len())?;
            self.room = bytes;
        }
        Ok(())
    }

    pub(crate) fn bytes(&self) -> &[u8]
        ensures bytes { result.now ≡ self.now.bytes }
        ensures room { length self.now.bytes ≤ self.now.room }
    {
        self.bytes.as_slice()
    }
}
