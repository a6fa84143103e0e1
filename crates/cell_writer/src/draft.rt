// The fields of a record that is being made.
ghost use Rattle.std.specs.Prelude.{◌≡◌, ◌++◌, ◌-◌, ◌∷◌, ◌≤◌, [], List, OnOk, length, vec_len};
ghost use Rattle.cell_writer.specs.Drafts.{Holds, IsMade};
ghost use Rattle.cell_writer.specs.Layout.{id};
ghost use Rattle.iso8211_codec.specs.Layout.{record_of};
ghost use Rattle.iso8211_codec.specs.Reading.{Part};
ghost use Rattle.iso8211_codec.specs.Room.{KeepsRoom};

use iso8211_codec::{Tag, record_laws, write_rec};
use s57_codes::tag;
use std::alloc::{AllocError, Global};

/// The fields of a record that is being made: their tags, their lengths with the closing 0x1E, and their bytes one after
/// the other. It keeps its memory from record to record.
#[derive(Drop)]
pub(crate) struct Draft {
    pub tags: Vec<Tag>,
    pub lens: Vec<usize>,
    pub bodies: Vec<u8>,
}

impl Draft {
    /// No fields. It takes no memory.
    pub(crate) fn new(alloc: Global) -> Draft
        ensures { Holds [] result }
    {
        Draft {
            tags: Vec::new(alloc),
            lens: Vec::new(alloc),
            bodies: Vec::new(alloc),
        }
    }

    /// Ends a field whose bytes begin at a place of the bodies.
    pub(crate) fn end(&mut self, tag: Tag, from: usize) -> Result<(), AllocError>
        requires { from ≤ vec_len self.old.bodies }
        ensures tags { OnOk result (self.new.tags.items ≡ self.old.tags.items ++ tag ∷ []) }
        ensures lens { OnOk result (self.new.lens.items ≡ self.old.lens.items ++ (length self.old.bodies.items - from) ∷ []) }
        ensures bodies { self.new.bodies.items ≡ self.old.bodies.items }
    {
        self.tags.push(tag)?;
        self.lens.push(self.bodies.len() - from)?;
        Ok(())
    }

    /// Begins the record at a place among the data records, counted from 1.
    pub(crate) fn begin(&mut self, place: usize) -> Result<(), AllocError>
        ensures { OnOk result (Holds (id place ∷ []) self.new) }
    {
        self.tags.clear();
        self.lens.clear();
        self.bodies.clear();
        let number = ((place % 65536) as u16).to_le_bytes();
        self.bodies
            .extend_from_slice(&[number[0], number[1], 0x1e])?;
        self.end(tag::ID, 0)
    }

    /// Appends the record of these fields. Memory is asked for only where there is no room for it.
    pub(crate) fn write(&self, out: &mut Vec<u8>) -> Result<(), AllocError>
        requires { IsMade self.now }
        ensures items { (parts : List Part) → Holds parts self.now → OnOk result (out.new.items ≡ out.old.items ++ record_of parts) }
        ensures room { KeepsRoom out.old out.new }
    {
        record_laws();
        write_rec(out, &self.tags, &self.lens, &self.bodies)
    }
}
