// The fields of a record as slices of the file.
ghost use Rattle.std.specs.Prelude.{◌≡◌, ◌<◌, Some, length, slice_get, option_map};
ghost use Rattle.std.specs.List.{list_all};
ghost use Rattle.iso8211_codec.specs.Reading.{seen, is_free, is_closed, body_of};
ghost use Rattle.iso8211_codec.specs.Views.{rec_of, parts, part_at, field_view};

use crate::directory::entry_in;
use crate::record::{Field, RawRec, Tag};

fn is_free(tag: Tag) -> bool
    ensures { result ≡ is_free tag }
{
    tag[0] == b'N' && tag[1] == b'A' && tag[2] == b'T' && tag[3] == b'F'
}

fn body_in(tag: Tag, bytes: &[u8]) -> &[u8]
    requires { 0 < length bytes.now }
    ensures { result.now ≡ body_of (record { tag = tag; bytes = bytes.now }) }
{
    if is_free(tag) {
        return bytes;
    }
    let (body, _) = bytes.split_at(bytes.len() - 1);
    body
}

impl<'a> RawRec<'a> {
    /// The offset of the record's first byte in the file, in bytes.
    pub fn at(&self) -> usize
        ensures { result ≡ (rec_of self.now).at }
    {
        self.at
    }

    /// The number of fields, at least one.
    pub fn count(&self) -> usize
        ensures count { result ≡ length (parts self.now) }
        ensures some { 0 < result }
    {
        self.count
    }

    // All bytes of field k, and its tag.
    fn part(&self, k: usize) -> (Tag, &'a [u8])
        requires { k < self.now.count }
        ensures tag { result.0 ≡ (part_at k self.now).tag }
        ensures bytes { result.1.now ≡ (part_at k self.now).bytes }
        ensures some { 0 < length result.1.now }
    {
        let width = 4 + self.widths.size_of_length + self.widths.size_of_position;
        let (_, entries) = self.entries.split_at(k * width);
        let entry = entry_in(self.widths, entries);
        let tag = entry.tag;
        let (_, rest) = self.area.split_at(entry.from);
        let (bytes, _) = rest.split_at(entry.size);
        (tag, bytes)
    }

    /// Field `k` in the directory's order, from 0. Its body is a slice of the file: all bytes of the field but the closing
    /// 0x1E, and in NATF all bytes.
    pub fn field(&self, k: usize) -> Field<'a>
        requires { k < length (parts self.now) }
        ensures { option_map seen (slice_get (parts self.now) k) ≡ Some (field_view result) }
    {
        let (tag, bytes) = self.part(k);
        let body = body_in(tag, bytes);
        Field { tag, body }
    }

    fn closes(&self, k: usize) -> bool
        requires { k < self.now.count }
        ensures { result ≡ is_closed (part_at k self.now) }
    {
        let (tag, bytes) = self.part(k);
        is_free(tag) || bytes[bytes.len() - 1] == 0x1e
    }

    // Whether the byte 0x1E ends each field but NATF.
    pub(crate) fn is_closed(&self) -> bool
        ensures { result ≡ list_all is_closed (parts self.now) }
    {
        for k in 0..self.count {
            if !self.closes(k) {
                return false;
            }
        }
        true
    }
}
