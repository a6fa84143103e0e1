// A record of a file.
ghost use Rattle.std.specs.Prelude.{◌≡◌, ◌+◌, ◌*◌, ◌^◌, ◌<◌, ◌≤◌, IsTrue, length};
ghost use Rattle.iso8211_codec.specs.Reading.{width, are_entries};

use crate::entry_map::EntryMap;

/// The tag of a field: four bytes, as `VRID`.
pub type Tag = [u8; 4];

/// A field: its tag, and its bytes without the closing 0x1E, except in NATF, which has all its bytes.
#[derive(Clone, Copy, Debug)]
pub struct Field<'a> {
    pub tag: Tag,
    pub body: &'a [u8],
}

/// A data record of a file, as a view of the file's bytes. Every test of its leader, directory and fields has been passed.
#[derive(Clone, Copy, Debug)]
pub struct RawRec<'a> {
    pub(crate) at: usize,
    pub(crate) widths: EntryMap,
    pub(crate) count: usize,
    pub(crate) entries: &'a [u8],
    pub(crate) area: &'a [u8],
    ghost some: { 0 < count },
    ghost narrow: { (widths.size_of_length ≤ 9) × (widths.size_of_position ≤ 9) },
    ghost whole: { length entries.now ≡ count * width widths },
    ghost named: { IsTrue (are_entries count widths 0 (length area.now) entries.now) },
}

/// The data records of a file that are still to come, in the order in which they lie there.
#[derive(Clone, Copy, Debug)]
pub struct Records<'a> {
    pub(crate) at: usize,
    pub(crate) rest: &'a [u8],
    ghost place: { at + length rest.now < 2 ^ 64 },
}
