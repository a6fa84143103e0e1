// The records of a file, one after the other.
ghost use Rattle.std.specs.Prelude.{◌≡◌, ◌+◌, ◌≤◌, ◌↔◌, length, [], ◌∷◌, IsNone, IfSome, IfOk, MatchOption};
ghost use Rattle.readings.specs.Readings.{Gives};
ghost use Rattle.iso8211_codec.specs.Reading.{first_record, data_record, fields_of};
ghost use Rattle.iso8211_codec.specs.Views.{rec_of, at, left, place, to_come, answer, Steps};

use crate::directory::are_entries;
use crate::entry_map::EntryMap;
use crate::fault::CodecFault;
use crate::leader::{base_of, size_of};
use crate::record::{RawRec, Records};

#[tactic(auto, unfolding(crate::specs::Reading::fields_of))]
fn fields_of<'a>(
    at: usize,
    widths: EntryMap,
    closing: u8,
    entries: &'a [u8],
    area: &'a [u8],
) -> Result<RawRec<'a>, CodecFault>
    requires { (widths.size_of_length ≤ 9) × (widths.size_of_position ≤ 9) }
    ensures { Gives rec_of result (fields_of at widths closing entries.now area.now) }
{
    let width = 4 + widths.size_of_length + widths.size_of_position;
    let count = entries.len() / width;
    let whole = entries.len() > 0 && entries.len() % width == 0;
    if closing != 0x1e || !whole || !are_entries(count, widths, area.len(), entries) {
        return Err(CodecFault::Directory(at));
    }
    let record = RawRec {
        at,
        widths,
        count,
        entries,
        area,
    };
    if record.is_closed() {
        Ok(record)
    } else {
        Err(CodecFault::Field(at))
    }
}

#[tactic(auto, unfolding(crate::specs::Reading::data_record))]
fn data_record(at: usize, bytes: &[u8]) -> Result<(RawRec<'_>, &[u8]), CodecFault>
    ensures gives { Gives (λ x. (rec_of x.0, x.1.now)) result (data_record at bytes.now) }
    ensures shorter { IfOk result (λ x. length x.1.now ≤ length bytes.now) }
{
    let size = size_of(b'D', at, bytes)?;
    let base = base_of(at, size, bytes)?;
    if size > bytes.len() {
        return Err(CodecFault::Short(at));
    }
    let widths = EntryMap {
        size_of_length: (bytes[20] - b'0') as usize,
        size_of_position: (bytes[21] - b'0') as usize,
    };
    let (_, rest) = bytes.split_at(size);
    let fields = fields_of(
        at,
        widths,
        bytes[base - 1],
        &bytes[24..base - 1],
        &bytes[base..size],
    )?;
    Ok((fields, rest))
}

impl<'a> Records<'a> {
    /// Passes over the first record of a file, the data descriptive record of ISO/IEC 8211. Of it only the length and the
    /// leader identifier `L` are tested: a leader of 24 bytes alone is a first record, and an empty file is too short.
    /// `bytes` is the whole file. No memory is taken.
    #[tactic(auto, unfolding(crate::specs::Reading::first_record))]
    pub fn new(bytes: &'a [u8]) -> Result<Records<'a>, CodecFault>
        ensures { Gives place result (first_record bytes.now) }
    {
        let size = size_of(b'L', 0, bytes)?;
        if size > bytes.len() {
            return Err(CodecFault::Short(0));
        }
        Ok(Records {
            at: size,
            rest: &bytes[size..],
        })
    }

    /// The next data record, or the first test that its bytes fail. The answer is None exactly at the end of the file and
    /// after a fault, and stays None then. The record is a view of the file's bytes: no memory is taken.
    pub fn next_rec(&mut self) -> Option<Result<RawRec<'a>, CodecFault>>
        ensures end { IsNone result ↔ (left self.old ≡ []) }
        ensures gives { IfSome result (λ r. Steps r (data_record (at self.old) (left self.old)) (left self.new)) }
        ensures at { at self.new + length (left self.new) ≡ at self.old + length (left self.old) }
        ensures walk { MatchOption result (to_come self.old ≡ []) (λ r. to_come self.old ≡ answer r ∷ to_come self.new) }
    {
        if self.rest.is_empty() {
            return None;
        }
        let long = self.rest.len();
        match data_record(self.at, self.rest) {
            Ok((record, rest)) => {
                self.at += long - rest.len();
                self.rest = rest;
                Some(Ok(record))
            }
            Err(fault) => {
                self.at += long;
                self.rest = &[];
                Some(Err(fault))
            }
        }
    }
}
