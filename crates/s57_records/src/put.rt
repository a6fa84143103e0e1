// Bytes at the end.
ghost use Rattle.std.specs.Prelude.{◌≡◌, ◌+◌, ◌≤◌, length, vec_len, vec_capacity, ◌++◌, ◌∷◌, []};
ghost use Rattle.s57_records.specs.Formats.{appended};

use iso8211_codec::put;
use std::alloc::AllocError;

// Appends a text and the byte that ends it, for which there is room.
pub(crate) fn put_text(out: &mut Vec<u8>, text: &[u8])
    requires { vec_len out.old + length text.now + 1 ≤ vec_capacity out.old }
    ensures items { out.new.items ≡ out.old.items ++ (text.now ++ 31 ∷ []) }
    ensures len { vec_len out.new ≡ vec_len out.old + length text.now + 1 }
    ensures capacity { vec_capacity out.old ≤ vec_capacity out.new }
{
    put(out, text);
    put(out, &[0x1f]);
}

/// Appends 0x1E, the byte that ends a field; a refusal leaves `out` as it was.
pub fn close(out: &mut Vec<u8>) -> Result<(), AllocError>
    ensures { out.new.items ≡ appended result out.old.items (30 ∷ []) }
{
    out.extend_from_slice(&[0x1e])
}
