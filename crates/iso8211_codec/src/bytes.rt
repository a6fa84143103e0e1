// Bytes at the end of a list.
ghost use Rattle.std.specs.Prelude.{◌≡◌, ◌+◌, ◌≤◌, ◌++◌, OnErr, OnOk, if◌then◌else◌, is_ok, length, vec_len, vec_capacity};
ghost use Rattle.iso8211_codec.specs.Room.{KeepsRoom};

use std::alloc::AllocError;
use std::mem;

// Bytes at the end of a list that has room for them. Of `extend_from_slice` std says no more than that the capacity doesn't
// fall, so they are pushed; the list comes by value, since its length then stays in a register and the pushes become a copy
// of many bytes at a time.
fn pushed(mut list: Vec<u8>, bytes: &[u8]) -> Vec<u8>
    requires { vec_len list + length bytes.now ≤ vec_capacity list }
    ensures items { result.items ≡ list.items ++ bytes.now }
    ensures len { vec_len result ≡ vec_len list + length bytes.now }
    ensures capacity { vec_capacity result ≡ vec_capacity list }
{
    for byte in bytes {
        list.push_reserved(*byte);
    }
    list
}

/// Appends bytes for which there is room. No memory is asked for: the capacity stays what it was.
pub fn put(out: &mut Vec<u8>, bytes: &[u8])
    requires { vec_len out.old + length bytes.now ≤ vec_capacity out.old }
    ensures items { out.new.items ≡ out.old.items ++ bytes.now }
    ensures len { vec_len out.new ≡ vec_len out.old + length bytes.now }
    ensures capacity { vec_capacity out.new ≡ vec_capacity out.old }
{
    let alloc = *out.allocator();
    let list = mem::replace(out, Vec::new(alloc));
    *out = pushed(list, bytes);
}

// Sees that there is room for so many bytes more. Memory is asked for only where it is missing.
pub(crate) fn make_room(out: &mut Vec<u8>, more: usize) -> Result<(), AllocError>
    ensures items { out.new.items ≡ out.old.items }
    ensures len { vec_len out.new ≡ vec_len out.old }
    ensures room { OnOk result (vec_len out.old + more ≤ vec_capacity out.new) }
    ensures kept { vec_len out.old + more ≤ vec_capacity out.old → vec_capacity out.new ≡ vec_capacity out.old }
    ensures refused { OnErr result (vec_capacity out.new ≡ vec_capacity out.old) }
{
    // Of `reserve` std doesn't say that it leaves room that is enough as it is.
    if more <= out.capacity() - out.len() {
        return Ok(());
    }
    out.reserve(more)
}

// Appends bytes. A refusal leaves `out` as it was.
pub(crate) fn append(out: &mut Vec<u8>, bytes: &[u8]) -> Result<(), AllocError>
    ensures items { out.new.items ≡ (if is_ok result then out.old.items ++ bytes.now else out.old.items) }
    ensures room { KeepsRoom out.old out.new }
{
    make_room(out, bytes.len())?;
    put(out, bytes);
    Ok(())
}
