// Records as bytes.
ghost use Rattle.std.specs.Prelude.{◌≡◌, ◌+◌, ◌*◌, ◌%◌, ◌<◌, ◌≤◌, ◌++◌, ◌∷◌, [], length, is_ok, if◌then◌else◌, vec_len, vec_capacity, All};
ghost use Rattle.std.specs.List.{sum, AllByRecursion};
ghost use Rattle.iso8211_codec.specs.Digits.{five};
ghost use Rattle.iso8211_codec.specs.Layout.{AreFields, size, base, leader, entries_from, layout};
ghost use Rattle.iso8211_codec.specs.Room.{KeepsRoom};

use crate::bytes::{make_room, put};
use crate::entry_map::{ENTRY_LEN, FRAME_LEN};
use crate::record::Tag;
use std::alloc::AllocError;

fn digit(n: usize) -> u8
    ensures { result ≡ 48 + n % 10 }
{
    b'0' + (n % 10) as u8
}

fn five(n: usize) -> [u8; 5]
    requires { n < 100000 }
    ensures { result ≡ five n }
{
    [
        digit(n / 10000),
        digit(n / 1000),
        digit(n / 100),
        digit(n / 10),
        digit(n),
    ]
}

fn put_leader(out: &mut Vec<u8>, size: usize, base: usize)
    requires size { size < 100000 }
    requires base { base < 100000 }
    requires room { vec_len out.old + 24 ≤ vec_capacity out.old }
    ensures items { out.new.items ≡ out.old.items ++ leader size base }
    ensures len { vec_len out.new ≡ vec_len out.old + 24 }
    ensures capacity { vec_capacity out.new ≡ vec_capacity out.old }
{
    let s = five(size);
    let b = five(base);
    put(
        out,
        &[
            s[0], s[1], s[2], s[3], s[4], b' ', b'D', b' ', b' ', b' ', b' ', b' ', b[0], b[1],
            b[2], b[3], b[4], b' ', b' ', b' ', b'5', b'5', b'0', b'4',
        ],
    );
}

fn put_entry(out: &mut Vec<u8>, tag: Tag, size: usize, from: usize)
    requires size { size < 100000 }
    requires from { from < 100000 }
    requires room { vec_len out.old + 14 ≤ vec_capacity out.old }
    ensures items { out.new.items ≡ out.old.items ++ (tag ++ five size ++ five from) }
    ensures len { vec_len out.new ≡ vec_len out.old + 14 }
    ensures capacity { vec_capacity out.new ≡ vec_capacity out.old }
{
    let s = five(size);
    let f = five(from);
    put(out, &tag);
    put(
        out,
        &[s[0], s[1], s[2], s[3], s[4], f[0], f[1], f[2], f[3], f[4]],
    );
}

// Appends the entries of fields of these lengths, the first of which lies at 0.
fn put_entries(out: &mut Vec<u8>, tags: &[Tag], lens: &[usize])
    requires paired { length tags.now ≡ length lens.now }
    requires fits { sum lens.now < 100000 }
    requires room { vec_len out.old + 14 * length lens.now ≤ vec_capacity out.old }
    ensures items { out.new.items ≡ out.old.items ++ entries_from 0 tags.now lens.now }
    ensures len { vec_len out.new ≡ vec_len out.old + 14 * length lens.now }
    ensures capacity { vec_capacity out.new ≡ vec_capacity out.old }
{
    let mut from = 0;
    for k in 0..lens.len() {
        put_entry(out, tags[k], lens[k], from);
        from += lens[k];
    }
}

/// The length in bytes of a data record with fields of these lengths, each closing 0x1E counted: a leader of 24 bytes, an
/// entry of 14 bytes a field, 0x1E, and the fields. No memory is taken.
pub fn record_len(lens: &[usize]) -> usize
    requires count { length lens.now ≤ 1000 }
    requires each { All (λ n. n ≤ 10000000) lens.now }
    ensures { result ≡ size lens.now }
{
    let mut total = FRAME_LEN + ENTRY_LEN * lens.len();
    for n in lens {
        total += *n;
    }
    total
}

/// Appends a data record whose fields have these tags and are the parts of `bodies` of these lengths, the closing 0x1E
/// counted (ISO/IEC 8211: leader, directory, field area). The record has at most 99,999 bytes, the most that five digits
/// say. Memory is asked for only where `out` has no room for the record. A refusal leaves `out` as it was.
pub fn write_rec(
    out: &mut Vec<u8>,
    tags: &[Tag],
    lens: &[usize],
    bodies: &[u8],
) -> Result<(), AllocError>
    requires { AreFields tags.now lens.now bodies.now }
    ensures items { out.new.items ≡ (if is_ok result then out.old.items ++ layout tags.now lens.now bodies.now else out.old.items) }
    ensures room { KeepsRoom out.old out.new }
{
    let base = FRAME_LEN + ENTRY_LEN * lens.len();
    let size = base + bodies.len();
    make_room(out, size)?;
    put_leader(out, size, base);
    put_entries(out, tags, lens);
    put(out, &[0x1e]);
    put(out, bodies);
    Ok(())
}
