// Lists of numbers at the beginning of arrays.
ghost use Rattle.std.specs.Prelude.{◌≡◌, ◌≤◌, length, take};

// The numbers first, and then `rest`.
pub(crate) fn padded<const N: usize>(items: &[i32], rest: i32) -> [i32; N]
    requires { length items.now ≤ N }
    ensures { take (length items.now) result ≡ items.now }
{
    let mut array = [rest; N];
    array[..items.len()].copy_from_slice(items);
    array
}
