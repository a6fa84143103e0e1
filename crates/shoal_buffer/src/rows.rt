// Rows of keys, taken together key by key.
//
// These are the loops in which a pass spends its time: each does one thing to numbers that stand
// side by side, so that the compiler makes vector code of it.
ghost use Rattle.std.specs.Prelude.{◌≡◌, ℕ, ◌-◌, ◌+◌, ◌<◌, ◌≤◌, length};
ghost use Rattle.shoal_buffer.specs.declared.picks.Pick.TheVariants.{Least};
ghost use Rattle.shoal_buffer.specs.Picks.{better};
ghost use Rattle.shoal_buffer.specs.Keys.{at, least_beside};

fn lesser(a: i32, b: i32) -> i32
    ensures { result ≡ better Least a b }
{
    if b < a { b } else { a }
}

// Keeps of two rows the lesser keys.
pub(crate) fn take_in(least: &mut [i32], row: &[i32])
    requires { length row.now ≡ length least.old }
    ensures full { length least.new ≡ length least.old }
    ensures each { (k : ℕ) → k < length least.old → at least.new k ≡ better Least (at least.old k) (at row.now k) }
{
    for k in 0..least.len() {
        least[k] = lesser(least[k], row[k]);
    }
}

// The least of a row's first key and of the one east of it.
fn west_end(row: &[i32]) -> i32
    requires { 2 ≤ length row.now }
    ensures { result ≡ least_beside row.now 0 }
{
    lesser(row[0], row[1])
}

// The least of a key and of those beside it.
fn between(row: &[i32], at: usize) -> i32
    requires west { 1 ≤ at }
    requires east { at + 1 < length row.now }
    ensures { result ≡ least_beside row.now at }
{
    lesser(lesser(row[at - 1], row[at]), row[at + 1])
}

// The least of a row's last key and of the one west of it.
fn east_end(row: &[i32]) -> i32
    requires { 2 ≤ length row.now }
    ensures { result ≡ least_beside row.now (length row.now - 1) }
{
    lesser(row[row.len() - 2], row[row.len() - 1])
}

// Of each key and those beside it the least.
pub(crate) fn widen(from: &[i32], to: &mut [i32])
    requires full { length to.old ≡ length from.now }
    requires several { 2 ≤ length from.now }
    ensures full { length to.new ≡ length from.now }
    ensures each { (k : ℕ) → k < length from.now → at to.new k ≡ least_beside from.now k }
{
    let last = from.len() - 1;
    to[0] = west_end(from);
    for k in 1..last {
        to[k] = between(from, k);
    }
    to[last] = east_end(from);
}
