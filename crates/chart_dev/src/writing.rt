// Whole writes.
ghost use Rattle.std.specs.Prelude.{◌≡◌, ◌⊎◌, ◌++◌, ℕ, take, option_map, IsSome, IfSome, OnOk, OnErr};
ghost use Rattle.std.specs.FinMap.{get};
ghost use Rattle.chart_dev.specs.Contents.{appended, holding};
ghost use Rattle.chart_dev.specs.Faults.{HasCause};

use crate::{Failed, Shelf, Sink};

/// Puts out all the bytes. Where it fails, the sink has taken a prefix of them, or none. It takes no memory of its own.
pub fn put_all<K: Sink>(out: &mut K, bytes: &[u8]) -> Result<(), Failed>
    ensures ok { OnOk result (K.taken out.new ≡ option_map (λ taken. taken ++ bytes.now) (K.taken out.old)) }
    ensures err { OnErr result ((n : ℕ) × (K.taken out.new ≡ option_map (λ taken. taken ++ take n bytes.now) (K.taken out.old))) }
    ensures cause { HasCause (K.faults out.old) (K.faults out.new) result }
{
    let mut done = 0;
    while done < bytes.len() {
        let Ok(count) = out.put(&bytes[done..]) else {
            return Err(Failed);
        };
        done += count;
    }
    Ok(())
}

/// Adds all the bytes at the end of those of a name that is there. The other names stay. Where it fails, a prefix of the
/// bytes is added, or none. It takes no memory of its own.
pub fn append_all<S: Shelf>(shelf: &mut S, name: &str, bytes: &[u8]) -> Result<(), Failed>
    requires { IfSome (S.told shelf.old) (λ files. IsSome (get files name.now)) }
    ensures ok { OnOk result (S.told shelf.new ≡ option_map (appended name.now bytes.now) (S.told shelf.old)) }
    ensures there { OnOk result (IfSome (S.told shelf.new) (λ files. IsSome (get files name.now))) }
    ensures err { OnErr result ((n : ℕ) × (S.told shelf.new ≡ option_map (appended name.now (take n bytes.now)) (S.told shelf.old))) }
    ensures cause { HasCause (S.faults shelf.old) (S.faults shelf.new) result }
{
    let mut added = 0;
    while added < bytes.len() {
        let Ok(count) = shelf.append(name, &bytes[added..]) else {
            return Err(Failed);
        };
        added += count;
    }
    Ok(())
}

/// Makes the bytes of a name the given ones, whether it was there or not. The other names stay. Where it fails, the
/// contents are as before, or the name holds a prefix of the bytes.
pub fn write_whole<S: Shelf>(shelf: &mut S, name: &str, bytes: &[u8]) -> Result<(), Failed>
    ensures ok { OnOk result (S.told shelf.new ≡ option_map (holding name.now bytes.now) (S.told shelf.old)) }
    ensures err { OnErr result ((S.told shelf.new ≡ S.told shelf.old)
        ⊎ ((n : ℕ) × (S.told shelf.new ≡ option_map (holding name.now (take n bytes.now)) (S.told shelf.old)))) }
    ensures cause { HasCause (S.faults shelf.old) (S.faults shelf.new) result }
{
    let Ok(()) = shelf.start(name) else {
        return Err(Failed);
    };
    match append_all(shelf, name, bytes) {
        Ok(()) => Ok(()),
        Err(failed) => Err(failed),
    }
}
