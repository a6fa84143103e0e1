// What is stored and said at the end of a command. From here on no memory is taken, so that a cell which is stored is
// also told of, whatever memory is left.
ghost use Rattle.std.specs.Prelude.{◌≡◌, ◌⊎◌, ◌≤◌, ℕ, Some, Option, take, IsErrOf};
ghost use Rattle.chart_dev.specs.Contents.{Contents};
ghost use Rattle.chart_dev.specs.Faults.{Rose};
ghost use Rattle.chart_cli.specs.Answers.{Due, usage};
ghost use Rattle.chart_cli.specs.Ends.{Ends, Keeps, Puts};
ghost use Rattle.chart_cli.specs.Outcomes.{FindsCell, FindsLines, Halts};

use crate::Status;
use crate::cell_answers::CellAnswer;
use crate::halt::Halt;
use chart_dev::{Shelf, Sink, put_all, write_whole};

// Puts out lines, and answers the status that goes with them.
fn say<K: Sink>(out: &mut K, status: Status, lines: &[u8]) -> Status
    ensures said { result ≡ status × Puts lines.now (K.taken out.old) (K.taken out.new)
        ⊎ result ≡ Status.Device × Rose (K.faults out.old) (K.faults out.new) × ((n : ℕ) × Puts (take n lines.now) (K.taken out.old) (K.taken out.new)) }
    ensures later { K.faults out.old ≤ K.faults out.new }
{
    match put_all(out, lines) {
        Ok(()) => status,
        Err(_) => Status::Device,
    }
}

/// Says that words are no command.
pub(crate) fn say_usage<K: Sink>(out: &mut K) -> Status
    ensures said { result ≡ Status.Usage × Puts usage (K.taken out.old) (K.taken out.new)
        ⊎ result ≡ Status.Device × Rose (K.faults out.old) (K.faults out.new) × ((n : ℕ) × Puts (take n usage) (K.taken out.old) (K.taken out.new)) }
    ensures later { K.faults out.old ≤ K.faults out.new }
{
    say(out, Status::Usage, b"chart: these words are no command\n")
}

// Says why a command goes no further.
fn stop<K: Sink>(out: &mut K, halt: Halt) -> Status
    ensures ends { (d : Due) (told : Option Contents) → Halts halt d → Ends result d told told (K.taken out.old) (K.taken out.new) }
    ensures usage { result ≡ Status.Usage → ⊥ }
    ensures done { result ≡ Status.Done → ⊥ }
    ensures device { result ≡ Status.Device → halt ≡ Halt.Device ⊎ Rose (K.faults out.old) (K.faults out.new) }
    ensures later { K.faults out.old ≤ K.faults out.new }
{
    match halt {
        Halt::Refused(line) => say(out, Status::Refused, &line),
        Halt::Device => Status::Device,
        Halt::NoMemory => Status::NoMemory,
    }
}

/// Puts out lines, or says why there are none.
pub(crate) fn tell<K: Sink>(out: &mut K, lines: Result<Vec<u8>, Halt>) -> Status
    ensures ends { (d : Due) (told : Option Contents) → FindsLines lines d → Ends result d told told (K.taken out.old) (K.taken out.new) }
    ensures usage { result ≡ Status.Usage → ⊥ }
    ensures device { result ≡ Status.Device → IsErrOf lines Halt.Device ⊎ Rose (K.faults out.old) (K.faults out.new) }
    ensures later { K.faults out.old ≤ K.faults out.new }
{
    match lines {
        Ok(lines) => say(out, Status::Done, &lines),
        Err(halt) => stop(out, halt),
    }
}

// Stores a cell under a name, and then puts out its line.
fn store<S: Shelf, K: Sink>(shelf: &mut S, out: &mut K, cell: &str, answer: &CellAnswer) -> Status
    ensures ends { (d : Due) → FindsCell cell.now (Ok answer.now) d → Ends result d (S.told shelf.old) (S.told shelf.new) (K.taken out.old) (K.taken out.new) }
    ensures status { result ≡ Status.Done ⊎ result ≡ Status.Device }
    ensures device { result ≡ Status.Device → Rose (S.faults shelf.old) (S.faults shelf.new) ⊎ Rose (K.faults out.old) (K.faults out.new) }
    ensures contents { Keeps result (Some cell.now) (S.told shelf.old) (S.told shelf.new) }
    ensures later { (S.faults shelf.old ≤ S.faults shelf.new) × (K.faults out.old ≤ K.faults out.new) }
{
    match write_whole(shelf, cell, &answer.bytes) {
        Ok(()) => say(out, Status::Done, &answer.line),
        Err(_) => Status::Device,
    }
}

/// Stores a cell under a name and puts out its line, or says why there is no cell.
pub(crate) fn finish<S: Shelf, K: Sink>(
    shelf: &mut S,
    out: &mut K,
    cell: &str,
    answer: Result<CellAnswer, Halt>,
) -> Status
    ensures ends { (d : Due) → FindsCell cell.now answer d → Ends result d (S.told shelf.old) (S.told shelf.new) (K.taken out.old) (K.taken out.new) }
    ensures usage { result ≡ Status.Usage → ⊥ }
    ensures device { result ≡ Status.Device → IsErrOf answer Halt.Device ⊎ Rose (S.faults shelf.old) (S.faults shelf.new) ⊎ Rose (K.faults out.old) (K.faults out.new) }
    ensures contents { Keeps result (Some cell.now) (S.told shelf.old) (S.told shelf.new) }
    ensures later { (S.faults shelf.old ≤ S.faults shelf.new) × (K.faults out.old ≤ K.faults out.new) }
{
    match answer {
        Ok(answer) => store(shelf, out, cell, &answer),
        Err(halt) => stop(out, halt),
    }
}
