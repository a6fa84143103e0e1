// Words that are values.
ghost use Rattle.std.specs.Prelude.{◌≡◌};
ghost use Rattle.grid_reader.specs.Marks.{mark_of};

use crate::key::is_spelled;
use exact_num::{Decimal, read_decimal};

/// What a word says that is a number or `nan`: the number, or that there is none.
#[tactic(auto, unfolding(crate::specs::Marks::mark_of))]
pub(crate) fn read_mark(word: &[u8]) -> Option<Option<Decimal>>
    ensures { result ≡ mark_of word.now }
{
    match read_decimal(word) {
        Ok(number) => Some(Some(number)),
        Err(_) => {
            if is_spelled(word, b"nan") {
                return Some(None);
            }
            None
        }
    }
}
