// Why a text is no sheet.
ghost use Rattle.std.specs.Prelude.{◌≡◌};
ghost use Rattle.rule_sheet.specs.declared.fault.SheetFault.TheVariants.{NoMemory};

use crate::Key;
use std::alloc::AllocError;
use thiserror::Error;

/// The first thing that keeps a text from being a sheet.
#[derive(Clone, Copy, Debug, PartialEq, Eq, Error)]
pub enum SheetFault {
    /// The bytes aren't UTF-8, or the text is no TOML document.
    #[error("the text is no TOML document")]
    Toml,
    /// A key that has no default isn't there.
    #[error("the key `{0}` is missing")]
    Missing(Key),
    /// The value of a key, or an item of it, is of another TOML kind.
    #[error("the value of `{0}` is of another kind")]
    Kind(Key),
    /// The value of a key is out of its range.
    #[error("the value of `{0}` is out of range")]
    Range(Key),
    /// The items of a key's value break its order.
    #[error("the items of `{0}` are out of order")]
    Order(Key),
    /// A key at the top of the text is none of the sheet's.
    #[error("the text has a key that no sheet has")]
    Unknown,
    /// There was no room for the work. It says nothing of the text.
    #[error("out of memory")]
    NoMemory,
}

impl From<AllocError> for SheetFault {
    ghost from_gives = { λ _ e. e ≡ NoMemory };

    fn from(_refused: AllocError) -> SheetFault {
        SheetFault::NoMemory
    }
}
