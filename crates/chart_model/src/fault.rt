// Why parts are no chart.
ghost use Rattle.std.specs.Prelude.{◌≡◌};
ghost use Rattle.chart_model.specs.declared.fault.PartFault.TheVariants.{NoMemory};

use std::alloc::AllocError;

/// Why parts are no chart: the first cause in the order of the variants.
#[derive(Clone, Copy, Debug, PartialEq, Eq)]
pub enum PartFault {
    /// The RCNM and the number of the first record whose number stood before in its list.
    Twice(u8, u32),
    /// The RCNM and the number that the first pointer to nothing names.
    Lost(u8, u32),
    /// The number of the first area whose edges don't close.
    Unclosed(u32),
    /// Memory was refused.
    NoMemory,
}

impl From<AllocError> for PartFault {
    ghost from_gives = { λ _ e. e ≡ NoMemory };

    fn from(_e: AllocError) -> PartFault {
        PartFault::NoMemory
    }
}
