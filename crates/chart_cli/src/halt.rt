// Why a command goes no further.
use std::alloc::AllocError;

// Why a command goes no further.
#[derive(Drop)]
pub(crate) enum Halt {
    // An input isn't valid or is too large, which this line says.
    Refused(Vec<u8>),
    // A device failed, or a file isn't there.
    Device,
    // Memory ran out.
    NoMemory,
}

impl From<AllocError> for Halt {
    ghost use Rattle.std.specs.Prelude.{◌≡◌};
    ghost use Rattle.chart_cli.specs.declared.halt.Halt.TheVariants.{NoMemory};

    ghost from_gives = { λ _ e. e ≡ NoMemory };

    fn from(_e: AllocError) -> Halt {
        Halt::NoMemory
    }
}
