// The factor of an overview.
ghost use Rattle.std.specs.Prelude.{◌≤◌};

/// The factor of an overview.
#[derive(Clone, Copy)]
pub(crate) struct Factor {
    pub(crate) number: u32,
    pub ghost several: { 2 ≤ number },
}
