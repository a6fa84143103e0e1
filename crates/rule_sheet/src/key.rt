// The keys of a sheet.
use std::fmt;

/// A key of a sheet, in the order in which keys are tested. It prints as its name in a sheet.
#[derive(Clone, Copy, Debug, PartialEq, Eq)]
pub enum Key {
    Version,
    Positive,
    Levels,
    StepFrom,
    Steps,
    Aspect,
    DiscRadius,
    SoundingRadius,
    Name,
    Edition,
    Issued,
    Agency,
    Scale,
    Usage,
    VerticalDatum,
    SoundingDatum,
    Catzoc,
}

impl Key {
    ghost use Rattle.std.specs.Prelude.{◌≡◌};
    ghost use Rattle.rule_sheet.specs.Keys.{name_of};

    /// The key's name in a sheet.
    pub fn name(self) -> &'static str
        ensures { result.now ≡ name_of self }
    {
        match self {
            Key::Version => "version",
            Key::Positive => "positive",
            Key::Levels => "levels",
            Key::StepFrom => "step_from",
            Key::Steps => "steps",
            Key::Aspect => "aspect",
            Key::DiscRadius => "disc_radius",
            Key::SoundingRadius => "sounding_radius",
            Key::Name => "name",
            Key::Edition => "edition",
            Key::Issued => "issued",
            Key::Agency => "agency",
            Key::Scale => "scale",
            Key::Usage => "usage",
            Key::VerticalDatum => "vertical_datum",
            Key::SoundingDatum => "sounding_datum",
            Key::Catzoc => "catzoc",
        }
    }
}

impl fmt::Display for Key {
    ghost use Rattle.std.specs.Prelude.{Some};
    ghost use Rattle.rule_sheet.specs.Keys.{name_of};

    ghost output = { λ key. Some (name_of key) };

    fn fmt<W: fmt::Write>(&self, f: &mut fmt::Formatter<W>) -> fmt::Result {
        f.write_str(self.name())
    }
}
