// The keys of a header.
ghost use Rattle.std.specs.Prelude.{◌≡◌, codes};
ghost use Rattle.grid_reader.specs.Keys.{spells, key_of};

use std::fmt;

/// A key of the header that a grid has to have, as faults name it: `X` and `Y` stand for either
/// spelling. It prints as its name in a header, with the corner's for `X` and `Y`.
#[derive(Clone, Copy, Debug, PartialEq, Eq)]
pub enum GridKey {
    Ncols,
    Nrows,
    X,
    Y,
    CellSize,
}

impl GridKey {
    ghost use Rattle.std.specs.Prelude.{◌≡◌};
    ghost use Rattle.grid_reader.specs.Keys.{grid_key_name};

    /// The key's name in a header.
    pub fn name(self) -> &'static str
        ensures { result.now ≡ grid_key_name self }
    {
        match self {
            GridKey::Ncols => "ncols",
            GridKey::Nrows => "nrows",
            GridKey::X => "xllcorner",
            GridKey::Y => "yllcorner",
            GridKey::CellSize => "cellsize",
        }
    }
}

impl fmt::Display for GridKey {
    ghost use Rattle.std.specs.Prelude.{Some};
    ghost use Rattle.grid_reader.specs.Keys.{grid_key_name};

    ghost output = { λ key. Some (grid_key_name key) };

    fn fmt<W: fmt::Write>(&self, f: &mut fmt::Formatter<W>) -> fmt::Result {
        f.write_str(self.name())
    }
}

/// A key as it is spelled.
#[derive(Clone, Copy)]
pub(crate) enum Key {
    Ncols,
    Nrows,
    XCorner,
    XCenter,
    YCorner,
    YCenter,
    CellSize,
    NoData,
}

// The word is this name in any letter case.
pub(crate) fn is_spelled(word: &[u8], name: &[u8]) -> bool
    ensures { result ≡ spells name.now word.now }
{
    word.eq_ignore_ascii_case(name)
}

#[tactic(auto, unfolding(crate::specs::Keys::key_of))]
pub(crate) fn read_key(word: &[u8]) -> Option<Key>
    ensures { result ≡ key_of word.now }
{
    if is_spelled(word, b"ncols") {
        return Some(Key::Ncols);
    }
    if is_spelled(word, b"nrows") {
        return Some(Key::Nrows);
    }
    if is_spelled(word, b"xllcorner") {
        return Some(Key::XCorner);
    }
    if is_spelled(word, b"xllcenter") {
        return Some(Key::XCenter);
    }
    if is_spelled(word, b"yllcorner") {
        return Some(Key::YCorner);
    }
    if is_spelled(word, b"yllcenter") {
        return Some(Key::YCenter);
    }
    if is_spelled(word, b"cellsize") {
        return Some(Key::CellSize);
    }
    if is_spelled(word, b"nodata_value") {
        return Some(Key::NoData);
    }
    None
}
