// What the types of numbers and arrays say of them. A proof knows it of a parameter, and not of a field behind a
// reference: a call with such a field tells it. It does nothing.
ghost use Rattle.std.specs.Prelude.{◌≡◌, ◌<◌, ◌^◌, length};

/// A number of 8 bits fits a byte.
pub(crate) fn byte_law(number: u8)
    ensures { number < 2 ^ 8 }
{}

/// A number of 16 bits fits two bytes.
pub(crate) fn word_law(number: u16)
    ensures { number < 2 ^ 16 }
{}

/// A number of 32 bits fits four bytes.
pub(crate) fn long_law(number: u32)
    ensures { number < 2 ^ 32 }
{}

/// An array of eight bytes has eight.
pub(crate) fn eight_law(bytes: &[u8; 8])
    ensures { length bytes.now ≡ 8 }
{}

/// An array of four bytes has four.
pub(crate) fn four_law(bytes: &[u8; 4])
    ensures { length bytes.now ≡ 4 }
{}
