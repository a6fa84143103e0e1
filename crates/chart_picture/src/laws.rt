// Laws over the definitions: each function's contract is a law, and it does nothing.
ghost use Rattle.chart_picture.specs.Laws.{NumbersArePlain, NumbersStandAtPlaces, PathsHaveCorners, PicturesDrawEachOnce, PicturesHaveOwnMarks, PlacesKeepDirections, TextsHaveOneEach};

use exact_num::reads_parts;

/// Of a cell's own bytes a picture has digits, signs, points and the letter of a power of ten alone, or a question mark in
/// their place.
pub fn plain_numbers()
    ensures { NumbersArePlain }
{
    reads_parts();
}

/// A path along points has one corner for each of them, in their order.
pub fn corners_of_paths()
    ensures { PathsHaveCorners }
{}

/// North is up and east is right.
pub fn kept_directions()
    ensures { PlacesKeepDirections }
{}

/// Each `<` of a picture begins one of its thirteen tags, and each `&` the sign for degrees, whatever the chart holds: so it
/// has no script and no link.
pub fn own_marks()
    ensures { PicturesHaveOwnMarks }
{
    plain_numbers();
}

/// A picture is a head, a path for each area of group 1, the deepest first, a path for each contour, a border and a number
/// for each sounding of the isolated nodes. It has no further paths but a scale bar, and no further numbers but the border's.
pub fn each_once()
    ensures { PicturesDrawEachOnce }
{
    plain_numbers();
}

/// An area and a contour have one path with one title, and a sounding has one number.
pub fn one_each()
    ensures { TextsHaveOneEach }
{
    plain_numbers();
}

/// The number of a sounding begins with its place, from which it stands seven tenths of a millimetre lower.
pub fn numbers_at_places()
    ensures { NumbersStandAtPlaces }
{}
