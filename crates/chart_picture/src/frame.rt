// How a chart stands in its picture.

/// How far points reach, in ten-millionths of a degree.
#[derive(Clone, Copy)]
pub(crate) struct Bounds {
    pub west: i32,
    pub east: i32,
    pub south: i32,
    pub north: i32,
}

/// How a chart stands in its picture, whose longest side has 10,000 units.
///
/// `west`, `east`, `south` and `north` are its bounds in ten-millionths of a degree; `width` is how wide a degree of
/// longitude is in thousandths of one of latitude; `longest` is the longest side in ten-millionths of a degree of
/// latitude; `across`, `up` and `mm` are the picture's sides and a millimetre on paper in units; `metres` is how wide the
/// chart is in metres.
#[derive(Clone, Copy)]
pub(crate) struct Frame {
    pub west: i32,
    pub east: i32,
    pub south: i32,
    pub north: i32,
    pub width: u64,
    pub longest: u64,
    pub across: u64,
    pub up: u64,
    pub mm: u64,
    pub metres: u64,
}
