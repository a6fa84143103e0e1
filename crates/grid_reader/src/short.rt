// Words of few digits, as most values of a grid are.
ghost use Rattle.std.specs.Prelude.{◌≡◌, ◌+◌, ◌^◌, ◌<◌, ◌≤◌, length, drop, [], IfSome};
ghost use Rattle.std.specs.Int.Digits.{number_from_digits_after};
ghost use Rattle.exact_num.specs.Text.{has_minus, unsigned, leading, following, values};
ghost use Rattle.grid_reader.specs.Millimetres.{IsShort};

/// How many bytes may follow the sign of a short word: twelve digits and a point.
const MOST_BYTES: usize = 13;

/// A number in thousandths: its sign, the whole thousandths of its magnitude, and whether more is left.
#[derive(Clone, Copy)]
pub(crate) struct Thousandths {
    pub negative: bool,
    pub whole: u64,
    pub left: bool,
}

// The first powers of ten.
static TENS: [u64; 4] = [1, 10, 100, 1_000];

fn power_of_ten(places: usize) -> u64
    requires { places ≤ 3 }
    ensures value { result ≡ 10 ^ places }
    ensures most { result ≤ 10 ^ 3 }
{
    TENS[places]
}

// Whether a `-` stands first, and what follows the sign.
fn after_sign(word: &[u8]) -> (bool, &[u8])
    ensures minus { result.0 ≡ has_minus word.now }
    ensures rest { result.1.now ≡ unsigned word.now }
{
    match word {
        [b'-', rest @ ..] => (true, rest),
        [b'+', rest @ ..] => (false, rest),
        _ => (false, word),
    }
}

// The number with the digits from one place up to another behind its own, and where they end. With the digits that are left behind it,
// it makes the same number as before.
fn with_digits(text: &[u8], from: usize, to: usize, number: u64) -> (u64, usize)
    requires from { from ≤ to }
    requires to { to ≤ length text.now }
    requires short { length text.now ≤ 13 }
    requires below { number < 10 ^ from }
    ensures number { number_from_digits_after 10 result.0 (values (leading (drop result.1 text.now))) ≡ number_from_digits_after 10 number (values (leading (drop from text.now))) }
    ensures count { result.1 + length (leading (drop result.1 text.now)) ≡ from + length (leading (drop from text.now)) }
    ensures rest { following (drop result.1 text.now) ≡ following (drop from text.now) }
    ensures stops { result.1 < to → leading (drop result.1 text.now) ≡ [] }
    ensures from { from ≤ result.1 }
    ensures within { result.1 ≤ to }
    ensures below { result.0 < 10 ^ result.1 }
{
    let mut number = number;
    let mut at = from;
    while at < to && text[at].is_ascii_digit() {
        number = number * 10 + (text[at] - b'0') as u64;
        at += 1;
    }
    (number, at)
}

// Where the thousandths end: behind the third byte after the point, or at the end of the text.
fn end_of_thousandths(point: usize, length: usize) -> usize
    requires inside { point < length }
    requires short { length ≤ 13 }
    ensures from { point < result }
    ensures within { result ≤ length }
    ensures few { result ≤ point + 4 }
    ensures all { result < point + 4 → result ≡ length }
{
    let end = point + 4;
    if length < end {
        return length;
    }
    end
}

/// A word in thousandths, if few digits with at most one point among them, at least one digit and no exponent follow its sign.
pub(crate) fn read_short(word: &[u8]) -> Option<Thousandths>
    ensures { IfSome result (λ t. IsShort word.now t) }
{
    let (negative, body) = after_sign(word);
    if body.len() > MOST_BYTES {
        return None;
    }
    let (whole, point) = with_digits(body, 0, body.len(), 0);
    if point == body.len() {
        if point == 0 {
            return None;
        }
        return Some(Thousandths {
            negative,
            whole: whole * 1_000,
            left: false,
        });
    }
    if body[point] != b'.' {
        return None;
    }
    let third = end_of_thousandths(point, body.len());
    let (front, last) = with_digits(body, point + 1, third, whole);
    let (rest, end) = with_digits(body, last, body.len(), 0);
    if end < body.len() || end == 1 {
        return None;
    }
    Some(Thousandths {
        negative,
        whole: front * power_of_ten(point + 4 - last),
        left: rest != 0,
    })
}
