// Numbers: their floors, whole numbers, negations, order and printed texts.
use exact_num::{
    Decimal, decimetres_text, degree_text, less, read_decimal, same, scaled_floor, whole,
};
use std::alloc::Global;
use std::process::Abort;
use std::test::Fail;

// A number, decimal places, and the floor of it in units of the last place.
const FLOORS: &str = r"-12.3451 3 -> -12346
12.3459 3 -> 12345
12 3 -> 12000
-12 3 -> -12000
-0 24 -> 0
0e999999 24 -> 0
1e-999999 24 -> 0
-1e-999999 24 -> -1
-1e-30 7 -> -1
180.00000009 7 -> 1800000000
-180.00000001 7 -> -1800000001
1e999999 0 -> none
-1e999999 24 -> none
1e30 0 -> none
-1e30 0 -> none
999999999999999999999999999999.999 0 -> 999999999999999999999999999999
-999999999999999999999999999999.999 0 -> -1000000000000000000000000000000
1e6 24 -> none
1e5 24 -> 100000000000000000000000000000
1234567890123456789012345678901234567890123456789012345678901.5 0 -> none
123456789012345678901234567890123456789012345678901234567890e-33 0 -> 123456789012345678901234567
-12345678901234567890123456789012345678901234567890123456789e-33 0 -> -12345678901234567890123457
-10000000000000000000000000000000000000000000000000000000001e-33 0 -> -10000000000000000000000001
-10000000000000000000000000000000000000000000000000000000000e-33 0 -> -10000000000000000000000000
9999999999999999999999999999999999999999999999999999999999.99999 0 -> none
0.00000000000000000000000000000000000000000000000000000000000012 24 -> 0
12345678901234567890123456789012345.678901234567890123456789012 0 -> none
-12345678901234567890123.4567890123456789012345678901234567890 3 -> -12345678901234567890123457
0000000000000000000000000000000000000012345.67800000000000000000 3 -> 12345678
1e-65 0 -> 0
10000000000000000000000000000000000e-35 1 -> 1
";

// A number, and the whole number that it is.
const WHOLES: &str = r"1.5 -> none
1.50e1 -> 15
-1.50e1 -> -15
-0.0 -> 0
1e29 -> 100000000000000000000000000000
1e30 -> none
-1e30 -> none
100e-2 -> 1
100e-3 -> none
1e-999999 -> none
0e-999999 -> 0
3.000000000000000000000000000000000000000000000000000000000000 -> 3
3.000000000000000000000000000000000000000000000000000000000001 -> none
";

// Two numbers of one value a line.
const SAME: &str = r"0 -> -0
0 -> 0e999999
-0.000 -> 0e-999999
1 -> 1.0
1e2 -> 100
-9999 -> -9.999e3
-9999 -> -9999.0000
1e999999 -> 10e999998
1e-999999 -> 0.1e-999998
-3.4028234663852886e+38 -> -3.4028234663852886E+38
-3.4028234663852886e+38 -> -340282346638528860000000000000000000000
1e63 -> 1000000000000000000000000000000000000000000000000000000000000000
1e32 -> 100000000000000000000000000000000
1e33 -> 1000000000000000000000000000000000
";

// A number that is less, and one that it is less than.
const LESS: &str = r"9e1 -> 100.0
-0.1 -> 0
-1 -> -0.999
-1e999999 -> -1
1e-999999 -> 1e999999
0e999999 -> 1e-999999
-1e-999999 -> 0e999999
99.999999999999999999999999999999999999999999999999999999 -> 1e2
5 -> 5.00000000000000000000000000000000000000000000000000000000001
-5.0001 -> -5
";

// Decimetres, and the metres printed.
const METRES: &str = r"209 -> 20.9
210 -> 21
305 -> 30.5
310 -> 31
-4 -> -0.4
0 -> 0
100 -> 10
101 -> 10.1
-10 -> -1
-15 -> -1.5
-2147483648 -> -214748364.8
2147483647 -> 214748364.7
";

// Ten-millionths of a degree, and the degrees printed.
const DEGREES: &str = r"-5 -> -0.0000005
32000 -> 0.0032000
0 -> 0.0000000
10000000 -> 1.0000000
-1800000000 -> -180.0000000
1234567891 -> 123.4567891
-2147483648 -> -214.7483648
2147483647 -> 214.7483647
";

fn number(rt: &impl Abort, text: &str) -> Decimal {
    let read = read_decimal(text.as_bytes());
    assert!(rt; read.is_ok(), "{text}");
    read.ok().expect(rt, "read")
}

fn below(rt: &impl Abort, a: &str, b: &str) -> bool {
    less(&number(rt, a), &number(rt, b))
}

// The text that a floor or a whole number is given by in the tables.
fn told(alloc: Global, value: Option<i128>) -> Result<String, Fail> {
    match value {
        Some(value) => Ok(format!(in alloc; "{value}")?),
        None => Ok(String::from_str(alloc, "none")?),
    }
}

#[test]
fn floors(rt: HostRuntime) -> Result<(), Fail> {
    for line in FLOORS.lines() {
        let (asked, wanted) = line.split_once(" -> ").unwrap_or((line, ""));
        let (text, places) = asked.split_once(" ").unwrap_or((asked, ""));
        let places = places.parse::<u32>().unwrap_or(24);
        let value = number(&rt, text);
        if places <= 24 {
            let floor = told(rt.alloc(), scaled_floor(&value, places))?;
            assert_eq!(rt; floor.as_str(), wanted, "{line}");
        }
    }
    Ok(())
}

#[test]
fn wholes(rt: HostRuntime) -> Result<(), Fail> {
    for line in WHOLES.lines() {
        let (text, wanted) = line.split_once(" -> ").unwrap_or((line, ""));
        let answer = told(rt.alloc(), whole(&number(&rt, text)))?;
        assert_eq!(rt; answer.as_str(), wanted, "{line}");
    }
    Ok(())
}

// Texts that no word of a grid can be.
#[test]
fn empty_texts_and_blanks(rt: HostRuntime) {
    for text in ["", "1 ", " 1"] {
        assert!(rt; read_decimal(text.as_bytes()).is_err(), "{text}");
    }
}

#[test]
fn orders(rt: HostRuntime) {
    for line in LESS.lines() {
        let (a, b) = line.split_once(" -> ").unwrap_or((line, ""));
        assert!(rt; below(&rt, a, b), "{line}");
        assert!(rt; !below(&rt, b, a), "{line}");
    }
    for line in SAME.lines() {
        let (a, b) = line.split_once(" -> ").unwrap_or((line, ""));
        assert!(rt; !below(&rt, a, b) && !below(&rt, b, a), "{line}");
    }
}

#[test]
fn negations(rt: HostRuntime) {
    assert!(rt; same(&number(&rt, "1").negated(), &number(&rt, "-1")));
    assert!(rt; same(&number(&rt, "0").negated(), &number(&rt, "0")));
    assert!(rt; same(&number(&rt, "-3.5e7").negated(), &number(&rt, "35000000")));
}

#[test]
fn printed(rt: HostRuntime) -> Result<(), Fail> {
    for line in METRES.lines() {
        let (dm, wanted) = line.split_once(" -> ").unwrap_or((line, ""));
        let text = decimetres_text(rt.alloc(), dm.parse::<i32>().unwrap_or(1))?;
        assert_eq!(rt; text.as_str(), wanted);
    }
    for line in DEGREES.lines() {
        let (units, wanted) = line.split_once(" -> ").unwrap_or((line, ""));
        let text = degree_text(rt.alloc(), units.parse::<i32>().unwrap_or(1))?;
        assert_eq!(rt; text.as_str(), wanted);
    }
    Ok(())
}
