// What the values of a sheet are that was read from a text.
use depth_rounding::shoal;
use rule_sheet::{Key, Sheet, read_sheet};
use std::alloc::Global;
use std::process::Abort;
use std::test::Fail;

// A sheet without the keys that have a default.
const PLAIN: &str = r#"version = 1
positive = "down"
levels = []
sounding_radius = [2000]
name = "XX5ROW02"
edition = 1
issued = "20240131"
agency = 7
scale = 12000
usage = 5
vertical_datum = 3
sounding_datum = 23
"#;

// What it says, the bytes of its name and its day among it.
const PLAIN_VALUES: &str =
    "Down 1000 0 1000 1 2000 [88, 88, 53, 82, 79, 87, 48, 50] 8 1 [50, 48, 50, 52, 48, 49, 51, 49] 7 12000 5 3 23 None";

// A sheet with every key.
const FULL: &str = r#"version = 2
positive = 'up'
levels = [-20, 0, 50]
step_from = [15]
steps = [2, 5]
aspect = 616
disc_radius = 3_000
sounding_radius = [0, 1000, 2000, 64000]
name = "A1"
edition = 999
issued = "20240131"
agency = 65535
scale = 100000000
usage = 5
vertical_datum = 3
sounding_datum = 23
catzoc = 6
"#;

const FULL_VALUES: &str =
    "Up 616 3000 616 4 0 [65, 49, 0, 0, 0, 0, 0, 0] 2 999 [50, 48, 50, 52, 48, 49, 51, 49] 65535 100000000 5 3 23 Some(6)";

/// What a sheet says, but for its steps, its levels and further radii.
pub(crate) fn told(alloc: Global, sheet: &Sheet) -> Result<String, Fail> {
    let name = sheet.name;
    let issued = sheet.issued;
    let text = format!(in alloc;
        "{:?} {} {} {} {} {} {:?} {} {} {:?} {} {} {} {} {} {:?}",
        sheet.positive,
        sheet.disc.aspect,
        sheet.disc.radius,
        sheet.radii.aspect,
        sheet.radii.count,
        sheet.radii.radius[0],
        name,
        sheet.name_len,
        sheet.edition,
        issued,
        sheet.agency,
        sheet.scale,
        sheet.usage,
        sheet.vertical_datum,
        sheet.sounding_datum,
        sheet.catzoc
    )?;
    Ok(text)
}

fn expect_plain(rt: &impl Abort, alloc: Global) -> Result<(), Fail> {
    let plain = read_sheet(alloc, PLAIN.as_bytes())?;
    let text = told(alloc, &plain)?;
    assert_eq!(rt; text.as_str(), PLAIN_VALUES);
    assert_eq!(rt; plain.levels.count(), 0);
    assert_eq!(rt; shoal(&plain.bands, 20_999), 209);
    assert_eq!(rt; shoal(&plain.bands, 30_999), 305);
    assert_eq!(rt; shoal(&plain.bands, 31_999), 310);
    Ok(())
}

fn expect_full(rt: &impl Abort, alloc: Global) -> Result<(), Fail> {
    let full = read_sheet(alloc, FULL.as_bytes())?;
    let text = told(alloc, &full)?;
    assert_eq!(rt; text.as_str(), FULL_VALUES);
    assert_eq!(rt; (full.radii.count, full.radii.radius[3]), (4, 64_000));
    assert_eq!(rt; full.levels.count(), 3);
    assert_eq!(rt; full.levels.band(-21), 0);
    assert_eq!(rt; full.levels.band(-20), 1);
    assert_eq!(rt; full.levels.band(50), 3);
    assert_eq!(rt; shoal(&full.bands, 1499), 14);
    assert_eq!(rt; shoal(&full.bands, 1500), 15);
    Ok(())
}

#[test]
fn values_of_a_sheet(rt: HostRuntime) -> Result<(), Fail> {
    expect_plain(&rt, rt.alloc())?;
    expect_full(&rt, rt.alloc())
}

#[test]
fn names_of_keys(rt: HostRuntime) -> Result<(), Fail> {
    let mut text = String::new(rt.alloc());
    write!(
        text,
        "{} {} {}",
        Key::StepFrom,
        Key::VerticalDatum,
        Key::Catzoc
    )?;
    assert_eq!(rt; text.as_str(), "step_from vertical_datum catzoc");
    Ok(())
}
