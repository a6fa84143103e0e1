// What is said of charts made by hand.
use crate::rings::{Draft, Kind};
use cell_check::check;
use cell_reader::read_cell;
use plane_geom::Point;
use std::alloc::Global;
use std::process::Abort;
use std::test::Fail;

// A chart a line: what is to be said of it, and its rings, each with what it is the border of and its corners.
//
// The square; the same in group 2; without its cover; with a cover without data.
// A hole between two areas, north of a height of 5. An overlap of one unit. An area without cover, from a height of 3 on.
// A cover within a cover. Two areas that share a line in part, under a cover with two corners on that line.
// A coverage of group 1 beside a depth area, and one that is area and cover by itself.
// A side of a triangle that crosses a side of the square at a height of 5, within the strip from 2 to 8. The same with an
// uncovered area further south.
// Two squares that touch in a corner. A bow tie whose sides cross within a strip; the same where an end stands at the
// height of the crossing.
const CHARTS: &str = "\
Tiles(1)|cover 0 0 0 10 10 10 10 0|area 0 0 0 10 10 10 10 0
Wrong(0)|cover 0 0 0 10 10 10 10 0|other 0 0 0 10 10 10 10 0
Wrong(0)|area 0 0 0 10 10 10 10 0
Wrong(0)|nodata 0 0 0 10 10 10 10 0|area 0 0 0 10 10 10 10 0
Wrong(5)|cover 0 0 0 10 30 10 30 0|area 0 0 0 10 9 10 10 5 10 0|area 10 0 10 10 30 10 30 0
Wrong(0)|cover 0 0 0 10 30 10 30 0|area 0 0 0 10 11 10 11 0|area 10 0 10 10 30 10 30 0
Wrong(3)|cover 0 0 0 10 10 10 10 0|area 0 0 0 10 10 10 10 0|area 20 3 20 7 30 7 30 3
Tiles(1)|cover 0 0 0 30 30 30 30 0|cover 10 10 10 20 20 20 20 10|area 0 0 0 30 30 30 30 0
Tiles(2)|cover 0 0 0 10 10 10 10 20 20 20 20 4 10 4 10 0|area 0 0 0 10 10 10 10 0|area 10 4 10 20 20 20 20 4
Tiles(2)|both 0 0 0 10 10 10 10 0|cover 10 0 10 10 20 10 20 0|area 10 0 10 10 20 10 20 0
Tiles(1)|both 0 0 0 10 10 10 10 0
Crossed(2)|cover 0 0 0 10 10 10 10 0|area 0 0 0 10 10 10 10 0|area -5 2 5 8 -5 8
Crossed(2)|cover 0 0 0 10 10 10 10 0|area 0 0 0 10 10 10 10 0|area -5 2 5 8 -5 8|area 0 -9 0 -5 9 -5
Tiles(2)|cover 0 0 0 10 10 10 10 0|cover 10 10 10 20 20 20 20 10|area 0 0 0 10 10 10 10 0|area 10 10 10 20 20 20 20 10
Crossed(0)|cover 0 0 0 10 10 0 10 10|area 0 0 0 10 10 0 10 10
Tiles(2)|cover 0 0 0 10 10 0 10 10|area 0 0 0 10 10 0 10 10|cover 20 0 20 5 30 5 30 0|area 20 0 20 5 30 5 30 0
";

fn kind_of(word: &str) -> Kind {
    match word {
        "area" => Kind::Area,
        "other" => Kind::OtherGroup,
        "cover" => Kind::Cover,
        "nodata" => Kind::NoData,
        _ => Kind::Both,
    }
}

fn number_of(word: Option<&str>) -> Result<i32, Fail> {
    Ok(word.ok_or("no number")?.parse()?)
}

fn add_ring(alloc: Global, draft: &mut Draft, ring: &str) -> Result<(), Fail> {
    let mut words = ring.split(' ');
    let kind = kind_of(words.next().ok_or("no kind")?);
    let x = number_of(words.next())?;
    let y = number_of(words.next())?;
    let first = Point { x, y };
    let mut inner = Vec::new(alloc);
    while let Some(word) = words.next() {
        let x = number_of(Some(word))?;
        let y = number_of(words.next())?;
        inner.push(Point { x, y })?;
    }
    draft.add(alloc, kind, first, &inner, 1)?;
    Ok(())
}

fn expect_verdict(rt: &impl Abort, alloc: Global, draft: Draft, due: &str) -> Result<(), Fail> {
    let file = draft.file(alloc)?;
    assert!(rt; file.len() < 4_000_000_000);
    let Ok(chart) = read_cell(alloc, &file) else {
        return Err(Fail::from("no chart"));
    };
    let verdict = check(alloc, &chart)?;
    let said = format!(in alloc; "{verdict:?}")?;
    assert_eq!(rt; said.as_str(), due);
    Ok(())
}

fn expect_line(rt: &impl Abort, alloc: Global, line: &str) -> Result<(), Fail> {
    let mut words = line.split('|');
    let due = words.next().ok_or("no verdict")?;
    let mut draft = Draft::new(alloc);
    for ring in words {
        add_ring(alloc, &mut draft, ring)?;
    }
    expect_verdict(rt, alloc, draft, due)
}

#[test]
fn charts_by_hand_have_their_verdicts(rt: HostRuntime) -> Result<(), Fail> {
    let mut count = 0usize;
    for line in CHARTS.lines() {
        expect_line(&rt, rt.alloc(), line)?;
        count = count.saturating_add(1);
    }
    assert_eq!(rt; count, 16);
    Ok(())
}

// An edge of 10,000 segments that a coverage of group 1 names 102 times: it is an area and a cover, and counted once.
#[test]
fn a_million_segments_are_the_most(rt: HostRuntime) -> Result<(), Fail> {
    let alloc = rt.alloc();
    let mut inner = Vec::new(alloc);
    for i in 1..10_000 {
        inner.push(Point { x: i, y: i % 2 })?;
    }
    let mut draft = Draft::new(alloc);
    draft.add(alloc, Kind::Both, Point { x: 0, y: 0 }, &inner, 102)?;
    expect_verdict(&rt, alloc, draft, "TooMany(1020000)")
}

fn add_square(
    alloc: Global,
    draft: &mut Draft,
    kind: Kind,
    x: i32,
    y: i32,
    side: i32,
) -> Result<(), Fail> {
    let east = x.saturating_add(side);
    let north = y.saturating_add(side);
    let inner = vec![in alloc;
        Point { x, y: north },
        Point { x: east, y: north },
        Point { x: east, y },
    ]?;
    draft.add(alloc, kind, Point { x, y }, &inner, 1)?;
    Ok(())
}

// 900 squares of 10 units under one cover: 3,604 segments.
#[test]
fn many_squares_tile_their_cover(rt: HostRuntime) -> Result<(), Fail> {
    let alloc = rt.alloc();
    let mut draft = Draft::new(alloc);
    add_square(alloc, &mut draft, Kind::Cover, 0, 0, 300)?;
    for i in 0..900 {
        add_square(alloc, &mut draft, Kind::Area, i % 30 * 10, i / 30 * 10, 10)?;
    }
    expect_verdict(&rt, alloc, draft, "Tiles(900)")
}
