// Charts that are written as cells.
use crate::by_hand::chart;
use cell_reader::read_cell;
use cell_writer::{fits, write_cell};
use std::alloc::Global;
use std::process::Abort;
use std::test::Fail;
use testing_cells::{DIVIDED, HOLED, SQUARE, file_of};

// The chart of a cell with these data records is written as the same bytes.
fn expect_again(rt: &impl Abort, alloc: Global, records: &[u8]) -> Result<(), Fail> {
    let file = file_of(alloc, records)?;
    assert!(rt; file.len() < 4_000_000_000);
    let chart = read_cell(alloc, &file).ok().ok_or("no chart")?;
    assert!(rt; fits(&chart));
    let again = write_cell(alloc, &chart)?;
    assert_eq!(rt; again.as_slice(), file.as_slice());
    Ok(())
}

// A depth area, one that a contour divides, and one with areas inside.
#[test]
fn cells_are_written_as_they_were_read(rt: HostRuntime) -> Result<(), Fail> {
    expect_again(&rt, rt.alloc(), &SQUARE)?;
    expect_again(&rt, rt.alloc(), &DIVIDED)?;
    expect_again(&rt, rt.alloc(), &HOLED)
}

#[test]
fn a_chart_made_by_hand_is_written(rt: HostRuntime) -> Result<(), Fail> {
    let file = file_of(rt.alloc(), &SQUARE)?;
    assert_eq!(rt; file.len(), 2303);
    let chart = chart(rt.alloc()).ok().ok_or("no chart")?;
    assert!(rt; fits(&chart));
    let cell = write_cell(rt.alloc(), &chart)?;
    assert_eq!(rt; cell.as_slice(), file.as_slice());
    Ok(())
}
