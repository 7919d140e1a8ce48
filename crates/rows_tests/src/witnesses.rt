// Witnesses of every range at small widths, tried by brute force.
use ranges::range::{MOST_ROWS, rows_of_range};
use ranges::witness::witness_of_range;
use rows::narrowest::narrowest_row;
use rows::range::Range;
use rows::row_words::RowWords;
use rows::width::Width;
use std::process::Abort;
use std::test::Fail;

// Whether the narrowest row of two numbers takes a number outside the range.
fn parted(rt: &impl Abort, width: Width, range: Range, one: u64, other: u64) -> Result<bool, Fail> {
    let row = narrowest_row(width, one, other)?;
    assert!(rt; row.takes(one) && row.takes(other));
    Ok((0..width.limit()).any(|number| row.takes(number) && !range.contains(number)))
}

// The witness of a range has as many numbers as the range has rows, all of the range, any two parted.
fn check_range(rt: &impl Abort, width: Width, range: Range) -> Result<(), Fail> {
    let mut rows = [RowWords::default(); MOST_ROWS];
    let mut numbers = [0u64; MOST_ROWS];
    let count = rows_of_range(width, range, &mut rows)?;
    assert!(rt; witness_of_range(width, range, &mut numbers)? == count);
    assert!(rt; count <= 62);
    for (i, &number) in numbers[0..count].iter().enumerate() {
        assert!(rt; number < width.limit() && range.contains(number));
        for &other in &numbers[0..i] {
            assert!(rt; parted(rt, width, range, other, number)?);
        }
    }
    Ok(())
}

#[test]
fn witnesses_at_small_widths(rt: HostRuntime) -> Result<(), Fail> {
    for places in 1..6 {
        let width = Width::try_from(places)?;
        for first in 0..width.limit() {
            for last in 0..width.limit() {
                check_range(&rt, width, Range::new(first, last))?;
            }
        }
    }
    Ok(())
}

// The witness of 1 to 6 at width 3, printed.
#[test]
fn witness_of_one_to_six(rt: HostRuntime) -> Result<(), Fail> {
    let mut numbers = [0u64; MOST_ROWS];
    let range = Range::new(1, 6);
    let count = witness_of_range(Width::try_from(3)?, range, &mut numbers)?;
    assert!(rt; count == 3);
    println!(rt;
        "1 to 6 at width 3: {}, {}, {}",
        numbers[0], numbers[1], numbers[2]
    )?;
    Ok(())
}
