// Packing and reading a sheet of 120 rows at width 32.
use super::stopwatch::timed;
use rows::row_words::RowWords;
use rows::width::Width;
use sheet::pack::{MOST_ROWS, pack};
use sheet::read::read;
use shown::outcome::Outcome;
use std::io;
use std::rt::Clock;

const CALLS: u32 = 20_000;

// Rows of many kinds.
fn mixed_rows() -> [RowWords; MOST_ROWS] {
    let mut rows = [RowWords::default(); MOST_ROWS];
    let mut seed = 1u32;
    for row in rows.iter_mut() {
        seed = seed.wrapping_mul(1_664_525).wrapping_add(1_013_904_223);
        row.care = seed;
        row.value = seed & seed.rotate_left(7);
    }
    rows
}

pub(super) fn measure<R: Print + Clock>(rt: &R) -> io::Result<()> {
    let width = Width::try_from(32).unwrap();
    let mut memory = mixed_rows();
    let mut sheet = [0u8; 962];
    let packed = timed(rt, CALLS, |_| pack(width, &memory, &mut sheet))?;
    let unpacked = timed(rt, CALLS, |_| {
        read(&sheet, &mut memory).map(|size| size.count)
    })?;
    let packed = Outcome(packed.map(|time| time.in_unit("bytes")));
    let unpacked = Outcome(unpacked.map(|time| time.in_unit("rows")));
    println!(rt; "sheet of 120 rows: packed in{packed}, read in{unpacked}")
}
