// Rows packed into a sheet, and sheets that are refused.
use super::show::ShownRows;
use ranges::range::{MOST_ROWS, rows_of_range};
use rows::range::Range;
use rows::refusal::Refusal;
use rows::row_words::RowWords;
use rows::width::Width;
use sheet::pack::pack;
use sheet::read::read;
use shown::outcome::Outcome;
use std::{fmt, io};

// The sheet of a range's rows.
fn sheet_of_range(range: Range, memory: &mut [u8]) -> Result<&[u8], Refusal> {
    let width = Width::try_from(4)?;
    let mut rows = [RowWords::default(); MOST_ROWS];
    let count = rows_of_range(width, range, &mut rows)?;
    let size = pack(width, &rows[..count], memory)?;
    Ok(&memory[..size])
}

// The rows that a sheet reads to.
fn rows_on<'a>(sheet: &[u8], memory: &'a mut [RowWords]) -> Result<ShownRows<'a>, Refusal> {
    let size = read(sheet, memory)?;
    Ok(ShownRows {
        width: size.width,
        rows: &memory[..size.count],
    })
}

// The bytes of a sheet in hexadecimal, and what they read to.
#[derive(Clone, Copy)]
struct ShownSheet<'a>(&'a [u8]);

impl fmt::Display for ShownSheet<'_> {
    fn fmt<W: fmt::Write>(&self, f: &mut fmt::Formatter<W>) -> fmt::Result {
        for byte in self.0 {
            write!(f, "{byte:02x} ")?;
        }
        let mut memory = [RowWords::default(); 8];
        write!(f, "->{}", Outcome(rows_on(self.0, &mut memory)))
    }
}

// How many bytes a sheet has.
#[derive(Clone, Copy)]
struct ByteCount(usize);

impl fmt::Display for ByteCount {
    fn fmt<W: fmt::Write>(&self, f: &mut fmt::Formatter<W>) -> fmt::Result {
        write!(f, " {} bytes", self.0)
    }
}

pub(super) fn packed_ranges(rt: &impl Print) -> io::Result<()> {
    println!(rt; "Sheets: the rows of 3 to 12 at width 4, then damaged ones")?;
    let mut memory = [0u8; 6];
    let sheet = sheet_of_range(Range::new(3, 12), &mut memory);
    println!(rt; "{}", Outcome(sheet.map(ShownSheet)))?;
    let damaged: [&[u8]; 7] = [
        &[0x18],
        &[0x1f, 0xf0],
        &[0x18, 0x40, 0x05],
        &[0x18, 0x10, 0x0f],
        &[0x18, 0x11, 0x05],
        &[0x18, 0x10, 0x05, 0x00],
        &[0x18, 0x90, 0, 0, 0, 0, 0, 0, 0, 0, 0],
    ];
    for sheet in damaged {
        println!(rt; "{}", ShownSheet(sheet))?;
    }
    Ok(())
}

pub(super) fn unpacked_rows(rt: &impl Print) -> io::Result<()> {
    println!(rt; "Rows that are not packed: too wide, too many, too little memory")?;
    let width = Width::try_from(4).unwrap();
    let wide = [RowWords { value: 0, care: 16 }];
    let many = [RowWords::default(); 121];
    let mut sheet = [0u8; 64];
    let packed = [
        pack(width, &wide, &mut sheet),
        pack(width, &many, &mut sheet),
        pack(width, &many[..1], &mut sheet[..2]),
    ];
    for size in packed {
        println!(rt; "{}", Outcome(size.map(ByteCount)))?;
    }
    Ok(())
}
