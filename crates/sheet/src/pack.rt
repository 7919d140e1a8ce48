// Packing: rows into bytes.
ghost use Rattle.std.specs.Prelude.{◌≡◌, true, ◌++◌, length, drop, is_err, IfOk};
ghost use Rattle.rows.specs.Widths.{places_of};
ghost use Rattle.sheet.specs.Faults.{refusal_in, rows_fault, pack_fault};
ghost use Rattle.sheet.specs.Packing.{sheet_of};
ghost use Rattle.sheets.specs.Format.{size_of_sheet};

use super::sheet_rows::SheetRows;
use rows::refusal::Refusal;
use rows::row_words::RowWords;
use rows::width::Width;

// The most rows on a sheet.
pub const MOST_ROWS: usize = 120;

// How many bytes the sheet of the rows has. Refused where packing them is, whatever the memory.
#[tactic(auto, using(crate::proofs::Rows::sheet_length))]
pub fn packed_size(width: Width, rows: &[RowWords]) -> Result<usize, Refusal>
    ensures refusal { refusal_in result ≡ rows_fault (places_of width) rows.now }
    ensures size { IfOk result (λ n. n ≡ size_of_sheet (places_of width) (length rows.now)) }
    ensures sheet_length { IfOk result (λ n. n ≡ length (sheet_of (places_of width) rows.now)) }
{
    let sheet = SheetRows::of(width, rows)?;
    Ok(sheet.size())
}

// Writes the sheet of the rows, and answers how many bytes it has.
#[tactic(auto, using(crate::proofs::Rows::sheet_length))]
pub fn pack(width: Width, rows: &[RowWords], memory: &mut [u8]) -> Result<usize, Refusal>
    ensures refusal { refusal_in result ≡
        pack_fault (places_of width) rows.now (length memory.old) }
    ensures size { IfOk result (λ n. n ≡ size_of_sheet (places_of width) (length rows.now)) }
    ensures sheet_length { IfOk result (λ n. n ≡ length (sheet_of (places_of width) rows.now)) }
    ensures packed { IfOk result (λ n.
        memory.new ≡ sheet_of (places_of width) rows.now ++ drop n memory.old) }
    ensures untouched_when_refused { is_err result ≡ true → memory.new ≡ memory.old }
{
    let sheet = SheetRows::of(width, rows)?;
    let size = sheet.size();
    if memory.len() < size {
        return Err(Refusal::MemoryTooShort);
    }
    sheet.write(&mut memory[..size]);
    Ok(size)
}
