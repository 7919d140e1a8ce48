// Reading: bytes into rows.
ghost use Rattle.std.specs.Prelude.{◌≡◌, ℕ, true, ◌≤◌, List, length, map, is_err, IfOk, IsOkAnd};
ghost use Rattle.covers.specs.Symbols.{Symbols};
ghost use Rattle.rows.specs.Memory.{words_of};
ghost use Rattle.rows.specs.Widths.{places_of};
ghost use Rattle.sheet.specs.Faults.{refusal_in, read_fault};
ghost use Rattle.sheet.specs.Reading.{HasSize, Holds, IsRead};
ghost use Rattle.sheets.specs.Format.{Sheet};

use super::check::check;
use super::sheet_body::SheetBody;
use super::sheet_size::SheetSize;
use rows::refusal::Refusal;
use rows::row_words::RowWords;
use rows::width::Width;

// Writes the rows of a sheet into memory, and answers its size.
pub fn read(bytes: &[u8], memory: &mut [RowWords]) -> Result<SheetSize, Refusal>
    ensures refusal { refusal_in result ≡ read_fault bytes.now (length memory.old) }
    ensures rows { IfOk result (λ size. IsRead bytes.now size memory.old memory.new) }
    ensures accepts { (width : ℕ) (rows : List Symbols) → Sheet width rows bytes.now →
        length rows ≤ length memory.old →
        IsOkAnd result (λ size.
        HasSize size width (length rows) × Holds rows memory.old memory.new) }
    ensures untouched_when_refused { is_err result ≡ true → memory.new ≡ memory.old }
{
    let size = check(bytes)?;
    if memory.len() < size.count {
        return Err(Refusal::MemoryTooShort);
    }
    write_rows(bytes, size.width, &mut memory[..size.count]);
    Ok(size)
}

// Writes the rows of a sheet, one to each place in memory.
pub(super) fn write_rows(sheet: &[u8], width: Width, memory: &mut [RowWords])
    requires sheet { (rows : List Symbols) ×
        (Sheet (places_of width) rows sheet.now × (length memory.old ≡ length rows)) }
    ensures rows { (rows : List Symbols) → Sheet (places_of width) rows sheet.now →
        memory.new ≡ map words_of rows }
{
    let places = width.places() as usize;
    let body = SheetBody {
        bytes: &sheet[2..],
        symbols: memory.len() * places,
    };
    for (index, row) in memory.iter_mut().enumerate() {
        *row = body.row_at(index * places, places);
    }
}
