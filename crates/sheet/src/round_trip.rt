// There and back: nothing is lost by packing, and nothing by reading.
ghost use Rattle.std.specs.Prelude.{◌≡◌, true, ◌++◌, length, map, drop, is_err, OnOk, IfOk};
ghost use Rattle.std.specs.Option.{option_or};
ghost use Rattle.rows.specs.Memory.{as_made};
ghost use Rattle.rows.specs.Widths.{places_of};
ghost use Rattle.sheet.specs.Faults.{refusal_in, pack_fault, read_fault, room_fault};
ghost use Rattle.sheet.specs.Packing.{sheet_of};
ghost use Rattle.sheet.specs.Reading.{HasSize, IsRead};
ghost use Rattle.sheet.specs.declared.sheet_size.SheetSize.{SheetSize};
ghost use Rattle.sheets.specs.Format.{size_of_sheet};

use super::check::check;
use super::read::write_rows;
use super::sheet_rows::SheetRows;
use super::sheet_size::SheetSize;
use rows::refusal::Refusal;
use rows::row_words::RowWords;
use rows::width::Width;

// Packs the rows into `sheet`, and reads that into `back`: the same rows, as made.
pub fn pack_then_read(
    width: Width,
    rows: &[RowWords],
    sheet: &mut [u8],
    back: &mut [RowWords],
) -> Result<SheetSize, Refusal>
    ensures refusal { refusal_in result ≡
        option_or (pack_fault (places_of width) rows.now (length sheet.old))
        (room_fault (length back.old) (length rows.now)) }
    ensures size { IfOk result (λ size. HasSize size (places_of width) (length rows.now)) }
    ensures packed { OnOk result (
        sheet.new ≡ sheet_of (places_of width) rows.now ++
        drop (size_of_sheet (places_of width) (length rows.now)) sheet.old) }
    ensures same_rows { OnOk result (
        back.new ≡ map as_made rows.now ++ drop (length rows.now) back.old) }
    ensures untouched_when_refused { is_err result ≡ true →
        (sheet.new ≡ sheet.old) × (back.new ≡ back.old) }
{
    let packed = SheetRows::of(width, rows)?;
    let size = packed.size();
    if sheet.len() < size || back.len() < rows.len() {
        return Err(Refusal::MemoryTooShort);
    }
    let sheet = &mut sheet[..size];
    packed.write(sheet);
    write_rows(sheet, width, &mut back[..rows.len()]);
    Ok(SheetSize {
        width,
        count: rows.len(),
    })
}

// Reads the sheet into `rows`, and packs those into `again`: the same bytes.
pub fn read_then_pack(
    sheet: &[u8],
    rows: &mut [RowWords],
    again: &mut [u8],
) -> Result<usize, Refusal>
    ensures refusal { refusal_in result ≡
        option_or (read_fault sheet.now (length rows.old))
        (room_fault (length again.old) (length sheet.now)) }
    ensures size { IfOk result (λ n. n ≡ length sheet.now) }
    ensures read { OnOk result ((size : SheetSize) × IsRead sheet.now size rows.old rows.new) }
    ensures same_bytes { OnOk result (again.new ≡ sheet.now ++ drop (length sheet.now) again.old) }
    ensures untouched_when_refused { is_err result ≡ true →
        (rows.new ≡ rows.old) × (again.new ≡ again.old) }
{
    let size = check(sheet)?;
    if rows.len() < size.count || again.len() < sheet.len() {
        return Err(Refusal::MemoryTooShort);
    }
    let rows = &mut rows[..size.count];
    write_rows(sheet, size.width, rows);
    let packed = SheetRows {
        width: size.width,
        rows,
    };
    packed.write(&mut again[..sheet.len()]);
    Ok(sheet.len())
}
