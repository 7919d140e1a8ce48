// The checks of a sheet, which write nothing.
ghost use Rattle.std.specs.Prelude.{◌≡◌, ℕ, ◌+◌, ◌*◌, ◌/◌, ◌%◌, List, length, IfOk, IsOkAnd};
ghost use Rattle.covers.specs.Symbols.{Symbols};
ghost use Rattle.rows.specs.Widths.{places_of};
ghost use Rattle.sheet.specs.Faults.{refusal_in, sheet_fault};
ghost use Rattle.sheet.specs.Reading.{HasSize, IsSheet};
ghost use Rattle.sheets.specs.Format.{Sheet};
ghost use Rattle.sheets.specs.Reading.{width_field, count_field};

use super::pack::MOST_ROWS;
use super::sheet_body::SheetBody;
use super::sheet_size::SheetSize;
use rows::refusal::Refusal;
use rows::width::Width;

// The size of the sheet that the bytes are, as its header says it.
pub fn check(bytes: &[u8]) -> Result<SheetSize, Refusal>
    ensures refusal { refusal_in result ≡ sheet_fault bytes.now }
    ensures header { IfOk result (λ size.
        HasSize size (width_field bytes.now) (count_field bytes.now)) }
    ensures is_sheet { IfOk result (λ size. IsSheet bytes.now size) }
    ensures accepts { (width : ℕ) (rows : List Symbols) → Sheet width rows bytes.now →
        IsOkAnd result (λ size. HasSize size width (length rows)) }
{
    let [first, second, body @ ..] = bytes else {
        return Err(Refusal::SheetTooShort);
    };
    let size = header(*first, *second);
    if size.count > MOST_ROWS {
        return Err(Refusal::TooManyRows);
    }
    let symbols = size.count * size.width.places() as usize;
    let needed = symbols.div_ceil(4);
    if body.len() < needed {
        return Err(Refusal::SheetTooShort);
    }
    let left_over = body.len() - needed;
    let body = SheetBody {
        bytes: body,
        symbols,
    };
    if body.has_unknown() {
        return Err(Refusal::UnknownSymbol);
    }
    if left_over > 0 || *second % 16 != 0 || !body.is_filled_with_zeros() {
        return Err(Refusal::SheetNotClean);
    }
    Ok(size)
}

// What the two bytes of the header say.
fn header(first: u8, second: u8) -> SheetSize
    ensures width { places_of result.width ≡ first / 8 + 1 }
    ensures count { result.count ≡ first % 8 * 16 + second / 16 }
{
    SheetSize {
        width: Width::try_from(u64::from(first / 8) + 1).unwrap(),
        count: usize::from(first % 8) * 16 + usize::from(second / 16),
    }
}
