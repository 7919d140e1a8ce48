// The rows that go on a sheet, as the bytes that they become.
ghost use Rattle.std.specs.Prelude.{◌≡◌, ◌<◌, ◌≤◌, false, length, slice_index, slice_index_or, IfOk};
ghost use Rattle.covers.specs.declared.symbol.Symbol.TheVariants.{Zero};
ghost use Rattle.rows.specs.Memory.{rows_of};
ghost use Rattle.rows.specs.Widths.{places_of};
ghost use Rattle.sheet.specs.Faults.{cares_outside, refusal_in, rows_fault};
ghost use Rattle.sheet.specs.Packing.{sheet_of};
ghost use Rattle.sheets.specs.Format.{all_symbols, byte_from, code_number, most_rows, size_of_sheet};

use super::codes::code_of;
use super::pack::MOST_ROWS;
use rows::refusal::Refusal;
use rows::row::Row;
use rows::row_words::RowWords;
use rows::width::Width;

// Rows that care only within the width, few enough for a sheet.
#[derive(Clone, Copy)]
pub(super) struct SheetRows<'a> {
    pub(super) width: Width,
    pub(super) rows: &'a [RowWords],
    ghost inside: { cares_outside (places_of width) rows.now ≡ false },
    ghost few: { length rows.now ≤ most_rows },
}

impl<'a> SheetRows<'a> {
    // The rows, once they are checked.
    #[tactic(auto, unfolding(crate::specs::Faults::rows_fault))]
    pub(super) fn of(width: Width, rows: &'a [RowWords]) -> Result<SheetRows<'a>, Refusal>
        ensures refusal { refusal_in result ≡ rows_fault (places_of width) rows.now }
        ensures width { IfOk result (λ sheet. sheet.width ≡ width) }
        ensures rows { IfOk result (λ sheet. sheet.rows.now ≡ rows.now) }
    {
        if any_outside(width, rows) {
            return Err(Refusal::RowOutsideWidth);
        }
        if rows.len() > MOST_ROWS {
            return Err(Refusal::TooManyRows);
        }
        Ok(SheetRows { width, rows })
    }

    // Writes the sheet, a byte to each place in memory.
    pub(super) fn write(&self, memory: &mut [u8])
        requires size { length memory.old ≡
            size_of_sheet (places_of self.now.width) (length self.now.rows.now) }
        ensures sheet { memory.new ≡ sheet_of (places_of self.now.width) self.now.rows.now }
    {
        for (index, byte) in memory.iter_mut().enumerate() {
            *byte = self.byte_at(index);
        }
    }

    // How many bytes the sheet has.
    #[tactic(auto, unfolding(sheets::specs::Format::size_of_sheet))]
    pub(super) fn size(&self) -> usize
        ensures value { result ≡ size_of_sheet (places_of self.now.width) (length self.now.rows.now) }
    {
        2 + (self.rows.len() * self.width.places() as usize).div_ceil(4)
    }

    // The byte of the sheet at an index.
    pub(super) fn byte_at(&self, index: usize) -> u8
        requires inside { index < size_of_sheet (places_of self.now.width) (length self.now.rows.now) }
        ensures value { result ≡ slice_index (sheet_of (places_of self.now.width) self.now.rows.now) index }
    {
        let places = self.width.places() as usize;
        match index {
            0 => ((places - 1) * 8 + self.rows.len() / 16) as u8,
            1 => (self.rows.len() % 16 * 16) as u8,
            _ => self.byte_of_four(4 * (index - 2)),
        }
    }

    // The byte of four symbols, the first of them highest.
    #[tactic(auto, using(sheets::proofs::Places::byte_from_codes))]
    fn byte_of_four(&self, first: usize) -> u8
        requires near { first ≤ 4000 }
        ensures value { result ≡ byte_from (all_symbols (rows_of (places_of self.now.width) self.now.rows.now)) first }
    {
        let high = self.code_at(first) * 4 + self.code_at(first + 1);
        let low = self.code_at(first + 2) * 4 + self.code_at(first + 3);
        high * 16 + low
    }

    // The code of a symbol, counted through all the rows; past the last symbol, zeros.
    #[tactic(auto, using(sheets::proofs::Places::code_small))]
    fn code_at(&self, index: usize) -> u8
        ensures small { result < 3 }
        ensures value { result ≡ code_number (slice_index_or (all_symbols (rows_of (places_of self.now.width) self.now.rows.now)) index Zero) }
    {
        let places = self.width.places() as usize;
        match self.rows.get(index / places) {
            Some(words) => {
                let place = places - 1 - index % places;
                code_of(Row::from(*words).symbol_at(place as u32))
            }
            None => 0,
        }
    }
}

// Whether some row cares beyond the width.
fn any_outside(width: Width, rows: &[RowWords]) -> bool
    ensures value { result ≡ cares_outside (places_of width) rows.now }
{
    let limit = width.limit();
    rows.iter().any(|row| limit <= u64::from(row.care))
}
