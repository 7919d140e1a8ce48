// The narrowest row of two numbers.
ghost use Rattle.std.specs.Prelude.{◌≡◌, ◌^◌, ◌<◌, IfOk};
ghost use Rattle.covers.specs.Digits.{digits};
ghost use Rattle.covers.specs.Rivals.{narrowest};
ghost use Rattle.rows.specs.NarrowestRows.{RowForBoth, TakesBoth, TakesLeast};
ghost use Rattle.rows.specs.Memory.{symbols_of};
ghost use Rattle.rows.specs.Widths.{places_of};

use super::refusal::Refusal;
use super::row::Row;
use super::width::Width;

// The narrowest row that takes both numbers: their common digits, and dashes where they differ.
// Refused if one of them is no number of the width.
pub fn narrowest_row(width: Width, first: u64, second: u64) -> Result<Row, Refusal>
    ensures refusal { RowForBoth (places_of width) first second result }
    ensures symbols { IfOk result (λ row. symbols_of (places_of width) row ≡ narrowest (digits (places_of width) first) (digits (places_of width) second)) }
    ensures of_width { IfOk result (λ row. row.care < 2 ^ places_of width) }
    ensures takes_both { IfOk result (λ row. TakesBoth (places_of width) first second (symbols_of (places_of width) row)) }
    ensures narrowest { IfOk result (λ row. TakesLeast (places_of width) first second (symbols_of (places_of width) row)) }
{
    let limit = width.limit();
    if first >= limit || second >= limit {
        return Err(Refusal::NumberOutsideWidth);
    }
    let care = limit - 1 - (first ^ second);
    Ok(Row::new(first as u32, care as u32))
}
