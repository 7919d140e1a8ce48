// The checks that a device makes of what it is called with.
ghost use Rattle.std.specs.Prelude.{◌≡◌, ◌^◌, ◌<◌, ◌≤◌, OnOk, IfErr};
ghost use Rattle.rows.specs.declared.refusal.Refusal.TheVariants.{NumberOutsideWidth, NoSuchSlot, RowOutsideWidth};
ghost use Rattle.rows.specs.Widths.{places_of};

use rows::refusal::Refusal;
use rows::row::Row;
use rows::width::Width;

// Refused if there are not so many slots.
pub fn check_slot(slot: usize, slot_count: usize) -> Result<(), Refusal>
    ensures ok { OnOk result (slot < slot_count) }
    ensures refusal { IfErr result (λ e. (e ≡ NoSuchSlot) × (slot_count ≤ slot)) }
{
    if slot < slot_count {
        Ok(())
    } else {
        Err(Refusal::NoSuchSlot)
    }
}

// Refused if the row cares beyond the width.
pub fn check_row(row: Row, width: Width) -> Result<(), Refusal>
    ensures ok { OnOk result (row.care < 2 ^ places_of width) }
    ensures refusal { IfErr result (λ e. (e ≡ RowOutsideWidth) × (2 ^ places_of width ≤ row.care)) }
{
    if u64::from(row.care()) < width.limit() {
        Ok(())
    } else {
        Err(Refusal::RowOutsideWidth)
    }
}

// Refused if the number has more digits than the width.
pub fn check_number(number: u64, width: Width) -> Result<(), Refusal>
    ensures ok { OnOk result (number < 2 ^ places_of width) }
    ensures refusal { IfErr result (λ e. (e ≡ NumberOutsideWidth) × (2 ^ places_of width ≤ number)) }
{
    if number < width.limit() {
        Ok(())
    } else {
        Err(Refusal::NumberOutsideWidth)
    }
}
