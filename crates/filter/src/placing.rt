//! Rows placed in the slots of a device.
ghost use Rattle.std.specs.Prelude.{◌≡◌, ◌-◌, ◌^◌, ◌<◌, ◌≤◌, length};
ghost use Rattle.std.specs.List.{AllByRecursion, range_with_len};
ghost use Rattle.device.specs.KeptBeside.{KeptBeside};
ghost use Rattle.filter.specs.Placement.{emptied, with_rows};
ghost use Rattle.filter.specs.Writes.{all_slots};

use device::device::RowDevice;
use rows::row::Row;
use rows::row_words::RowWords;

// Puts the rows into the slots from 0 upward, in order, and leaves nothing in the others.
pub(super) fn place_rows<D: RowDevice>(device: &mut D, rows: &[RowWords])
    requires of_width { AllByRecursion (λ w. w.care < 2 ^ (D.state device.old).width) rows.now }
    requires fit { length rows.now ≤ length (D.state device.old).slots }
    ensures after { D.state device.new ≡ with_rows (D.state device.old) rows.now }
    ensures beside { KeptBeside D.RowDevice device.old
        (all_slots (length (D.state device.old).slots)) device.new }
{
    for (slot, words) in rows.iter().enumerate() {
        device.put(slot, Row::from(*words)).unwrap();
    }
    empty_from(device, rows.len());
}

// Leaves nothing in the slots from this one on.
pub(super) fn empty_from<D: RowDevice>(device: &mut D, from: usize)
    ensures after { D.state device.new ≡ emptied (D.state device.old) from }
    ensures beside { KeptBeside D.RowDevice device.old
        (range_with_len from (length (D.state device.old).slots - from)) device.new }
{
    for slot in from..device.slot_count() {
        device.empty(slot).unwrap();
    }
}
