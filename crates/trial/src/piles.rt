// A flip over a turn over a slot table: the rows on top, and what the slots hold at the bottom.
use device::device::RowDevice;
use layers::flip::Flip;
use layers::layer::Layer;
use layers::pile::ask_pile;
use layers::turn::Turn;
use ranges::range::{MOST_ROWS, rows_of_range};
use rows::range::Range;
use rows::refusal::Refusal;
use rows::row::Row;
use rows::row_words::RowWords;
use rows::width::Width;
use shown::slots::ShownSlots;
use slot_table::{SlotRecord, SlotTable};
use std::{fmt, io};

// Puts the rows of a range into the first slots.
fn put_range<D: RowDevice>(device: &mut D, range: Range) -> Result<(), Refusal> {
    let mut rows = [RowWords::default(); MOST_ROWS];
    let count = rows_of_range(device.width(), range, &mut rows)?;
    for (slot, words) in rows.iter().take(count).enumerate() {
        device.put(slot, Row::from(*words))?;
    }
    Ok(())
}

// The numbers that wake a device.
#[derive(Clone, Copy)]
struct Taken<'a, D> {
    device: &'a D,
}

impl<D: RowDevice> fmt::Display for Taken<'_, D> {
    fn fmt<W: fmt::Write>(&self, f: &mut fmt::Formatter<W>) -> fmt::Result {
        let width = self.device.width();
        let places = width.places() as usize;
        for number in 0..width.limit() {
            if ask_pile(self.device, number).unwrap() {
                write!(f, " {number:0places$b}")?;
            }
        }
        Ok(())
    }
}

pub(super) fn flip_over_turn(rt: &impl Print) -> io::Result<()> {
    println!(rt; "A flip of 0001 over a turn over a slot table, with the rows of 3 to 9")?;
    let mut records = [SlotRecord::EMPTY; 5];
    let table = SlotTable::new(Width::try_from(4).unwrap(), &mut records);
    let mut pile = Layer::new(Flip { mask: 0b0001 }, Layer::new(Turn, table));
    if let Err(refusal) = put_range(&mut pile, Range::new(3, 9)) {
        return println!(rt; " {refusal}");
    }
    println!(rt; "slots on top:{}", ShownSlots { device: &pile })?;
    println!(rt; "taken on top:{}", Taken { device: &pile })?;
    let (_, turn) = pile.into_parts();
    println!(rt; "slots below the flip:{}", ShownSlots { device: &turn })?;
    let (_, table) = turn.into_parts();
    println!(rt; "slots at the bottom:{}", ShownSlots { device: &table })?;
    println!(rt; "taken at the bottom:{}", Taken { device: &table })
}
