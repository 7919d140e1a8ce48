// Questions to both tables, with 112 filled slots.
use super::edits::filled;
use super::stopwatch::{CallTime, timed};
use column_table::ColumnTable;
use device::device::RowDevice;
use device::new_device::NewDevice;
use rows::refusal::Refusal;
use rows::slots::MOST_SLOTS;
use rows::width::Width;
use shown::outcome::Outcome;
use slot_table::{SlotRecord, SlotTable};
use std::io;
use std::rt::Clock;

const CALLS: u32 = 1_000_000;

// A number near the runs; about half of these are held.
fn number_near(call: u32) -> u64 {
    (u64::from(call % 16) << 28) + u64::from(call / 16 % 256)
}

// Asks the device; the answers add up to how many numbers it takes.
fn time_of<R: Print + Clock, D: RowDevice + Drop>(
    rt: &R,
    name: &str,
    device: D,
) -> io::Result<Result<CallTime, Refusal>> {
    let device = filled(device).into_device();
    let asks = timed(rt, CALLS, |call| {
        device.ask(number_near(call)).map(usize::from)
    })?;
    println!(rt;
        "question, {name}:{}",
        Outcome(asks.map(|time| time.in_unit("taken")))
    )?;
    Ok(asks)
}

pub(super) fn measure<R: Print + Clock>(rt: &R) -> io::Result<()> {
    let width = Width::try_from(32).unwrap();
    let columns = time_of(rt, "column table", ColumnTable::new(width, MOST_SLOTS))?;
    let mut records = [SlotRecord::EMPTY; MOST_SLOTS];
    let slots = time_of(rt, "slot table", SlotTable::new(width, &mut records))?;
    if let (Ok(columns), Ok(slots)) = (columns, slots) {
        let percent = columns.nanoseconds.saturating_mul(100) / slots.nanoseconds.max(1);
        println!(rt; "question, column table to slot table: {percent} to 100")?;
    }
    Ok(())
}
