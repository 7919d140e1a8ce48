// Edits of a full filter: 16 runs and 112 rows at width 32.
use super::stopwatch::timed;
use column_table::ColumnTable;
use console::console::Console;
use device::device::RowDevice;
use device::new_device::NewDevice;
use lines::reply::Reply;
use rows::slots::MOST_SLOTS;
use rows::width::Width;
use shown::outcome::Outcome;
use slot_table::{SlotRecord, SlotTable};
use std::io;
use std::rt::Clock;

const CALLS: u32 = 2_000;

// Sixteen ranges of seven rows each, far from each other.
const FILL: [&str; 16] = [
    "+ 1 126",
    "+ 268435457 268435582",
    "+ 536870913 536871038",
    "+ 805306369 805306494",
    "+ 1073741825 1073741950",
    "+ 1342177281 1342177406",
    "+ 1610612737 1610612862",
    "+ 1879048193 1879048318",
    "+ 2147483649 2147483774",
    "+ 2415919105 2415919230",
    "+ 2684354561 2684354686",
    "+ 2952790017 2952790142",
    "+ 3221225473 3221225598",
    "+ 3489660929 3489661054",
    "+ 3758096385 3758096510",
    "+ 4026531841 4026531966",
];

// A console whose filter is full.
pub(super) fn filled<D: RowDevice>(device: D) -> Console<D> {
    let mut console = Console::open(device);
    for line in FILL {
        let _ = console.answer(line.as_bytes());
    }
    console
}

// How many rows a reply tells of; the answer to a question tells of none.
fn rows_told(reply: Reply) -> usize {
    match reply {
        Reply::Rows(count) => count,
        Reply::Says(_) => 0,
    }
}

// Drops the middle run and adds it again, in turn.
fn measure_on<R: Print + Clock, D: RowDevice + Drop>(
    rt: &R,
    name: &str,
    device: D,
) -> io::Result<()> {
    let mut console = filled(device);
    let edits = timed(rt, CALLS, |call| {
        let line: &[u8] = if call % 2 == 0 {
            b"- 1879048193 1879048318"
        } else {
            b"+ 1879048193 1879048318"
        };
        console.answer(line).map(rows_told)
    })?;
    println!(rt;
        "edit of a full filter, {name}:{}",
        Outcome(edits.map(|time| time.in_unit("rows")))
    )
}

// Each table by name, here and for questions: a closure cannot be generic over the device.
pub(super) fn measure<R: Print + Clock>(rt: &R) -> io::Result<()> {
    let width = Width::try_from(32).unwrap();
    measure_on(rt, "column table", ColumnTable::new(width, MOST_SLOTS))?;
    let mut records = [SlotRecord::EMPTY; MOST_SLOTS];
    measure_on(rt, "slot table", SlotTable::new(width, &mut records))
}
