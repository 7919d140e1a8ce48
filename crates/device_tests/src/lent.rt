// Memory and a device that are lent, and what their owner finds afterwards.
use super::refusals::{holds_at_the_end, refuses};
use column_table::ColumnTable;
use device::call::{DeviceAnswer, DeviceCall, DeviceExchange};
use device::device::RowDevice;
use device::lent_device::LentDevice;
use device::new_device::NewDevice;
use rows::refusal::Refusal;
use rows::row::Row;
use rows::width::Width;
use slot_table::{SlotRecord, replay_on_records};
use std::test::Fail;

// The rows of the first and of the last slot.
fn first() -> Row {
    Row::new(0b1001, 0b1101)
}

fn last() -> Row {
    Row::new(0b0010, 0b0011)
}

// Calls, granted and refused, each with the answer that a table of 120 slots gives.
fn answered_calls() -> [(DeviceCall, Result<DeviceAnswer, Refusal>); 8] {
    let row = first();
    let done = Ok(DeviceAnswer::Done);
    [
        (DeviceCall::Put { slot: 0, row }, done),
        (DeviceCall::Put { slot: 1, row }, done),
        (
            DeviceCall::Put {
                slot: 119,
                row: last(),
            },
            done,
        ),
        (DeviceCall::Put { slot: 120, row }, Err(Refusal::NoSuchSlot)),
        (DeviceCall::Empty { slot: 1 }, done),
        (
            DeviceCall::Read { slot: 0 },
            Ok(DeviceAnswer::Holds(Some(row))),
        ),
        (DeviceCall::Read { slot: 1 }, Ok(DeviceAnswer::Holds(None))),
        (
            DeviceCall::Ask { number: 0b1110 },
            Ok(DeviceAnswer::Says(true)),
        ),
    ]
}

#[test]
fn lent_records_are_those_of_the_slots(rt: HostRuntime) -> Result<(), Fail> {
    let mark = SlotRecord {
        filled: true,
        value: 3,
        care: 7,
    };
    let mut records = [mark; 123];
    let expected = answered_calls();
    // an answer that no call gets
    let mut exchanges = expected.map(|(call, _)| DeviceExchange {
        call,
        answer: Err(Refusal::RowOutsideWidth),
    });
    replay_on_records(Width::try_from(4)?, &mut records, &mut exchanges);
    for (exchange, (_, answer)) in exchanges.iter().zip(&expected) {
        assert_eq!(rt; exchange.answer, *answer);
    }
    for (slot, record) in records.iter().enumerate() {
        let held = match slot {
            0 => SlotRecord::from(first()),
            119 => SlotRecord::from(last()),
            120.. => mark,
            _ => SlotRecord::EMPTY,
        };
        assert_eq!(rt; *record, held, "slot {slot}");
    }
    Ok(())
}

#[test]
fn a_table_has_what_was_put_while_it_was_lent(rt: HostRuntime) -> Result<(), Fail> {
    let width = Width::try_from(4)?;
    let mut table = ColumnTable::new(width, 3);
    let row = first();
    let mut lent = LentDevice::new(&mut table);
    refuses(&rt, &mut lent, 3);
    holds_at_the_end(&rt, &mut lent, 2);
    assert_eq!(rt; lent.put(1, row), Ok(()));
    assert_eq!(rt; lent.ask(0b1011), Ok(true));
    assert_eq!(rt; table.read(1), Ok(Some(row)));
    assert_eq!(rt; table.read(2), Ok(None));
    Ok(())
}
