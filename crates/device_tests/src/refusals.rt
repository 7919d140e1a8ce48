// Every refusal on both tables, and tables of none, of many and of too many slots.
ghost use Rattle.std.specs.Prelude.{◌≡◌, true};

use column_table::ColumnTable;
use device::call::DeviceCall;
use device::device::RowDevice;
use device::new_device::NewDevice;
use device::replay::answer_alike;
use rows::refusal::Refusal;
use rows::row::Row;
use rows::width::Width;
use slot_table::{SlotRecord, SlotTable};
use std::process::Abort;
use std::test::Fail;

// At the slot of this number and at slot 120 nothing can be put, emptied or read.
pub(super) fn refuses<D: RowDevice>(rt: &impl Abort, device: &mut D, count: usize) {
    assert_eq!(rt; device.slot_count(), count);
    let wide = Row::new(0, 0b10000);
    for slot in [count, 120] {
        assert_eq!(rt; device.put(slot, wide), Err(Refusal::NoSuchSlot));
        assert_eq!(rt; device.empty(slot), Err(Refusal::NoSuchSlot));
        assert_eq!(rt; device.read(slot), Err(Refusal::NoSuchSlot));
    }
    if count > 0 {
        assert_eq!(rt; device.put(0, wide), Err(Refusal::RowOutsideWidth));
        assert_eq!(rt; device.read(0), Ok(None));
    }
    assert_eq!(rt; device.ask(16), Err(Refusal::NumberOutsideWidth));
    assert_eq!(rt; device.ask(15), Ok(false));
}

// The last slot holds what is put there.
pub(super) fn holds_at_the_end<D: RowDevice>(rt: &impl Abort, device: &mut D, slot: usize) {
    let row = Row::new(0b1001, 0b1101);
    assert_eq!(rt; device.put(slot, row), Ok(()));
    assert_eq!(rt; device.read(slot), Ok(Some(row)));
    assert_eq!(rt; device.ask(0b1011), Ok(true));
    assert_eq!(rt; device.ask(0b1111), Ok(false));
    device.mute(true);
    assert_eq!(rt; device.ask(0b1011), Ok(false));
    device.mute(false);
    assert_eq!(rt; device.empty(slot), Ok(()));
    assert_eq!(rt; device.read(slot), Ok(None));
    assert_eq!(rt; device.ask(0b1011), Ok(false));
}

#[test]
fn slot_tables_refuse(rt: HostRuntime) -> Result<(), Fail> {
    let width = Width::try_from(4)?;
    let mut none: [SlotRecord; 0] = [];
    refuses(&rt, &mut SlotTable::new(width, &mut none), 0);
    let mut three = [SlotRecord::EMPTY; 3];
    refuses(&rt, &mut SlotTable::new(width, &mut three), 3);
    Ok(())
}

#[test]
fn column_tables_refuse(rt: HostRuntime) -> Result<(), Fail> {
    let width = Width::try_from(4)?;
    refuses(&rt, &mut ColumnTable::new(width, 0), 0);
    refuses(&rt, &mut ColumnTable::new(width, 3), 3);
    let mut most = ColumnTable::new(width, 500);
    refuses(&rt, &mut most, 120);
    holds_at_the_end(&rt, &mut most, 119);
    Ok(())
}

#[test]
fn memory_beyond_the_last_slot_stays(rt: HostRuntime) -> Result<(), Fail> {
    let width = Width::try_from(4)?;
    let mark = SlotRecord {
        filled: true,
        value: 3,
        care: 7,
    };
    let mut records = [mark; 122];
    let mut table = SlotTable::new(width, &mut records);
    refuses(&rt, &mut table, 120);
    holds_at_the_end(&rt, &mut table, 119);
    assert_eq!(rt; records[119].filled, false);
    assert_eq!(rt; records[120], mark);
    assert_eq!(rt; records[121], mark);
    Ok(())
}

// A table of four records and one of four columns begin alike, so they answer alike whatever is called.
fn tables_answer_alike(width: Width, calls: &[DeviceCall]) -> bool
    ensures always { result ≡ true }
{
    let mut records = [SlotRecord::EMPTY; 4];
    let mut table = SlotTable::new(width, &mut records);
    let mut columns = ColumnTable::new(width, 4);
    answer_alike(&mut table, &mut columns, calls)
}

#[test]
fn both_tables_answer_alike(rt: HostRuntime) -> Result<(), Fail> {
    let calls = [
        DeviceCall::Put {
            slot: 3,
            row: Row::new(0b0110, 0b0111),
        },
        DeviceCall::Ask { number: 0b1110 },
        DeviceCall::Read { slot: 3 },
        DeviceCall::Empty { slot: 3 },
        DeviceCall::Ask { number: 0b1110 },
    ];
    assert!(rt; tables_answer_alike(Width::try_from(4)?, &calls));
    Ok(())
}
