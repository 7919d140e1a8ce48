// Replays told by the maps and the device below: one layer, a device that is lent, records that are lent.
use super::calls::TAG;
use column_table::ColumnTable;
use device::device::RowDevice;
use device::new_device::NewDevice;
use filter_calls::call::{FilterAnswer, FilterCall, FilterExchange};
use filter_calls::layered::replay_over_layer;
use filter_calls::lent::replay_on_lent;
use layers::flip::Flip;
use layers::turn::Turn;
use rows::range::Range;
use rows::row::Row;
use rows::width::Width;
use slot_table::{SlotRecord, SlotTable};
use std::test::Fail;

// A hold, and the numbers 1 to 3 of four digits: the rows 001- and 0001.
fn one_to_three() -> [FilterExchange; 2] {
    [FilterCall::Hold, FilterCall::add(TAG, Range::new(1, 3))].map(FilterCall::unanswered)
}

#[test]
fn rows_lie_turned_beneath_a_turn(rt: HostRuntime) -> Result<(), Fail> {
    let table = ColumnTable::new(Width::try_from(4)?, 3);
    let mut exchanges = one_to_three();
    let (_, table) = replay_over_layer(Turn, table, TAG, &mut exchanges);
    assert_eq!(rt; exchanges[1].answer, Ok(FilterAnswer::Rows(2)));
    // -100 and 1000
    assert_eq!(rt; table.read(0), Ok(Some(Row::new(0b0100, 0b0111))));
    assert_eq!(rt; table.read(1), Ok(Some(Row::new(0b1000, 0b1111))));
    assert_eq!(rt; table.ask(0b1100), Ok(true));
    Ok(())
}

#[test]
fn a_lent_table_is_left_with_the_rows(rt: HostRuntime) -> Result<(), Fail> {
    let mut table = ColumnTable::new(Width::try_from(4)?, 3);
    table.put(2, Row::new(0, 0))?;
    let flip = Flip { mask: 0b1000 };
    replay_on_lent(flip, Turn, &mut table, TAG, &mut one_to_three());
    // 101- and 1001 after the flip, -101 and 1001 at the bottom; the table is not muted
    assert_eq!(rt; table.read(0), Ok(Some(Row::new(0b0101, 0b0111))));
    assert_eq!(rt; table.read(1), Ok(Some(Row::new(0b1001, 0b1111))));
    assert_eq!(rt; table.read(2), Ok(None));
    assert_eq!(rt; table.ask(0b1101), Ok(true));
    Ok(())
}

#[test]
fn lent_records_come_back_as_those_of_the_slots(rt: HostRuntime) -> Result<(), Fail> {
    let mark = SlotRecord {
        filled: true,
        value: 9,
        care: 9,
    };
    let mut records = [mark; 121];
    let flip = Flip { mask: 0b1000 };
    let width = Width::try_from(4)?;
    {
        let mut table = SlotTable::new(width, &mut records);
        replay_on_lent(flip, Turn, &mut table, TAG, &mut one_to_three());
    }
    assert_eq!(rt; records[0], SlotRecord::from(Row::new(0b0101, 0b0111)));
    assert_eq!(rt; records[1], SlotRecord::from(Row::new(0b1001, 0b1111)));
    assert_eq!(rt; records[2], SlotRecord::EMPTY);
    assert_eq!(rt; records[119], SlotRecord::EMPTY);
    assert_eq!(rt; records[120], mark);
    Ok(())
}
