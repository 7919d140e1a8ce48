// Piles of layers: what lies on top and at the bottom, and every refusal from below.
use column_table::ColumnTable;
use device::device::RowDevice;
use device::new_device::NewDevice;
use layers::flip::Flip;
use layers::layer::Layer;
use layers::pile::ask_pile;
use layers::turn::Turn;
use rows::refusal::Refusal;
use rows::row::Row;
use rows::width::Width;
use slot_table::{SlotRecord, SlotTable};
use std::process::Abort;
use std::test::Fail;

// As in `device_tests`, but for the last questions; a `bool` from a library would not tell which line failed.
// Four places; nothing can be put, emptied or read at the slot of this number and at slot 120, and no wide row put.
fn refuses<D: RowDevice>(rt: &impl Abort, pile: &mut D, count: usize) {
    assert_eq!(rt; pile.slot_count(), count);
    let wide = Row::new(0, 0b10000);
    for slot in [count, 120] {
        assert_eq!(rt; pile.put(slot, wide), Err(Refusal::NoSuchSlot));
        assert_eq!(rt; pile.empty(slot), Err(Refusal::NoSuchSlot));
        assert_eq!(rt; pile.read(slot), Err(Refusal::NoSuchSlot));
    }
    if count > 0 {
        assert_eq!(rt; pile.put(0, wide), Err(Refusal::RowOutsideWidth));
        assert_eq!(rt; pile.read(0), Ok(None));
    }
    assert_eq!(rt; pile.ask(16), Err(Refusal::NumberOutsideWidth));
    assert_eq!(rt; ask_pile(pile, 16), Err(Refusal::NumberOutsideWidth));
}

#[test]
fn refusals_come_up_from_a_slot_table(rt: HostRuntime) -> Result<(), Fail> {
    let width = Width::try_from(4)?;
    let mut records = [SlotRecord::EMPTY; 3];
    let table = SlotTable::new(width, &mut records);
    let mut pile = Layer::new(Flip { mask: 0b1001 }, Layer::new(Turn, table));
    refuses(&rt, &mut pile, 3);
    Ok(())
}

#[test]
fn refusals_come_up_from_a_column_table(rt: HostRuntime) -> Result<(), Fail> {
    let width = Width::try_from(4)?;
    let mut pile = Layer::new(
        Turn,
        Layer::new(Flip { mask: 0b0110 }, ColumnTable::new(width, 200)),
    );
    refuses(&rt, &mut pile, 120);
    Ok(())
}

#[test]
fn flip_over_turn_over_a_slot_table(rt: HostRuntime) -> Result<(), Fail> {
    let width = Width::try_from(4)?;
    let mut records = [SlotRecord::EMPTY; 2];
    let table = SlotTable::new(width, &mut records);
    let mut pile = Layer::new(Flip { mask: 0b1001 }, Layer::new(Turn, table));
    // 10-- on top, 00-- after the flip, --00 at the bottom
    let row = Row::new(0b1000, 0b1100);
    pile.put(1, row)?;
    assert_eq!(rt; pile.read(1), Ok(Some(row)));
    assert_eq!(rt; pile.read(0), Ok(None));
    assert_eq!(rt; ask_pile(&pile, 0b1011), Ok(true));
    assert_eq!(rt; pile.ask(0b0011), Ok(false));
    pile.mute(true);
    assert_eq!(rt; pile.ask(0b1011), Ok(false));
    pile.mute(false);
    let (_, turn) = pile.into_parts();
    assert_eq!(rt; turn.read(1), Ok(Some(Row::new(0, 0b1100))));
    let (_, table) = turn.into_parts();
    assert_eq!(rt; table.read(1), Ok(Some(Row::new(0, 0b0011))));
    assert_eq!(rt; table.ask(0b0100), Ok(true));
    Ok(())
}
