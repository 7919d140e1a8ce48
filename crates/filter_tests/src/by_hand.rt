// A filter whose calls are made by hand, and what its slots then hold.
use super::calls::TAG;
use column_table::ColumnTable;
use device::new_device::NewDevice;
use filter::filter::Filter;
use filter_calls::slots::slots_kept;
use rows::range::Range;
use rows::refusal::Refusal;
use rows::width::Width;
use std::test::Fail;

#[test]
fn the_rows_are_right_after_calls_by_hand(rt: HostRuntime) -> Result<(), Fail> {
    let mut filter = Filter::open(ColumnTable::new(Width::try_from(4)?, 4), TAG);
    let token = filter.hold().unwrap();
    assert_eq!(rt; filter.add(&token, Range::new(3, 12)), Ok(4));
    assert_eq!(rt;
        filter.add(&token, Range::new(14, 14)),
        Err(Refusal::TooManyRows)
    );
    assert_eq!(rt; filter.drop(&token, Range::new(9, 12)), Ok(3));
    filter.release(token).unwrap();
    let slots = slots_kept(&filter);
    assert_eq!(rt; slots, 4);
    let mut filled = 0u32;
    for slot in 0..slots {
        if filter.report_slot(slot)?.is_some() {
            filled = filled.saturating_add(1);
        }
    }
    assert_eq!(rt; filled, 3);
    for number in 0..16 {
        let mut taken = false;
        for slot in 0..slots {
            if let Some(row) = filter.report_slot(slot)? {
                taken = taken || row.takes(number);
            }
        }
        assert_eq!(rt; taken, Range::new(3, 8).contains(number));
        assert_eq!(rt; filter.ask(number), Ok(taken));
    }
    Ok(())
}
