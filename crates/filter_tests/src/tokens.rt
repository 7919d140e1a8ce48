// Holds, tokens, and questions to a filter that is held.
use super::calls::{answered, not_released, refused};
use filter_calls::call::{FilterAnswer, FilterCall};
use filter_calls::closing::replay_and_close;
use rows::range::Range;
use rows::refusal::Refusal;
use rows::width::Width;
use slot_table::{SlotRecord, SlotTable};
use std::test::Fail;

#[test]
fn a_filter_that_is_not_held_is_not_edited(rt: HostRuntime) -> Result<(), Fail> {
    let mut records = [SlotRecord::EMPTY; 4];
    let device = SlotTable::new(Width::try_from(4)?, &mut records);
    let mut exchanges = [
        FilterCall::add(5, Range::new(0, 3)),
        FilterCall::Release { tag: 5 },
        FilterCall::Ask { number: 0 },
        FilterCall::Ask { number: 16 },
        FilterCall::ReportSlot { slot: 4 },
    ]
    .map(FilterCall::unanswered);
    let _ = replay_and_close(device, 5, &mut exchanges);
    let expected = [
        refused(Refusal::NotHeld),
        not_released(Refusal::NotHeld, 5),
        Ok(FilterAnswer::Says(false)),
        refused(Refusal::NumberOutsideWidth),
        refused(Refusal::NoSuchSlot),
    ];
    assert_eq!(rt; exchanges.map(answered), expected);
    Ok(())
}

#[test]
fn foreign_tokens_are_refused(rt: HostRuntime) -> Result<(), Fail> {
    let mut records = [SlotRecord::EMPTY; 4];
    let device = SlotTable::new(Width::try_from(4)?, &mut records);
    let mut exchanges = [
        FilterCall::Hold,
        FilterCall::Hold,
        FilterCall::Ask { number: 16 },
        FilterCall::add(6, Range::new(0, 16)),
        FilterCall::add(5, Range::new(0, 16)),
        FilterCall::Release { tag: 6 },
        FilterCall::Release { tag: 5 },
        FilterCall::Hold,
    ]
    .map(FilterCall::unanswered);
    let _ = replay_and_close(device, 5, &mut exchanges);
    let expected = [
        Ok(FilterAnswer::Token { tag: 5 }),
        refused(Refusal::FilterHeld),
        refused(Refusal::FilterHeld),
        refused(Refusal::NotHeld),
        refused(Refusal::NumberOutsideWidth),
        not_released(Refusal::NotHeld, 6),
        Ok(FilterAnswer::Released),
        Ok(FilterAnswer::Token { tag: 5 }),
    ];
    assert_eq!(rt; exchanges.map(answered), expected);
    Ok(())
}
