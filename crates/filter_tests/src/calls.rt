// Answers, and those that are expected.
use filter_calls::call::{FilterAnswer, FilterExchange, RefusedCall};
use rows::refusal::Refusal;

// The tag of the filters that are edited.
pub(super) const TAG: u64 = 7;

pub(super) type Answer = Result<FilterAnswer, RefusedCall>;

pub(super) fn answered(exchange: FilterExchange) -> Answer {
    exchange.answer
}

pub(super) fn refused(refusal: Refusal) -> Answer {
    Err(RefusedCall::from(refusal))
}

// A refused release, with the token of this tag handed back.
pub(super) fn not_released(refusal: Refusal, tag: u64) -> Answer {
    Err(RefusedCall {
        refusal,
        handed_back: Some(tag),
    })
}

pub(super) fn run(ends: (u64, u64)) -> Answer {
    Ok(FilterAnswer::Run(Some(ends)))
}
