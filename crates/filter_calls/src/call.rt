// Calls to a filter as values, and their answers.
ghost use Rattle.std.specs.Prelude.{◌≡◌, None, Ok};
ghost use Rattle.rows.specs.declared.edit.Edit.TheVariants.{Add, Drop};
ghost use Rattle.filter_calls.specs.declared.call.FilterCall.TheVariants.{Edit as edit_call};
ghost use Rattle.filter_calls.specs.declared.call.FilterAnswer.TheVariants.{Released};

use device::exchange::Exchange;
use rows::edit::Edit;
use rows::range::Range;
use rows::refusal::Refusal;
use rows::row::Row;

// A call to a filter; a token that it shows is told by its tag.
// Calls are values, and not closures, since the promise is over every list of them, and a trial prints them.
#[derive(Clone, Copy)]
pub enum FilterCall {
    Hold,
    Edit { tag: u64, edit: Edit },
    Release { tag: u64 },
    Ask { number: u64 },
    ReportSlot { slot: usize },
    ReportRun { index: usize },
}

impl FilterCall {
    // Adds a range, and shows a token of this tag.
    pub fn add(tag: u64, range: Range) -> FilterCall
        ensures value { result ≡ edit_call tag (Add range) }
    {
        FilterCall::Edit {
            tag,
            edit: Edit::Add(range),
        }
    }

    // Drops a range, and shows a token of this tag.
    pub fn drop(tag: u64, range: Range) -> FilterCall
        ensures value { result ≡ edit_call tag (Drop range) }
    {
        FilterCall::Edit {
            tag,
            edit: Edit::Drop(range),
        }
    }

    // The call before it is made: the place for its answer holds one that no call but a release gets.
    pub fn unanswered(self) -> FilterExchange
        ensures call { result.call ≡ self }
        ensures answer { result.answer ≡ Ok Released }
    {
        FilterExchange {
            call: self,
            answer: Ok(FilterAnswer::Released),
        }
    }
}

// What a filter answers to a call that it grants; a token is told by its tag.
#[derive(Clone, Copy, PartialEq, Eq, Debug)]
pub enum FilterAnswer {
    // a token was handed out
    Token { tag: u64 },
    // the numbers have so many rows
    Rows(usize),
    Released,
    Says(bool),
    Slot(Option<Row>),
    Run(Option<(u64, u64)>),
}

// Why a call was refused, and the tag of the token that a refused release hands back.
#[derive(Clone, Copy, PartialEq, Eq, Debug)]
pub struct RefusedCall {
    pub refusal: Refusal,
    pub handed_back: Option<u64>,
}

impl From<Refusal> for RefusedCall {
    ghost from_gives = { λ refusal call. (call.refusal ≡ refusal) × (call.handed_back ≡ None) };

    // A refusal that hands no token back.
    fn from(refusal: Refusal) -> RefusedCall {
        RefusedCall {
            refusal,
            handed_back: None,
        }
    }
}

// A call to a filter, and the place for its answer.
pub type FilterExchange = Exchange<FilterCall, Result<FilterAnswer, RefusedCall>>;
