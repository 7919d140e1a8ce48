// Calls to a filter and their answers, in words.
use filter_calls::call::{FilterAnswer, FilterCall, RefusedCall};
use rows::edit::Edit;
use rows::range::Range;
use rows::width::Width;
use shown::range::ShownRange;
use shown::row_count::RowCount;
use shown::slots::ShownSlot;
use slot_table::SlotRecord;
use std::fmt;

// A call to a filter.
#[derive(Clone, Copy)]
pub(super) struct ShownCall(pub(super) FilterCall);

impl fmt::Display for ShownCall {
    fn fmt<W: fmt::Write>(&self, f: &mut fmt::Formatter<W>) -> fmt::Result {
        match self.0 {
            FilterCall::Hold => write!(f, "hold"),
            FilterCall::Edit { tag, edit } => write!(f, "{}, token {tag}", ShownEdit(edit)),
            FilterCall::Release { tag } => write!(f, "release, token {tag}"),
            FilterCall::Ask { number } => write!(f, "ask {number}"),
            FilterCall::ReportSlot { slot } => write!(f, "slot {slot}"),
            FilterCall::ReportRun { index } => write!(f, "run {index}"),
        }
    }
}

#[derive(Clone, Copy)]
struct ShownEdit(Edit);

impl fmt::Display for ShownEdit {
    fn fmt<W: fmt::Write>(&self, f: &mut fmt::Formatter<W>) -> fmt::Result {
        match self.0 {
            Edit::Add(range) => write!(f, "add {}", ShownRange(range)),
            Edit::Drop(range) => write!(f, "drop {}", ShownRange(range)),
        }
    }
}

// An answer of a filter whose numbers have this width.
#[derive(Clone, Copy)]
struct ShownAnswer {
    width: Width,
    answer: Result<FilterAnswer, RefusedCall>,
}

impl fmt::Display for ShownAnswer {
    fn fmt<W: fmt::Write>(&self, f: &mut fmt::Formatter<W>) -> fmt::Result {
        let width = self.width;
        match self.answer {
            Ok(FilterAnswer::Token { tag }) => write!(f, " token {tag}"),
            Ok(FilterAnswer::Rows(count)) => write!(f, " {}", RowCount(count)),
            Ok(FilterAnswer::Released) => write!(f, " released"),
            Ok(FilterAnswer::Says(true)) => write!(f, " yes"),
            Ok(FilterAnswer::Says(false)) => write!(f, " no"),
            Ok(FilterAnswer::Slot(held)) => write!(f, "{}", ShownSlot { width, held }),
            Ok(FilterAnswer::Run(Some((first, last)))) => {
                write!(f, " {}", ShownRange(Range::new(first, last)))
            }
            Ok(FilterAnswer::Run(None)) => write!(f, " none"),
            Err(refused) => write!(f, "{}", ShownRefused(refused)),
        }
    }
}

// Why a call was refused, and the token that it hands back.
#[derive(Clone, Copy)]
struct ShownRefused(RefusedCall);

impl fmt::Display for ShownRefused {
    fn fmt<W: fmt::Write>(&self, f: &mut fmt::Formatter<W>) -> fmt::Result {
        let refusal = self.0.refusal;
        match self.0.handed_back {
            Some(tag) => write!(f, " {refusal}, token {tag} back"),
            None => write!(f, " {refusal}"),
        }
    }
}

// What one filter or several answered to a call.
#[derive(Clone, Copy)]
pub(super) struct ShownAnswers<'a> {
    pub(super) width: Width,
    pub(super) answers: &'a [Result<FilterAnswer, RefusedCall>],
}

impl fmt::Display for ShownAnswers<'_> {
    fn fmt<W: fmt::Write>(&self, f: &mut fmt::Formatter<W>) -> fmt::Result {
        let width = self.width;
        for (index, answer) in self.answers.iter().enumerate() {
            let before = if index == 0 { "" } else { " |" };
            let answer = *answer;
            write!(f, "{before}{}", ShownAnswer { width, answer })?;
        }
        Ok(())
    }
}

// A record of the caller's memory, word by word.
#[derive(Clone, Copy)]
pub(super) struct ShownRecord(pub(super) SlotRecord);

impl fmt::Display for ShownRecord {
    fn fmt<W: fmt::Write>(&self, f: &mut fmt::Formatter<W>) -> fmt::Result {
        let SlotRecord {
            filled,
            value,
            care,
        } = self.0;
        let state = if filled { "filled" } else { "empty" };
        write!(f, "{state}, value {value}, care {care}")
    }
}
