// What holds of the types, each the contract of a small function.
ghost use Rattle.covers.specs.Equality.{IsEquality};

use super::edit::Edit;
use super::range::Range;
use super::refusal::Refusal;
use super::row::Row;
use super::row_words::RowWords;
use super::width::Width;

// `==` is equality.
fn equality()
    ensures edit { IsEquality ⟦<Edit as PartialEq>⟧.eq }
    ensures range { IsEquality ⟦<Range as PartialEq>⟧.eq }
    ensures refusal { IsEquality ⟦<Refusal as PartialEq>⟧.eq }
    ensures row { IsEquality ⟦<Row as PartialEq>⟧.eq }
    ensures row_words { IsEquality ⟦<RowWords as PartialEq>⟧.eq }
    ensures width { IsEquality ⟦<Width as PartialEq>⟧.eq }
{}
