// The theorems, each the contract of a small function.
ghost use Rattle.covers.specs.Equality.{IsEquality};
ghost use Rattle.lines.specs.Theorems.{LinesAreShort, LinesExamples};

use super::command::{Command, Setup};
use super::reply::Reply;

fn lines_are_short()
    ensures holds { LinesAreShort }
{}

fn lines_as_written()
    ensures holds { LinesExamples }
{}

// `==` of commands, of first lines and of replies is equality.
fn equality()
    ensures command { IsEquality ⟦<Command as PartialEq>⟧.eq }
    ensures setup { IsEquality ⟦<Setup as PartialEq>⟧.eq }
    ensures reply { IsEquality ⟦<Reply as PartialEq>⟧.eq }
{}
