// Answers that may be refused, as they are printed.
ghost use Rattle.shown.specs.Outcomes.{outcome_text};

use rows::refusal::Refusal;
use std::fmt;

// An answer, or in its place its refusal after a space.
#[derive(Clone, Copy)]
pub struct Outcome<T>(pub Result<T, Refusal>);

impl<T: fmt::Display> fmt::Display for Outcome<T> {
    ghost output = { λ outcome. outcome_text T.output outcome.0 };

    fn fmt<W: fmt::Write>(&self, f: &mut fmt::Formatter<W>) -> fmt::Result {
        match &self.0 {
            Ok(answer) => write!(f, "{answer}"),
            Err(refusal) => write!(f, " {refusal}"),
        }
    }
}
