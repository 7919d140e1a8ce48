// How the rows of a list begin.
ghost use Rattle.std.specs.Prelude.{◌≡◌, ◌<◌};

use super::front::Front;

// The front that a row gets in the place of its first symbol: one for a 0, one for a 1 and one for a dash.
#[derive(Clone, Copy)]
pub struct Lead {
    pub zero: Front,
    pub one: Front,
    pub dash: Front,
    ghost zero_alike: { zero.places ≡ dash.places },
    ghost one_alike: { one.places ≡ dash.places },
}

impl Lead {
    ghost use Rattle.ranges.specs.Building.{Begun, Inserted, WithDigits, Widened};

    // The lead of rows behind a front; if exchanged, a first 0 becomes 1 and a first 1 becomes 0.
    pub(super) fn behind(front: Front, exchanged: bool) -> Lead
        requires some { 0 < front.places }
        ensures begun { Begun front result exchanged }
    {
        Lead {
            zero: front.with_digit(exchanged),
            one: front.with_digit(!exchanged),
            dash: front.with_dash(),
        }
    }

    // The lead of rows that get this digit after their first symbol.
    pub(super) fn inserted(self, digit: bool) -> Lead
        requires some { 0 < self.dash.places }
        ensures inserted { Inserted self result digit }
    {
        Lead {
            zero: self.zero.with_digit(digit),
            one: self.one.with_digit(digit),
            dash: self.dash.with_digit(digit),
        }
    }

    // The lead of rows that get the one digit after a first 0 and the other after a first 1.
    pub(super) fn with_digits(self, after_zero: bool, after_one: bool) -> Lead
        requires some { 0 < self.dash.places }
        ensures digits { WithDigits self result after_zero after_one }
    {
        Lead {
            zero: self.zero.with_digit(after_zero),
            one: self.one.with_digit(after_one),
            dash: self.dash.with_dash(),
        }
    }

    // The lead of rows of which a first 0 becomes "-0", a first 1 becomes "1-" and a first dash becomes two.
    pub(super) fn widened(self) -> Lead
        requires some { 0 < self.dash.places }
        ensures widened { Widened self result }
    {
        Lead {
            zero: self.dash.with_digit(false),
            one: self.one.with_dash(),
            dash: self.dash.with_dash(),
        }
    }
}
