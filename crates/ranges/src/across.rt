// The rows of a straight range whose first number begins with 0 and whose last begins with 1.
ghost use Rattle.std.specs.Prelude.{◌≡◌, ◌+◌, ◌<◌, true, false};
ghost use Rattle.covers.specs.Digits.{digit};

use super::edge::Edge;
use super::ends::Ends;
use super::lead::Lead;
use super::lists::RowList;
use rows::digit::has_one;

// From 0·first to 1·last, where the lead has what stands in the place of the first digit.
#[derive(Clone, Copy)]
pub struct Across {
    pub lead: Lead,
    pub ends: Ends,
    ghost fits: { lead.dash.places ≡ ends.places },
}

impl Across {
    ghost use Rattle.arrayvec.specs.ArrayVec.{Extends};
    ghost use Rattle.ranges.specs.Building.{HasRoom, Split, across_words, zero_words, one_words, edge_words};

    // Adds the rows. The inner range of a middle rule is one place shorter, and stands here in its place.
    #[tactic(auto, using(crate::proofs::AcrossLists::across_some))]
    pub(super) fn write(&mut self, rows: &mut RowList)
        requires room { HasRoom rows.old (across_words self.old) }
        ensures rows { Extends rows.old (across_words self.old) rows.new }
    {
        let Across { lead, ends } = *self;
        if ends.first == 0 {
            return self.write_from_zero(rows);
        }
        if ends.reaches_highest() {
            rows.push(lead.one.words);
            return self.from_first().write(rows);
        }
        let rest = ends.behind_first_digits();
        let place = rest.places;
        match (has_one(ends.first, place), has_one(ends.last, place)) {
            (true, false) => self.write_inner(rest, rows),
            (true, true) => {
                // the third quarter is whole
                rows.push(lead.one.with_digit(false).words);
                let lead = lead.inserted(true);
                *self = Across { lead, ends: rest };
                self.write(rows);
            }
            (false, false) => {
                // the second quarter is whole
                rows.push(lead.zero.with_digit(true).words);
                let lead = lead.inserted(false);
                *self = Across { lead, ends: rest };
                self.write(rows);
            }
            (false, true) if rest.first > rest.last + 1 => self.write_apart(rest, rows),
            (false, true) => {
                // the ends overlap
                rows.push(lead.zero.with_digit(true).words);
                let lead = lead.widened();
                *self = Across { lead, ends: rest };
                self.write(rows);
            }
        }
    }

    // Both ends lie in the inner quarters.
    fn write_inner(self, rest: Ends, rows: &mut RowList)
        requires split { Split self.ends rest }
        requires first_digit { digit rest.places self.ends.first ≡ true }
        requires last_digit { digit rest.places self.ends.last ≡ false }
        requires room { HasRoom rows.old (across_words self) }
        ensures rows { Extends rows.old (across_words self) rows.new }
    {
        let Across { lead, ends: _ } = self;
        let lead = lead.with_digits(true, false);
        let inner = Across { lead, ends: rest };
        inner.from_first().write(rows);
        inner.to_last().write(rows);
    }

    // The ends lie in the outer quarters and are apart: both quarters between them are whole.
    fn write_apart(self, rest: Ends, rows: &mut RowList)
        requires split { Split self.ends rest }
        requires first_digit { digit rest.places self.ends.first ≡ false }
        requires last_digit { digit rest.places self.ends.last ≡ true }
        requires apart { rest.last + 1 < rest.first }
        requires room { HasRoom rows.old (across_words self) }
        ensures rows { Extends rows.old (across_words self) rows.new }
    {
        let Across { lead, ends: _ } = self;
        let outer = Across {
            lead: lead.with_digits(false, true),
            ends: rest,
        };
        outer.from_first().write(rows);
        rows.push(lead.zero.with_digit(true).words);
        rows.push(lead.one.with_digit(false).words);
        outer.to_last().write(rows);
    }

    // From 0: a row for all that begin with 0, and the lowest of those that begin with 1; or the whole.
    #[tactic(auto, using(crate::proofs::AcrossLists::across_some))]
    fn write_from_zero(self, rows: &mut RowList)
        requires from_zero { self.ends.first ≡ 0 }
        requires room { HasRoom rows.old (across_words self) }
        ensures rows { Extends rows.old (across_words self) rows.new }
    {
        if self.ends.reaches_highest() {
            rows.push(self.lead.dash.words);
        } else {
            rows.push(self.lead.zero.words);
            self.to_last().write(rows);
        }
    }

    // The numbers that begin with 0, the highest from the first on.
    fn from_first(self) -> Edge
        ensures words { edge_words result ≡ zero_words self.lead self.ends }
    {
        Edge {
            front: self.lead.zero,
            count: self.ends.limit() - self.ends.first,
            exchanged: true,
        }
    }

    // The numbers that begin with 1, the lowest up to the last.
    fn to_last(self) -> Edge
        ensures words { edge_words result ≡ one_words self.lead self.ends }
    {
        Edge {
            front: self.lead.one,
            count: self.ends.last + 1,
            exchanged: false,
        }
    }
}
