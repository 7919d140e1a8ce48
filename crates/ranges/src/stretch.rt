// The rows of a run.
ghost use Rattle.std.specs.Prelude.{◌≡◌, ◌<◌, ◌≤◌, ◌++◌};

use super::across::Across;
use super::ends::Ends;
use super::front::Front;
use super::lead::Lead;
use super::lists::RowList;
use rows::digit::has_one;
use rows::row_words::RowWords;

// The numbers from a first up the circle to a last, behind a front.
#[derive(Clone, Copy)]
pub struct Stretch {
    pub front: Front,
    pub ends: Ends,
    ghost fits: { front.places ≡ ends.places },
}

impl Stretch {
    ghost use Rattle.arrayvec.specs.ArrayVec.{Extends};
    ghost use Rattle.ranges.specs.Building.{HasRoom, Alone, OverMiddle, Parted, stretch_words, straight_words, round_words};

    // The numbers with nothing before them.
    pub(super) fn of(ends: Ends) -> Stretch
        ensures alone { Alone ends result }
    {
        let words = RowWords::default();
        let places = ends.places;
        let front = Front { words, places };
        Stretch { front, ends }
    }

    // Adds the rows.
    pub(super) fn write(&mut self, rows: &mut RowList)
        requires room { HasRoom rows.old (stretch_words self.old) }
        ensures rows { Extends rows.old (stretch_words self.old) rows.new }
    {
        let mut across = if self.ends.first <= self.ends.last {
            let Stretch { front, ends } = self.behind_shared_digits();
            if ends.places == 0 {
                return rows.push(front.words);
            }
            let lead = Lead::behind(front, false);
            let ends = ends.behind_first_digits();
            Across { lead, ends }
        } else {
            self.write_round(rows);
            let lead = Lead::behind(self.front, true);
            let ends = self.ends.behind_first_digits();
            Across { lead, ends }
        };
        across.write(rows);
    }

    // The shorter stretch behind the digits that both ends share, which go before each of its rows.
    fn behind_shared_digits(self) -> Stretch
        requires ordered { self.ends.first ≤ self.ends.last }
        ensures same { straight_words self ≡ straight_words result }
        ensures parted { Parted result.ends }
    {
        let Stretch { front, ends } = self;
        let apart = ends.places_apart();
        let rest = ends.last_places(apart);
        let words = RowWords {
            value: front.words.value + (ends.first - rest.first) as u32,
            care: front.words.care + (ends.limit() - rest.limit()) as u32,
        };
        let places = rest.places;
        let front = Front { words, places };
        Stretch { front, ends: rest }
    }

    // Of the rows of first to the highest number and of 0 to last, adds those of the halves that are whole. What is left
    // goes over its middle, and stands here in its place.
    fn write_round(&mut self, rows: &mut RowList)
        requires round { self.old.ends.last < self.old.ends.first }
        requires room { HasRoom rows.old (round_words self.old) }
        ensures rows { rows.new.items ++ round_words self.new ≡ rows.old.items ++ round_words self.old }
        ensures over { OverMiddle self.new.ends }
    {
        let Stretch { front, ends } = *self;
        let rest = ends.behind_first_digits();
        let place = rest.places;
        match (has_one(ends.first, place), has_one(ends.last, place)) {
            (false, _) => {
                // both ends begin with 0: all that begin with 1 are in
                rows.push(front.with_digit(true).words);
                let front = front.with_digit(false);
                *self = Stretch { front, ends: rest };
                self.write_round(rows);
            }
            (true, true) => {
                // both ends begin with 1: all that begin with 0 are in
                rows.push(front.with_digit(false).words);
                let front = front.with_digit(true);
                *self = Stretch { front, ends: rest };
                self.write_round(rows);
            }
            (true, false) => {}
        }
    }
}
