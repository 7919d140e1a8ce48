// The numbers beside a range: the number before it and the number after it, each with one digit turned.
ghost use Rattle.std.specs.Prelude.{◌≡◌, ◌≤◌, nat_le};
ghost use Rattle.arrayvec.specs.ArrayVec.{Extends};
ghost use Rattle.covers.specs.WitnessNumbers.{under, one_turned, inner_numbers, parting_numbers, numbers_beside};

use super::lists::NumberList;
use super::turned::{has_one, with_digit_turned, write_each_turned};

// The number before and the number after, of which the last `places` digits are gone through.
#[derive(Clone, Copy)]
pub struct Beside {
    pub before: u64,
    pub after: u64,
    pub places: u32,
    ghost places_within: { places ≤ 32 },
}

impl Beside {
    ghost use Rattle.ranges.specs.Building.{HasRoom};

    // Adds one number for each digit that both share, if the number after is not over the number before, and from
    // where they differ on those of the places behind.
    pub(super) fn write(self, numbers: &mut NumberList)
        requires room { HasRoom numbers.old (numbers_beside (nat_le self.after self.before) self.places self.before self.after) }
        ensures numbers { Extends numbers.old (numbers_beside (nat_le self.after self.before) self.places self.before self.after) numbers.new }
    {
        for places in (0..self.places).rev() {
            let mut rest = Beside {
                before: self.before,
                after: self.after,
                places,
            };
            if has_one(self.before, places) != has_one(self.after, places) {
                return rest.write_parting(numbers);
            }
            if self.after <= self.before {
                numbers.push(rest.with_one_turned());
            }
        }
    }

    // Where the digits before the last places differ: adds the number before with this digit turned, if by the last
    // places it is lower, and the numbers of these places.
    fn write_parting(&mut self, numbers: &mut NumberList)
        requires room { HasRoom numbers.old (parting_numbers self.old.places self.old.before self.old.after) }
        ensures numbers { Extends numbers.old (parting_numbers self.old.places self.old.before self.old.after) numbers.new }
    {
        if self.is_under() {
            numbers.push(with_digit_turned(self.before, self.places));
        }
        self.write_inner(numbers);
    }

    // Adds one number for each of the last places as long as by these the number before is lower; then the number
    // before turned at each 0 and the number after turned at each 1. What is left behind a place stands here in its place.
    fn write_inner(&mut self, numbers: &mut NumberList)
        requires room { HasRoom numbers.old (inner_numbers self.old.places self.old.before self.old.after) }
        ensures numbers { Extends numbers.old (inner_numbers self.old.places self.old.before self.old.after) numbers.new }
    {
        if !self.is_under() {
            write_each_turned(self.before, self.places, false, numbers);
            write_each_turned(self.after, self.places, true, numbers);
            return;
        }
        *self = Beside {
            before: self.before,
            after: self.after,
            places: self.places - 1,
        };
        numbers.push(self.with_one_turned());
        self.write_inner(numbers);
    }

    // Whether by the last places the number before is lower.
    fn is_under(self) -> bool
        ensures value { result ≡ under self.places self.before self.after }
    {
        let limit = 1u64 << self.places;
        self.before % limit < self.after % limit
    }

    // The number before with the digit before its last places turned, if it is a 0, and else the number after.
    fn with_one_turned(self) -> u64
        ensures value { result ≡ one_turned self.places self.before self.after }
    {
        let number = if has_one(self.before, self.places) {
            self.after
        } else {
            self.before
        };
        with_digit_turned(number, self.places)
    }
}
