// The ends of a range.
ghost use Rattle.std.specs.Prelude.{◌≡◌, ◌+◌, ◌*◌, ◌/◌, ◌%◌, ◌^◌, ◌<◌, ◌≤◌, ◌==◌, bit_xor};
ghost use Rattle.rows.specs.Widths.{places_of};

use rows::range::Range;
use rows::refusal::Refusal;
use rows::width::Width;

// The first and the last number, both of so many places.
#[derive(Clone, Copy)]
pub struct Ends {
    pub places: u32,
    pub first: u64,
    pub last: u64,
    ghost places_within: { places ≤ 32 },
    ghost first_within: { first < 2 ^ places },
    ghost last_within: { last < 2 ^ places },
}

impl Ends {
    ghost use Rattle.ranges.specs.Building.{EndsMade, Split};

    // The ends of the range, refused if one is no number of the width.
    pub(super) fn of(width: Width, range: Range) -> Result<Ends, Refusal>
        ensures made { EndsMade (places_of width) range.first range.last result }
    {
        if !range.is_within(width) {
            return Err(Refusal::NumberOutsideWidth);
        }
        Ok(Ends {
            places: width.places(),
            first: range.first,
            last: range.last,
        })
    }

    // One more than the highest number.
    pub(super) fn limit(self) -> u64
        ensures value { result ≡ 2 ^ self.places }
    {
        1u64 << self.places
    }

    // Whether the first number is just one above the last: no number is left out, and the range is the whole circle.
    pub(super) fn is_whole(self) -> bool
        ensures value { result ≡ (self.first == self.last + 1) }
    {
        self.first == self.last + 1
    }

    // Whether the last number is the highest.
    pub(super) fn reaches_highest(self) -> bool
        ensures value { result ≡ (self.last + 1 == 2 ^ self.places) }
    {
        self.last + 1 == self.limit()
    }

    // The places that remain behind the digits that both numbers begin with.
    pub(super) fn places_apart(self) -> u32
        ensures bound { result ≤ self.places }
        ensures alike_before { self.first / 2 ^ result ≡ self.last / 2 ^ result }
        ensures apart { 2 ^ result ≤ 2 * bit_xor self.first self.last + 1 }
    {
        64 - (self.first ^ self.last).leading_zeros()
    }

    // The ends by their last places.
    pub(super) fn last_places(self, places: u32) -> Ends
        requires fewer { places ≤ self.places }
        ensures places { result.places ≡ places }
        ensures first { result.first ≡ self.first % 2 ^ places }
        ensures last { result.last ≡ self.last % 2 ^ places }
    {
        let limit = 1u64 << places;
        Ends {
            places,
            first: self.first % limit,
            last: self.last % limit,
        }
    }

    // The ends without their first digits.
    pub(super) fn behind_first_digits(self) -> Ends
        requires some { 0 < self.places }
        ensures split { Split self result }
    {
        self.last_places(self.places - 1)
    }
}
