// A number with one digit turned, and all such numbers of some places.
ghost use Rattle.std.specs.Prelude.{◌≡◌, ◌<◌, ◌≤◌};
ghost use Rattle.arrayvec.specs.ArrayVec.{Extends};
ghost use Rattle.covers.specs.Digits.{digit};
ghost use Rattle.ranges.specs.Building.{HasRoom};
ghost use Rattle.covers.specs.WitnessNumbers.{turned, each_turned};

use super::lists::NumberList;

// Whether the number has a 1 at the place.
pub(super) fn has_one(number: u64, place: u32) -> bool
    requires place_within { place < 64 }
    ensures value { result ≡ digit place number }
{
    (number >> place) & 1 == 1
}

// The number with the other digit at the place.
pub(super) fn with_digit_turned(number: u64, place: u32) -> u64
    requires place_within { place < 64 }
    ensures value { result ≡ turned place number }
{
    number ^ (1u64 << place)
}

// Adds the number turned at each of the last places where it has a 1, or has none. It goes from one such place to the
// next, by the ones of a number that has a 1 at each of them.
pub(super) fn write_each_turned(number: u64, places: u32, one: bool, numbers: &mut NumberList)
    requires places_within { places < 64 }
    requires room { HasRoom numbers.old (each_turned one places number) }
    ensures numbers { Extends numbers.old (each_turned one places number) numbers.new }
{
    let limit = 1u64 << places;
    let mut left = if one {
        number % limit
    } else {
        limit - 1 - number % limit
    };
    while left > 0 {
        let place = 63 - left.leading_zeros();
        numbers.push(with_digit_turned(number, place));
        left -= 1u64 << place;
    }
}
