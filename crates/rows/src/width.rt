// The width: how many digits the numbers have.
ghost use Rattle.std.specs.Prelude.{◌≡◌, ◌^◌, ◌≤◌};

use super::refusal::Refusal;

/// The most places that a width has.
pub const MOST_PLACES: usize = 32;

// A number of places from 1 to 32, kept as one less, of which five bits count: so every value is a width.
// No ghost field, since a device over lent memory that has such a field could not lie below a layer or a filter.
#[derive(Clone, Copy, PartialEq, Eq, Debug)]
pub struct Width {
    spare: u32,
}

impl TryFrom<u64> for Width {
    ghost use Rattle.rows.specs.Widths.{WidthMade};

    type Error = Refusal;

    ghost try_from_gives = { WidthMade };

    // The width of so many places, refused outside 1 to 32.
    fn try_from(places: u64) -> Result<Width, Refusal> {
        if 1 <= places && places <= MOST_PLACES as u64 {
            Ok(Width {
                spare: (places - 1) as u32,
            })
        } else {
            Err(Refusal::WidthOutOfRange)
        }
    }
}

impl Width {
    ghost use Rattle.rows.specs.Widths.{places_of};

    // The number of places.
    pub fn places(self) -> u32
        ensures value { result ≡ places_of self }
        ensures low_bound { 1 ≤ result }
        ensures high_bound { result ≤ 32 }
    {
        self.spare % 32 + 1
    }

    // One more than the highest number of the width.
    pub fn limit(self) -> u64
        ensures value { result ≡ 2 ^ places_of self }
    {
        1u64 << self.places()
    }
}
