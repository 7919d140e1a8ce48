// How a row begins.
ghost use Rattle.std.specs.Prelude.{◌≡◌, suc, ◌+◌, ◌^◌, ◌<◌, ◌≤◌};

use rows::row_words::RowWords;

// A row whose last places are still free for more digits; as it is, it has dashes there. A front may be full, so what takes
// a place asks for one.
#[derive(Clone, Copy)]
pub struct Front {
    pub words: RowWords,
    pub places: u32,
    ghost places_within: { places ≤ 32 },
    ghost value_free: { words.value + 2 ^ places ≤ 2 ^ 32 },
    ghost care_free: { words.care + 2 ^ places ≤ 2 ^ 32 },
}

impl Front {
    ghost use Rattle.ranges.specs.Building.{Extended};

    // The front with this digit in its first free place.
    pub(super) fn with_digit(self, digit: bool) -> Front
        requires some { 0 < self.places }
        ensures extended { Extended self result digit }
    {
        let places = self.places - 1;
        let bit = 1u32 << places;
        let value = if digit {
            self.words.value + bit
        } else {
            self.words.value
        };
        Front {
            words: RowWords {
                value,
                care: self.words.care + bit,
            },
            places,
        }
    }

    // The front with a dash in its first free place.
    pub(super) fn with_dash(self) -> Front
        requires some { 0 < self.places }
        ensures words { result.words ≡ self.words }
        ensures places { self.places ≡ suc result.places }
    {
        Front {
            words: self.words,
            places: self.places - 1,
        }
    }
}
