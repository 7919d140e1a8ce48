// The turn: a line map that reads the places from the other end.
ghost use Rattle.std.specs.Prelude.{◌≡◌, ◌^◌, ◌<◌};
ghost use Rattle.rows.specs.Widths.{places_of};
ghost use Rattle.layers.specs.Turns.{turned, turn_carrying, TurnsDigits, TurnsSymbols};
ghost use Rattle.layers.specs.TurnLaws.{turn_carries};

use super::line_map::LineMap;
use rows::row::Row;
use rows::width::Width;

// Carries the digit at each place to the place that lies as far from the other end.
#[derive(Clone, Copy, PartialEq, Eq, Debug)]
pub struct Turn;

impl LineMap for Turn {
    ghost carrying = { λ _ n. turn_carrying n };

    ghost carries = { λ _ n _ _. turn_carries n };

    fn number_there(&self, width: Width, number: u64) -> u64
        ensures carried { result ≡
            (⟦<Self as LineMap>⟧.carrying self.now (places_of width)).number_there number }
        ensures by_digits { TurnsDigits (places_of width) number result }
    {
        read_backwards(number, width)
    }

    // The way there once more, on a line of its own: the trait asks for both ways, since a map may have another way back.
    fn number_back(&self, width: Width, number: u64) -> u64
        ensures carried { result ≡
            (⟦<Self as LineMap>⟧.carrying self.now (places_of width)).number_back number }
        ensures by_digits { TurnsDigits (places_of width) number result }
    {
        self.number_there(width, number)
    }

    fn row_there(&self, width: Width, row: Row) -> Row
        ensures carried { result ≡
            (⟦<Self as LineMap>⟧.carrying self.now (places_of width)).row_there row }
        ensures by_symbols { TurnsSymbols (places_of width) row result }
    {
        let value = read_backwards(u64::from(row.value()), width) as u32;
        let care = read_backwards(u64::from(row.care()), width) as u32;
        Row::new(value, care)
    }

    fn row_back(&self, width: Width, row: Row) -> Row
        ensures carried { result ≡
            (⟦<Self as LineMap>⟧.carrying self.now (places_of width)).row_back row }
        ensures by_symbols { TurnsSymbols (places_of width) row result }
    {
        self.row_there(width, row)
    }
}

// The last digits of the word, one a place of the width, from the last to the first.
fn read_backwards(word: u64, width: Width) -> u64
    ensures value { result ≡ turned (places_of width) word }
    ensures fits { result < 2 ^ 32 }
{
    // by as many steps as there are places: the library's reversal of a word takes 64 at every width
    let places = width.places();
    let mut backwards = 0;
    for place in 0..places {
        backwards = backwards * 2 + (word >> place) % 2;
    }
    backwards
}
