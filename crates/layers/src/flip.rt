// The flip: a line map that exchanges 0 and 1 at some places.
ghost use Rattle.std.specs.Prelude.{◌≡◌, ◌%◌, ◌^◌};
ghost use Rattle.rows.specs.Widths.{places_of};
ghost use Rattle.layers.specs.Flips.{flip_carrying, FlipsDigits, FlipsSymbols};
ghost use Rattle.layers.specs.FlipLaws.{flip_carries};

use super::line_map::LineMap;
use rows::row::Row;
use rows::width::Width;

// Exchanges 0 and 1 at the places marked in the mask, of which the last ones of the width count.
#[derive(Clone, Copy, PartialEq, Eq, Debug)]
pub struct Flip {
    pub mask: u32,
}

impl Flip {
    // The places that are marked, among the last ones of the width.
    fn marked(self, width: Width) -> u32
        ensures value { result ≡ self.mask % 2 ^ places_of width }
    {
        (u64::from(self.mask) % width.limit()) as u32
    }
}

impl LineMap for Flip {
    ghost carrying = { λ m n. flip_carrying m.mask n };

    ghost carries = { λ m n _ _. flip_carries m.mask n };

    fn number_there(&self, width: Width, number: u64) -> u64
        ensures carried { result ≡
            (⟦<Self as LineMap>⟧.carrying self.now (places_of width)).number_there number }
        ensures by_digits { FlipsDigits self.now.mask (places_of width) number result }
    {
        number ^ u64::from(self.marked(width))
    }

    // The way there once more, on a line of its own: the trait asks for both ways, since a map may have another way back.
    fn number_back(&self, width: Width, number: u64) -> u64
        ensures carried { result ≡
            (⟦<Self as LineMap>⟧.carrying self.now (places_of width)).number_back number }
        ensures by_digits { FlipsDigits self.now.mask (places_of width) number result }
    {
        self.number_there(width, number)
    }

    fn row_there(&self, width: Width, row: Row) -> Row
        ensures carried { result ≡
            (⟦<Self as LineMap>⟧.carrying self.now (places_of width)).row_there row }
        ensures by_symbols { FlipsSymbols self.now.mask (places_of width) row result }
    {
        let marked = self.marked(width);
        Row::new(row.value() ^ marked, row.care())
    }

    fn row_back(&self, width: Width, row: Row) -> Row
        ensures carried { result ≡
            (⟦<Self as LineMap>⟧.carrying self.now (places_of width)).row_back row }
        ensures by_symbols { FlipsSymbols self.now.mask (places_of width) row result }
    {
        self.row_there(width, row)
    }
}
