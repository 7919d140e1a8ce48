// The interface of the line maps.
ghost use Rattle.std.specs.Prelude.{◌≡◌, ℕ};
ghost use Rattle.rows.specs.Widths.{places_of};
ghost use Rattle.device.specs.Levels.{Carrying};
ghost use Rattle.layers.specs.Maps.{LawfulMap};

use rows::row::Row;
use rows::width::Width;

// A way to carry numbers and rows to other lines, and back.
pub trait LineMap {
    // the carrying at each width
    ghost carrying: { Self → ℕ → Carrying };

    ghost carries: { (m : Self) → LawfulMap (carrying m) };

    fn number_there(&self, width: Width, number: u64) -> u64
        ensures carried { result ≡ (carrying self.now (places_of width)).number_there number };

    fn number_back(&self, width: Width, number: u64) -> u64
        ensures carried { result ≡ (carrying self.now (places_of width)).number_back number };

    fn row_there(&self, width: Width, row: Row) -> Row
        ensures carried { result ≡ (carrying self.now (places_of width)).row_there row };

    fn row_back(&self, width: Width, row: Row) -> Row
        ensures carried { result ≡ (carrying self.now (places_of width)).row_back row };
}
