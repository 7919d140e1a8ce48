// The interface behind which every chip stands.
ghost use Rattle.std.specs.Prelude.{◌≡◌, ℕ, List, [], ◌++◌, length};
ghost use Rattle.std.specs.List.{AllByRecursion};
ghost use Rattle.rows.specs.Widths.{places_of};
ghost use Rattle.device.specs.States.{DeviceState, Lawful};
ghost use Rattle.device.specs.Answers.{put_answer, after_put, empty_answer, after_empty, read_answer, after_mute, ask_answer, written_by};
ghost use Rattle.device.specs.Levels.{Level, Beneath, carryings};

use rows::refusal::Refusal;
use rows::row::Row;
use rows::width::Width;

// A chip that holds rows in slots, and says of a number whether one of them takes it.
pub trait RowDevice {
    // what the device means; every call is told by it
    ghost state: { Self → DeviceState };

    ghost lawful: { (d : Self) → Lawful (state d) };

    // the levels beneath a pile of layers, from the top down; a device that lies over no other has none
    ghost levels: { Self → List Level };

    ghost beneath: { (d : Self) → AllByRecursion (Beneath (state d)) (levels d) };

    // what lies beside the meaning is kept from one moment to a later one, between which these slots were put or emptied,
    // in this order; what a device keeps is its own statement, and may be nothing
    ghost keeps: { Self → List ℕ → Self → Type 0 };

    ghost keeps_at_rest: { (d : Self) → keeps d [] d };

    ghost keeps_on: { (d e f : Self) (before after : List ℕ) → keeps d before e → keeps e after f → keeps d (before ++ after) f };

    // Writes a row into a slot.
    fn put(&mut self, slot: usize, row: Row) -> Result<(), Refusal>
        ensures answer { result ≡ put_answer (state self.old) slot row }
        ensures after { state self.new ≡ after_put (state self.old) slot row }
        ensures beside { keeps self.old (written_by slot result) self.new }
        ensures same_ways { carryings (levels self.new) ≡ carryings (levels self.old) };

    // Leaves the slot with nothing.
    fn empty(&mut self, slot: usize) -> Result<(), Refusal>
        ensures answer { result ≡ empty_answer (state self.old) slot }
        ensures after { state self.new ≡ after_empty (state self.old) slot }
        ensures beside { keeps self.old (written_by slot result) self.new }
        ensures same_ways { carryings (levels self.new) ≡ carryings (levels self.old) };

    // The slot's row, or nothing.
    fn read(&self, slot: usize) -> Result<Option<Row>, Refusal>
        ensures answer { result ≡ read_answer (state self.now) slot };

    // Turns the mute on or off.
    fn mute(&mut self, on: bool)
        ensures after { state self.new ≡ after_mute (state self.old) on }
        ensures beside { keeps self.old [] self.new }
        ensures same_ways { carryings (levels self.new) ≡ carryings (levels self.old) };

    // Whether the mute is off and some slot has a row that takes the number.
    fn ask(&self, number: u64) -> Result<bool, Refusal>
        ensures answer { result ≡ ask_answer (state self.now) number };

    fn width(&self) -> Width
        ensures answer { places_of result ≡ (state self.now).width };

    fn slot_count(&self) -> usize
        ensures answer { result ≡ length (state self.now).slots };
}
