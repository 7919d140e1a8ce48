// What holds at every level beneath a pile of layers.
ghost use Rattle.std.specs.Prelude.{◌≡◌};
ghost use Rattle.std.specs.List.{AllByRecursion};
ghost use Rattle.device.specs.Answers.{ask_answer};
ghost use Rattle.layers.specs.Piles.{Alike};

use device::device::RowDevice;
use rows::refusal::Refusal;

// Asks a pile of layers, of any height. At every level beneath, the rows take a carried number exactly when the rows
// on top take the number, and a rival of those rows, carried back, is a rival on top with as many rows.
pub fn ask_pile<D: RowDevice>(pile: &D, number: u64) -> Result<bool, Refusal>
    ensures answer { result ≡ ask_answer (D.state pile.now) number }
    ensures levels { AllByRecursion (Alike (D.state pile.now)) (D.levels pile.now) }
{
    pile.ask(number)
}
