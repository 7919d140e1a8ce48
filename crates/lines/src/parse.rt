// Which line is which command.
ghost use Rattle.std.specs.Prelude.{◌≡◌, Ok, MatchResult};
ghost use Rattle.rows.specs.declared.refusal.Refusal.TheVariants.{MalformedLine};
ghost use Rattle.lines.specs.Lines.{Means, SetsUp};

use super::command::{Command, Setup};
use super::number::{one_number, one_range, two_numbers};
use rows::edit::Edit;
use rows::refusal::Refusal;

// The command that a line, without its newline, stands for; refused if it stands for none.
pub fn parse_command(line: &[u8]) -> Result<Command, Refusal>
    ensures accepted { (c : Command) → Means line.now c → result ≡ Ok c }
    ensures only { MatchResult result (λ c. Means line.now c) (λ e. e ≡ MalformedLine) }
{
    let [verb, b' ', numbers @ ..] = line else {
        return Err(Refusal::MalformedLine);
    };
    match char::from(*verb) {
        '+' => one_range(numbers).map(|range| Command::Edit(Edit::Add(range))),
        '-' => one_range(numbers).map(|range| Command::Edit(Edit::Drop(range))),
        '?' => one_number(numbers).map(|number| Command::Ask { number }),
        _ => Err(Refusal::MalformedLine),
    }
}

// The width and the slot count of the first line; refused if it is not two numbers.
pub fn parse_setup(line: &[u8]) -> Result<Setup, Refusal>
    ensures accepted { (s : Setup) → SetsUp line.now s → result ≡ Ok s }
    ensures only { MatchResult result (λ s. SetsUp line.now s) (λ e. e ≡ MalformedLine) }
{
    two_numbers(line).map(|(width, slots)| Setup { width, slots })
}
