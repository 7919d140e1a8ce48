// A session, line by line.
ghost use Rattle.std.specs.Prelude.{◌≡◌, ℕ, ◌≤◌, List, slice_get, None, Option as Maybe};
ghost use Rattle.std.specs.Option.{option_map};
ghost use Rattle.lines.specs.declared.command.Setup.{Setup as SetupLine};
ghost use Rattle.lines.specs.Buffers.{kept};
ghost use Rattle.console.specs.Sessions.{Stage as Meaning, ReadsSetup, closing_lines};
ghost use Rattle.console.specs.SessionStands.{Begun, LineClosed, StageStands, printed};
ghost use Rattle.console.specs.StandsFor.{LineObeyed};

use super::console::Console;
use device::device::RowDevice;
use device::new_device::NewDevice;
use lines::parse::parse_setup;
use lines::print::{PrintedLine, reply_line};
use lines::reply::Reply;
use rows::refusal::Refusal;
use rows::width::Width;

// What a session has come to: it waits for its first line, runs, or has stopped.
#[derive(Drop)]
pub(super) enum Stage<D: RowDevice> {
    Waiting,
    Running(Console<D>),
    Stopped,
}

impl<D: NewDevice + Drop> Stage<D> {
    // Takes a line, or nothing in place of one that is too long, and gives the line to print, if it is answered.
    pub(super) fn take_line(&mut self, line: Option<&[u8]>) -> Option<PrintedLine>
        ensures step { (stage : Meaning) (text : List ℕ) → StageStands D.RowDevice self.old stage →
            option_map (λ x. x.now) line.entry ≡ kept text →
            LineClosed D.RowDevice stage text (printed result) self.new }
    {
        match self {
            Stage::Waiting => match begin(line) {
                Ok(console) => {
                    *self = Stage::Running(console);
                    None
                }
                Err(refusal) => {
                    *self = Stage::Stopped;
                    Some(reply_line(Err(refusal)))
                }
            },
            Stage::Running(console) => Some(reply_line(answer(console, line))),
            Stage::Stopped => None,
        }
    }

    // The closing line at an index: a row of a session that runs, or the refusal of one that never had a first line.
    pub(super) fn closing_line(&self, index: usize) -> Option<PrintedLine>
        ensures line { (stage : Meaning) → StageStands D.RowDevice self.now stage →
            option_map (λ line. line.bytes) result ≡ slice_get (closing_lines stage) index }
        ensures few { 120 ≤ index → result ≡ None }
    {
        match self {
            Stage::Waiting if index == 0 => Some(reply_line(Err(Refusal::MalformedLine))),
            Stage::Running(console) => console.row_line(index),
            _ => None,
        }
    }
}

// The console that a first line asks for.
fn begin<D: NewDevice>(line: Option<&[u8]>) -> Result<Console<D>, Refusal>
    ensures begun { (text : List ℕ) → option_map (λ x. x.now) line.entry ≡ kept text →
        (setup : Maybe SetupLine) × ReadsSetup text setup × Begun D.RowDevice setup result }
{
    let line = line.ok_or(Refusal::MalformedLine)?;
    let setup = parse_setup(line)?;
    let width = Width::try_from(setup.width)?;
    Ok(Console::open(D::new(width, setup.slots as usize)))
}

// The reply of a running console.
fn answer<D: RowDevice>(console: &mut Console<D>, line: Option<&[u8]>) -> Result<Reply, Refusal>
    ensures obeyed { (text : List ℕ) → option_map (λ x. x.now) line.entry ≡ kept text →
        LineObeyed D.RowDevice console.old text result console.new }
{
    console.answer(line.ok_or(Refusal::MalformedLine)?)
}
