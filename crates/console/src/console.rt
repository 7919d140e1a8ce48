// The console over a device.
use device::device::RowDevice;
use filter::filter::Filter;
use filter_calls::slots::slots_kept;
use lines::command::Command;
use lines::parse::parse_command;
use lines::print::{PrintedLine, row_line};
use lines::reply::Reply;
use rows::edit::Edit;
use rows::refusal::Refusal;
use std::marker::Model;

// The console's filter needs no tag of its own: its tokens never leave the console.
const CONSOLE_TAG: u64 = 0;

// A filter that lines are made calls to; it is held only within an edit.
#[derive(Drop)]
pub struct Console<D: RowDevice> {
    filter: Filter<D>,
}

impl<D: RowDevice> Model for Console<D> {
    ghost use Rattle.std.specs.Prelude.{◌≡◌, false};
    ghost use Rattle.console.specs.Parts.{ConsoleParts};

    ghost Value = { ConsoleParts D };

    ghost view = { λ c. record { filter = c.filter } };

    ghost invariant = { λ c. c.filter.held ≡ false };
}

impl<D: RowDevice> Console<D> {
    ghost use Rattle.std.specs.Prelude.{◌≡◌, ◌≤◌, length, slice_get, slice_index_or, None};
    ghost use Rattle.std.specs.Option.{option_map};
    ghost use Rattle.device.specs.KeptBeside.{KeptBeside};
    ghost use Rattle.ledger.specs.Ledger.{Ledger, opened, ledger_rows};
    ghost use Rattle.filter.specs.StandsFor.{Follows};
    ghost use Rattle.filter.specs.Writes.{all_slots, edit_writes};
    ghost use Rattle.filter_calls.specs.Promises.{PromiseKept};
    ghost use Rattle.console.specs.Closing.{row_lines, slot_line};
    ghost use Rattle.console.specs.Replies.{edit_in_hold, reply_writes};
    ghost use Rattle.console.specs.StandsFor.{ConsoleStands, ConsoleStandsForOne, LineObeyed};

    // A console over the device, which holds no numbers.
    pub fn open(device: D) -> Console<D>
        ensures opened { ConsoleStands D.RowDevice result
            (opened (D.state device).width (length (D.state device).slots) 0) }
        ensures beside { KeptBeside D.RowDevice device
            (all_slots (length (D.state device).slots))
            result.filter.device }
    {
        Console {
            filter: Filter::open(device, CONSOLE_TAG),
        }
    }

    // Obeys a line, without its newline, and replies to it or refuses it.
    pub fn answer(&mut self, line: &[u8]) -> Result<Reply, Refusal>
        ensures obeyed { LineObeyed D.RowDevice self.old line.now result self.new }
        ensures beside { KeptBeside D.RowDevice self.old.filter.device
            (reply_writes (length (D.state self.old.filter.device).slots) result)
            self.new.filter.device }
    {
        match parse_command(line)? {
            Command::Edit(edit) => {
                let rows = self.edit(edit)?;
                Ok(Reply::Rows(rows))
            }
            Command::Ask { number } => {
                let said = self.filter.ask(number)?;
                Ok(Reply::Says(said))
            }
        }
    }

    // One edit within a hold of its own.
    fn edit(&mut self, edit: Edit) -> Result<usize, Refusal>
        ensures step { Follows D.RowDevice self.old.filter (edit_in_hold edit) result self.new.filter }
        ensures beside { KeptBeside D.RowDevice self.old.filter.device
            (edit_writes result (length (D.state self.old.filter.device).slots))
            self.new.filter.device }
    {
        let token = self.filter.hold()?;
        let answer = self.filter.edit(&token, edit);
        self.filter.release(token).unwrap();
        let rows = answer?;
        Ok(rows)
    }

    /// How many slots there are; whatever lines were obeyed before, the rows in them are right.
    pub fn slot_count(&self) -> usize
        ensures count { result ≡ length (D.state self.now.filter.device).slots }
        ensures kept { (b : Ledger) → ConsoleStands D.RowDevice self.now b →
            PromiseKept (D.state self.now.filter.device) (D.levels self.now.filter.device) b }
        ensures stands { ConsoleStandsForOne D.RowDevice self.now }
    {
        slots_kept(&self.filter)
    }

    /// The line of the row in a slot, its newline included; nothing for an empty slot, or beyond the last.
    pub fn row_line(&self, slot: usize) -> Option<PrintedLine>
        ensures by_device { option_map (λ line. line.bytes) result ≡
            slot_line (D.state self.now.filter.device).width
            (slice_index_or (D.state self.now.filter.device).slots slot None) }
        ensures by_ledger { (b : Ledger) → ConsoleStands D.RowDevice self.now b →
            option_map (λ line. line.bytes) result ≡ slice_get (row_lines (ledger_rows b)) slot }
        ensures few { 120 ≤ slot → result ≡ None }
        ensures stands { ConsoleStandsForOne D.RowDevice self.now }
    {
        let row = self.filter.report_slot(slot).ok()??;
        Some(row_line(self.filter.width(), row))
    }

    // Ends the console and gives the device back as it is.
    pub fn into_device(self) -> D
        ensures device { result ≡ self.filter.device }
        ensures stands { ConsoleStandsForOne D.RowDevice self }
    {
        let Console { filter } = self;
        filter.into_device()
    }
}
