// A session of the console, byte by byte.
ghost use Rattle.std.specs.Prelude.{◌≡◌};

use super::stage::Stage;
use device::device::RowDevice;
use device::new_device::NewDevice;
use lines::line_buffer::LineBuffer;
use lines::print::PrintedLine;

/// A session, to which bytes come in pieces of any size; it never grows. Its first line makes the device.
#[derive(Drop)]
pub struct Session<D: RowDevice> {
    stage: Stage<D>,
    line: LineBuffer,
}

impl<D: NewDevice + Drop> Session<D> {
    ghost use Rattle.std.specs.Prelude.{◌≤◌, [], ◌∷◌, slice_get, Some, None};
    ghost use Rattle.std.specs.Option.{option_map};
    ghost use Rattle.lines.specs.Buffers.{buffered};
    ghost use Rattle.console.specs.Sessions.{waiting, closing_lines, is_stopped};
    ghost use Rattle.console.specs.SessionStands.{AtItsStage, BytesTaken, EndTaken, LineClosed, SessionStands, printed};

    /// A session that waits for its first line.
    pub fn new() -> Session<D>
        ensures begun { SessionStands D.RowDevice result waiting [] }
    {
        Session {
            stage: Stage::Waiting,
            line: LineBuffer::new(),
        }
    }

    /// Takes one byte of the input; the line to print, if the byte closes a line that is answered.
    pub fn take_byte(&mut self, byte: u8) -> Option<PrintedLine>
        ensures taken { AtItsStage D.RowDevice self.old (λ stage line.
            BytesTaken D.RowDevice stage line (byte ∷ []) (printed result) self.new) }
    {
        if byte == b'\n' {
            return self.close_line();
        }
        self.line.push(byte);
        None
    }

    /// At the input's end: closes a line that is open; the line to print, if that is answered.
    pub fn end_input(&mut self) -> Option<PrintedLine>
        ensures ended { AtItsStage D.RowDevice self.old (λ stage line.
            EndTaken D.RowDevice stage line (printed result) self.new) }
    {
        if self.line.is_empty() {
            return None;
        }
        self.close_line()
    }

    /// The closing line at an index, as they follow the answer to the last line: the rows in their order, or the refusal
    /// of a session that never had a first line. There are at most 120.
    pub fn closing_line(&self, index: usize) -> Option<PrintedLine>
        ensures line { AtItsStage D.RowDevice self.now (λ stage line.
            option_map (λ line. line.bytes) result ≡ slice_get (closing_lines stage) index) }
        ensures few { 120 ≤ index → result ≡ None }
    {
        self.stage.closing_line(index)
    }

    /// Whether the console has stopped: it prints nothing more, whatever comes.
    pub fn has_stopped(&self) -> bool
        ensures value { AtItsStage D.RowDevice self.now (λ stage line. result ≡ is_stopped stage) }
    {
        matches!(self.stage, Stage::Stopped)
    }

    // Closes the line that is open, and gives the line to print, if it is answered.
    fn close_line(&mut self) -> Option<PrintedLine>
        ensures step { AtItsStage D.RowDevice self.old (λ stage line.
            LineClosed D.RowDevice stage line (printed result) self.new.stage) }
        ensures empty { buffered self.new.line ≡ Some [] }
    {
        let reply = self.stage.take_line(self.line.line());
        self.line.clear();
        reply
    }
}
