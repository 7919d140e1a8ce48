// The loop of the program: pieces from a reader, lines to a writer.
ghost use Rattle.console.specs.SessionStands.{AtItsStage, printed};
ghost use Rattle.console.specs.Loops.{BytesWritten, EndWritten, LoopEnded, NoReadFailed, PieceAnswered};

use super::failure::Failure;
use super::session::Session;
use device::new_device::NewDevice;
use lines::print::PrintedLine;
use rows::slots::MOST_SLOTS;
use std::io::{ErrorKind, Read, Write};

/// The bytes that are asked for at a time.
pub const PIECE_BYTES: usize = 4096;

// The most closing lines that a session has: a row for each slot.
const MOST_CLOSING_LINES: usize = MOST_SLOTS;

/// Runs a session of the console over a device of the type `D`: reads to the input's end, or until the first line is
/// refused, and writes the answer to each line as soon as the piece is taken that closes it, and the closing lines at the
/// end. The writer is flushed before each read. An interrupted call is made again. Where nothing is known of the bytes of
/// the reader or the writer, as on a terminal, no clause speaks of them.
///
/// Errors: what could not be read or written. What was written by then stays written.
pub fn run<D: NewDevice + Drop, R: Read, W: Write>(
    input: &mut R,
    output: &mut W,
) -> Result<(), Failure>
    ensures whole_else_failure_left_free { LoopEnded (R.remaining input.old) (R.remaining input.new)
        (W.contents output.old) (W.contents output.new) result }
{
    let mut session = Session::<D>::new();
    let mut piece = [0; PIECE_BYTES];
    for _ in 0..u64::MAX {
        match input.read(&mut piece) {
            Ok(0) => return write_end(&mut session, output),
            Ok(count) => {
                answer_piece(&mut session, &piece[..count], output)?;
                if session.has_stopped() {
                    return Ok(());
                }
            }
            Err(error) if error.kind() == ErrorKind::Interrupted => {}
            Err(error) => return Err(Failure::CannotRead(error.kind())),
        }
    }
    Err(Failure::TooManyTries)
}

// Gives the bytes of a piece to the session, and writes the lines that answer them.
fn answer_piece<D: NewDevice + Drop, W: Write>(
    session: &mut Session<D>,
    piece: &[u8],
    output: &mut W,
) -> Result<(), Failure>
    ensures answered { AtItsStage D.RowDevice session.old (λ stage line.
        PieceAnswered D.RowDevice (W.contents output.old) (W.contents output.new) stage line piece.now
        result session.new) }
    ensures by_writing { NoReadFailed result }
{
    for byte in piece {
        write_line(output, session.take_byte(*byte))?;
    }
    output
        .flush()
        .map_err(|error| Failure::CannotWrite(error.kind()))
}

// Ends the session, and writes the lines that follow.
fn write_end<D: NewDevice + Drop, W: Write>(
    session: &mut Session<D>,
    output: &mut W,
) -> Result<(), Failure>
    ensures ended { AtItsStage D.RowDevice session.old (λ stage line.
        EndWritten (W.contents output.old) (W.contents output.new) stage line result) }
    ensures by_writing { NoReadFailed result }
{
    write_line(output, session.end_input())?;
    for index in 0..MOST_CLOSING_LINES {
        write_line(output, session.closing_line(index))?;
    }
    output
        .flush()
        .map_err(|error| Failure::CannotWrite(error.kind()))
}

// Writes a line, if there is one.
fn write_line<W: Write>(output: &mut W, line: Option<PrintedLine>) -> Result<(), Failure>
    ensures written { BytesWritten (W.contents output.old) (W.contents output.new) (printed line) result }
    ensures by_writing { NoReadFailed result }
{
    match line {
        Some(line) => write_bytes(output, line.as_str().as_bytes()),
        None => Ok(()),
    }
}

// Writes the bytes, however few the writer takes at a time.
fn write_bytes<W: Write>(output: &mut W, bytes: &[u8]) -> Result<(), Failure>
    ensures written { BytesWritten (W.contents output.old) (W.contents output.new) bytes.now result }
    ensures by_writing { NoReadFailed result }
{
    let mut count = 0;
    for _ in 0..u64::MAX {
        if count >= bytes.len() {
            return Ok(());
        }
        match output.write(&bytes[count..]) {
            Ok(0) => return Err(Failure::CannotWrite(ErrorKind::WriteZero)),
            Ok(more) => count += more,
            Err(error) if error.kind() == ErrorKind::Interrupted => {}
            Err(error) => return Err(Failure::CannotWrite(error.kind())),
        }
    }
    Err(Failure::TooManyTries)
}
