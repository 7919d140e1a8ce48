// The lines that the console prints.
ghost use Rattle.std.specs.Prelude.{◌≡◌, ◌≤◌, ◌++◌, length, codes};
ghost use Rattle.covers.specs.Words.{symbols};
ghost use Rattle.rows.specs.Widths.{places_of};
ghost use Rattle.lines.specs.Printed.{reply_bytes, row_bytes};

use super::reply::Reply;
use arrayvec::ArrayString;
use rows::refusal::Refusal;
use rows::row::Row;
use rows::width::{MOST_PLACES, Width};

/// The bytes of the longest printed line: a row of 32 symbols and the newline.
pub const MOST_PRINTED_BYTES: usize = MOST_PLACES + 1;

/// A printed line, its newline included, in fixed room.
pub type PrintedLine = ArrayString<MOST_PRINTED_BYTES>;

/// The line of a reply or of a refusal, its newline included.
pub fn reply_line(reply: Result<Reply, Refusal>) -> PrintedLine
    ensures bytes { result.bytes ≡ reply_bytes reply }
{
    match reply {
        Ok(reply) => line_of(reply.text().as_str()),
        Err(refusal) => line_of(refusal.text().as_str()),
    }
}

/// The line of a row: its symbols at the places of the width, the first place first, and a newline.
pub fn row_line(width: Width, row: Row) -> PrintedLine
    ensures bytes { result.bytes ≡ row_bytes (symbols (places_of width) row.value row.care) }
{
    line_of(row.text(width).as_str())
}

// The text and a newline.
fn line_of(text: &str) -> PrintedLine
    requires short { length text.now ≤ 32 }
    ensures bytes { result.bytes ≡ text.now ++ codes "\n" }
{
    let mut line = PrintedLine::new();
    line.push_str(text);
    line.push('\n');
    line
}
