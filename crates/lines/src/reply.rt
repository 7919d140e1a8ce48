// What the console replies to a line that it does not refuse.
ghost use Rattle.std.specs.Prelude.{◌≡◌, Some};
ghost use Rattle.lines.specs.Printed.{reply_text};

use arrayvec::ArrayString;
use itoa::Buffer;
use std::fmt;

#[derive(Clone, Copy, PartialEq, Eq, Debug)]
pub enum Reply {
    // an edit was made, and the held numbers have so many rows
    Rows(usize),
    // the answer to a question
    Says(bool),
}

/// A reply as it is written, in fixed room: "ok " and at most 20 digits, "yes" or "no".
pub type ReplyText = ArrayString<23>;

impl Reply {
    /// The reply as it is written: "ok" and the number of rows, "yes" or "no".
    pub fn text(self) -> ReplyText
        ensures bytes { result.bytes ≡ reply_text self }
    {
        let mut text = ReplyText::new();
        match self {
            Reply::Rows(count) => {
                text.push_str("ok ");
                text.push_str(Buffer::new().format(count));
            }
            Reply::Says(true) => text.push_str("yes"),
            Reply::Says(false) => text.push_str("no"),
        }
        text
    }
}

// The reply's text.
impl fmt::Display for Reply {
    ghost output = { λ reply. Some (reply_text reply) };

    fn fmt<W: fmt::Write>(&self, f: &mut fmt::Formatter<W>) -> fmt::Result {
        f.write_str(self.text().as_str())
    }
}
