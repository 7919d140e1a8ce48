// Why the loop over a reader and a writer ended early.
use std::fmt;
use std::io::ErrorKind;

/// What failed before all of the output was written.
#[derive(Clone, Copy, PartialEq, Eq, Debug)]
pub enum Failure {
    /// a read failed, other than by an interruption
    CannotRead(ErrorKind),
    /// a write or a flush failed, or a write took nothing
    CannotWrite(ErrorKind),
    /// the reader or the writer was asked 2^64 − 1 times and had not come to an end
    TooManyTries,
}

// A plain sentence, as "cannot write: broken pipe".
impl fmt::Display for Failure {
    fn fmt<W: fmt::Write>(&self, f: &mut fmt::Formatter<W>) -> fmt::Result {
        match self {
            Failure::CannotRead(kind) => write!(f, "cannot read: {kind}"),
            Failure::CannotWrite(kind) => write!(f, "cannot write: {kind}"),
            Failure::TooManyTries => write!(f, "gave up after too many tries"),
        }
    }
}
