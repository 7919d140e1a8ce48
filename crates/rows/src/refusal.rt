// The refusals of the whole project, and their numbers.
ghost use Rattle.std.specs.Prelude.{◌≡◌, Some};
ghost use Rattle.rows.specs.Refusals.{number_of, refusal_text};

use arrayvec::ArrayString;
use itoa::Buffer;
use std::fmt;

// Why a call was refused.
#[derive(Clone, Copy, PartialEq, Eq, Debug)]
pub enum Refusal {
    // a width outside 1 to 32
    WidthOutOfRange = 1,
    // a number that has more digits than the width
    NumberOutsideWidth = 2,
    // memory shorter than what is to be written
    MemoryTooShort = 3,
    // a slot at or beyond the device's slot count
    NoSuchSlot = 4,
    // a row that cares beyond the last places of the width
    RowOutsideWidth = 5,
    // a set of more than 16 runs
    TooManyRuns = 6,
    // more rows than there is room for: the slots, or 120 on a sheet
    TooManyRows = 7,
    // the filter is held
    FilterHeld = 8,
    // the filter is not held, or the token is another filter's
    NotHeld = 9,
    // a sheet that ends too early
    SheetTooShort = 10,
    // a symbol that is none of 0, 1 and dash
    UnknownSymbol = 11,
    // a filling bit that is no zero, or a byte after the last row
    SheetNotClean = 12,
    // a line that is no command
    MalformedLine = 13,
}

impl From<Refusal> for u32 {
    ghost from_gives = { λ refusal number. number ≡ number_of refusal };

    // The number by which the refusal is known outside.
    fn from(refusal: Refusal) -> u32 {
        refusal as u32
    }
}

/// A refusal as it is written, in fixed room: "refused " and at most ten digits, as any number of 32 bits has.
pub type RefusalText = ArrayString<18>;

impl Refusal {
    /// "refused" and the number, as "refused 4".
    pub fn text(self) -> RefusalText
        ensures bytes { result.bytes ≡ refusal_text self }
    {
        let mut text = RefusalText::new();
        text.push_str("refused ");
        text.push_str(Buffer::new().format(u32::from(self)));
        text
    }
}

// The refusal's text.
impl fmt::Display for Refusal {
    ghost output = { λ refusal. Some (refusal_text refusal) };

    fn fmt<W: fmt::Write>(&self, f: &mut fmt::Formatter<W>) -> fmt::Result {
        f.write_str(self.text().as_str())
    }
}
