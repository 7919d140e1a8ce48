// A line that is still coming in.
ghost use Rattle.std.specs.Prelude.{◌≡◌, ℕ, ◌≤◌, List, [], ◌∷◌, ◌++◌, length, ◌==◌, Some};
ghost use Rattle.std.specs.Option.{ForSome, option_map};

// A line of more bytes is refused.
pub const MOST_LINE_BYTES: usize = 64;

// The bytes since the last newline, or, once they are over 64, that they are too many: it never grows.
// An `ArrayVec` for the bytes would not be `Copy`.
#[derive(Clone, Copy)]
pub struct LineBuffer {
    bytes: [u8; MOST_LINE_BYTES],
    // none once the line is too long
    len: Option<usize>,
    ghost room: { length bytes ≡ 64 },
    ghost bound: { ForSome len (λ n. n ≤ 64) },
}

impl LineBuffer {
    ghost use Rattle.lines.specs.Buffers.{buffered, kept};

    pub fn new() -> LineBuffer
        ensures empty { buffered result ≡ Some [] }
    {
        LineBuffer {
            bytes: [0; MOST_LINE_BYTES],
            len: Some(0),
        }
    }

    // One byte more at the line's end.
    pub fn push(&mut self, byte: u8)
        ensures after { (line : List ℕ) → buffered self.old ≡ kept line → buffered self.new ≡ kept (line ++ (byte ∷ [])) }
    {
        self.len = match self.len {
            Some(len) if len < MOST_LINE_BYTES => {
                self.bytes[len] = byte;
                Some(len + 1)
            }
            _ => None,
        };
    }

    // The line so far, or nothing if it is too long.
    pub fn line(&self) -> Option<&[u8]>
        ensures content { option_map (λ x. x.now) result ≡ buffered self.now }
    {
        self.len.map(|len| &self.bytes[..len])
    }

    // Begins a new line.
    pub fn clear(&mut self)
        ensures empty { buffered self.new ≡ Some [] }
    {
        self.len = Some(0);
    }

    pub fn is_empty(&self) -> bool
        ensures value { (line : List ℕ) → buffered self.now ≡ kept line → result ≡ (length line == 0) }
    {
        self.len == Some(0)
    }
}
