// One digit of a number.
ghost use Rattle.std.specs.Prelude.{◌≡◌};
ghost use Rattle.covers.specs.Digits.{digit};

// Whether the number has a 1 at the place; the last place is place 0.
pub fn has_one(number: u64, place: u32) -> bool
    ensures value { result ≡ digit place number }
{
    place < 64 && (number >> place) & 1 == 1
}
