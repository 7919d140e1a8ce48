// Numbers as they are written in a line.
ghost use Rattle.std.specs.Prelude.{◌≡◌, ℕ, ◌<◌, length, IfSome, Ok, MatchOption, MatchResult, ◌≢◌, slice_index};
ghost use Rattle.rows.specs.declared.range.Range.{Range};
ghost use Rattle.rows.specs.declared.refusal.Refusal.TheVariants.{MalformedLine};
ghost use Rattle.lines.specs.Numbers.{Written, WrittenPair};

use rows::range::Range;
use rows::refusal::Refusal;

// A number has at most so many digits.
const MOST_DIGITS: usize = 10;

// The number that one to ten decimal digits write.
pub(super) fn one_number(text: &[u8]) -> Result<u64, Refusal>
    ensures accepted { (x : ℕ) → Written text.now x → result ≡ Ok x }
    ensures only { MatchResult result (λ x. Written text.now x) (λ e. e ≡ MalformedLine) }
{
    if text.is_empty() || text.len() > MOST_DIGITS {
        return Err(Refusal::MalformedLine);
    }
    let mut number: u64 = 0;
    for byte in text {
        let digit = char::from(*byte)
            .to_digit(10)
            .ok_or(Refusal::MalformedLine)?;
        number = number * 10 + u64::from(digit);
    }
    Ok(number)
}

// Two numbers with one space between them.
pub(super) fn two_numbers(text: &[u8]) -> Result<(u64, u64), Refusal>
    ensures accepted { (x y : ℕ) → WrittenPair text.now x y → result ≡ Ok (x, y) }
    ensures only { MatchResult result (λ p. WrittenPair text.now p.0 p.1) (λ e. e ≡ MalformedLine) }
{
    let space = first_space(text).ok_or(Refusal::MalformedLine)?;
    let first = one_number(&text[..space])?;
    let second = one_number(&text[space + 1..])?;
    Ok((first, second))
}

// The place of the first space.
fn first_space(text: &[u8]) -> Option<usize>
    ensures before { MatchOption result ((k : ℕ) → k < length text.now → slice_index text.now k ≢ 32) (λ i. (k : ℕ) → k < i → slice_index text.now k ≢ 32) }
    ensures found { IfSome result (λ i. (i < length text.now) × (slice_index text.now i ≡ 32)) }
{
    text.iter().position(|byte| *byte == b' ')
}

// The first and the last number of a range, with one space between them.
pub(super) fn one_range(text: &[u8]) -> Result<Range, Refusal>
    ensures accepted { (r : Range) → WrittenPair text.now r.first r.last → result ≡ Ok r }
    ensures only { MatchResult result (λ r. WrittenPair text.now r.first r.last) (λ e. e ≡ MalformedLine) }
{
    two_numbers(text).map(|(first, last)| Range { first, last })
}
