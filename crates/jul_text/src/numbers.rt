//! Texts that are numbers and nothing else.
ghost use Rattle.std.specs.Prelude.{◌≡◌, ℕ, ◌+◌, ◌-◌, ◌%◌, ◌<◌, ◌≤◌, ◌^◌, length, drop, slice_range, IfOk, IfSome, IsTrue};
ghost use Rattle.std.specs.List.{prefix_len};
ghost use Rattle.std.specs.Char.{is_ascii_digit};
ghost use Rattle.std.specs.Str.Parse.{digits_value};
ghost use Rattle.jul_text.specs.declared.shapes.Shape.TheVariants.{Digits};
ghost use Rattle.jul_text.specs.Tokens.{IsNextToken};
ghost use Rattle.jul_text.specs.Cuts.{EndsWhite};
ghost use Rattle.jul_text.specs.Shapes.{shape};
ghost use Rattle.jul_text.specs.Numbers.{AreNumbers};

use crate::tokens::is_white_byte;
use std::alloc::AllocError;

// Where the digits from a place on end, and the number that they write, wrapped to 64 bits. The text ends in a white byte,
// so no test is needed for its end.
//
// They are read one by one: numbers of a file are short and mostly as long as the one before, so a processor sees their
// ends coming. Eight at a time it waits for each end before it can begin with the next number.
#[inline(always)]
fn closed_digits(bytes: &[u8], start: usize) -> (usize, u64)
    requires there { start < length bytes.now }
    requires white { EndsWhite bytes.now }

    ensures end { result.0 ≡ start + prefix_len is_ascii_digit (drop start bytes.now) }
    ensures within { result.0 < length bytes.now }
    ensures value { result.1 ≡ digits_value 10 (slice_range bytes.now start result.0) % 2 ^ 64 }
{
    let mut at = start;
    let mut value: u64 = 0;
    while bytes[at].is_ascii_digit() {
        value = value
            .wrapping_mul(10)
            .wrapping_add(u64::from(bytes[at] - b'0'));
        at += 1;
    }
    (at, value)
}

// The end and the value of a token of up to 19 digits with a white byte behind it, in a text that ends in a white byte.
#[inline(always)]
fn closed_number(bytes: &[u8], start: usize) -> Option<(usize, u64)>
    requires there { start < length bytes.now }
    requires white { EndsWhite bytes.now }

    ensures token { IfSome result (λ r. IsNextToken bytes.now start (record { start = start; end = r.0 })) }
    ensures there { IfSome result (λ r. r.0 < length bytes.now) }
    ensures shape { IfSome result (λ r. Digits r.1 ≡ shape (slice_range bytes.now start r.0)) }
{
    let (end, value) = closed_digits(bytes, start);
    if start < end && end - start <= 19 && is_white_byte(bytes[end]) {
        return Some((end, value));
    }
    None
}

// Whether a text is empty or ends in a white byte.
fn ends_white(bytes: &[u8]) -> bool
    ensures { IsTrue result → EndsWhite bytes.now }
{
    bytes.is_empty() || is_white_byte(bytes[bytes.len() - 1])
}

/// Makes the list the values of the tokens of a text, in order, if each is a number up to a bound and has at most 19
/// digits and a white byte behind it. The answer tells whether they all are. If it is false, the list has some of the
/// values. Takes memory for the list alone.
#[inline(never)]
pub fn read_numbers(bytes: &[u8], bound: u32, values: &mut Vec<u32>) -> Result<bool, AllocError>
    ensures { IfOk result (λ all. IsTrue all → AreNumbers bytes.now bound values.new.items) }
{
    let mut at = 0;
    values.clear();
    if !ends_white(bytes) {
        return Ok(false);
    }
    while at < bytes.len() {
        match closed_number(bytes, at) {
            Some((end, value)) if value <= u64::from(bound) => {
                values.push(value as u32)?;
                at = end + 1;
            }
            None if is_white_byte(bytes[at]) => at += 1,
            _ => return Ok(false),
        }
    }
    Ok(true)
}
