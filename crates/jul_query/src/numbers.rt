//! The numbers of the options.
ghost use Rattle.std.specs.Prelude.{◌≡◌, ◌≤◌, IfSome};
ghost use Rattle.jul_query.specs.CommandLines.{text_of};
ghost use Rattle.jul_query.specs.Numbers.{number_in, number, number_or};
ghost use Rattle.jul_query.specs.Ranges.{IsWithin};

use jul_text::{Numeral, read_number};

fn wide_number_in(text: &str, low: u64, high: u64) -> Option<u64>
    ensures value { result ≡ number_in low high text.now }
    ensures within { IfSome result (IsWithin low high) }
{
    match read_number(text.as_bytes(), high) {
        Numeral::Value(value) if low <= value => Some(value),
        _ => None,
    }
}

/// The text as a number from `low` to `high`.
pub fn number_in(text: &str, low: u32, high: u32) -> Option<u32>
    ensures value { result ≡ number_in low high text.now }
    ensures within { IfSome result (IsWithin low high) }
{
    let value = wide_number_in(text, u64::from(low), u64::from(high))?;
    Some(value as u32)
}

/// The number of an option that has to be given.
pub fn number(text: Option<&str>, low: u32, high: u32) -> Option<u32>
    ensures value { result ≡ number low high (text_of text.entry) }
    ensures within { IfSome result (IsWithin low high) }
{
    number_in(text?, low, high)
}

/// The number of an option that has to be given, up to 64 bits wide.
pub fn wide_number(text: Option<&str>, low: u64, high: u64) -> Option<u64>
    ensures { result ≡ number low high (text_of text.entry) }
{
    wide_number_in(text?, low, high)
}

/// The number of an option that may be left out.
pub fn number_or(text: Option<&str>, default: u32, low: u32, high: u32) -> Option<u32>
    requires { IsWithin low high default }

    ensures value { result ≡ number_or default low high (text_of text.entry) }
    ensures within { IfSome result (IsWithin low high) }
{
    match text {
        Some(text) => number_in(text, low, high),
        None => Some(default),
    }
}
