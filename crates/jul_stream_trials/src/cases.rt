//! The cases of an input: graph files, each with the most bytes that it may have.
//!
//! An input begins with the number of cases. A case is the most bytes that its file may have, how many bytes the file
//! has, a white byte and the file. Numbers are decimal, at most `MAX_BYTES`, and stand between white bytes.
ghost use Rattle.std.specs.Prelude.{◌≡◌, ◌≤◌, length, All, Err, IfOk, Some, None, IfSome};
ghost use Rattle.jul_base.specs.declared.limits.TheConstants.{MAX_BYTES};
ghost use Rattle.jul_stream_trials.specs.declared.errors.TrialError.TheVariants.{Malformed};
ghost use Rattle.jul_stream_trials.specs.Cases.{number_from, case_at, case_from, cases_of, IsWithin};

use crate::errors::TrialError;
use jul_base::MAX_BYTES;
use jul_text::{Numeral, next_token, read_number};
use std::alloc::Global;

/// A number of the input, and the place behind it.
#[derive(Clone, Copy)]
struct Number {
    value: u64,
    end: usize,
}

/// A graph file among the bytes of the input.
#[derive(Clone, Copy)]
pub struct Case {
    /// The most bytes that the file may have.
    pub limit: u64,
    /// The place of its first byte.
    pub start: usize,
    /// The place behind its last byte.
    pub end: usize,
}

// The number that is the next token.
fn next_number(input: &[u8], at: usize) -> Option<Number>
    requires { at ≤ length input.now }

    ensures number { result ≡ number_from input.now at }
    ensures value { IfSome result (λ n. n.value ≤ MAX_BYTES) }
    ensures within { IfSome result (λ n. n.end ≤ length input.now) }
{
    let token = next_token(input, at)?;
    match read_number(&input[token.start..token.end], MAX_BYTES) {
        Numeral::Value(value) => Some(Number {
            value,
            end: token.end,
        }),
        _ => None,
    }
}

// The case whose file has so many bytes from a place on.
fn case_of(input: &[u8], limit: u64, start: usize, size: usize) -> Option<Case>
    ensures { result ≡ case_at input.now limit start size }
{
    if start > input.len() || size > input.len() - start {
        return None;
    }
    Some(Case {
        limit,
        start,
        end: start + size,
    })
}

// The case that begins with the next token.
fn next_case(input: &[u8], at: usize) -> Option<Case>
    requires { at ≤ length input.now }

    ensures case { result ≡ case_from input.now at }
    ensures within { IfSome result (IsWithin input.now) }
{
    let limit = next_number(input, at)?;
    let size = next_number(input, limit.end)?;
    case_of(input, limit.value, size.end + 1, size.value as usize)
}

/// The cases of an input, in order. `Malformed` says that it isn't a list of cases.
pub fn read_cases(alloc: Global, input: &[u8]) -> Result<Vec<Case>, TrialError>
    ensures cases { IfOk result (λ cases. cases_of input.now ≡ Some cases.items) }
    ensures within { IfOk result (λ cases. All (IsWithin input.now) cases.items) }
    ensures malformed { result ≡ Err Malformed → cases_of input.now ≡ None }
{
    let count = next_number(input, 0).ok_or(TrialError::Malformed)?;
    let mut cases = Vec::new(alloc);
    let mut at = count.end;
    for _ in 0..count.value {
        let Some(case) = next_case(input, at) else {
            return Err(TrialError::Malformed);
        };
        at = case.end;
        cases.push(case)?;
    }
    if next_token(input, at).is_some() {
        return Err(TrialError::Malformed);
    }
    Ok(cases)
}
