//! The columns of a witness file.
ghost use Rattle.std.specs.Prelude.{◌≡◌, ◌+◌, ◌*◌, ◌<◌, ◌≤◌, ◌^◌, length, Some, IfOk, IfErr, OnOk, Ok, Err};
ghost use Rattle.jul_text.specs.Tokens.{tokens};
ghost use Rattle.jul_text.specs.Scanning.{text_at};
ghost use Rattle.jul_witness.specs.Forms.{columns_of};
ghost use Rattle.jul_witness.specs.Roles.{front, all_tokens};
ghost use Rattle.jul_witness.specs.Reading.{entry_of, column_of, witness_of, read_tokens, Fails};
ghost use Rattle.jul_witness.specs.Scanning.{IsClean};

use crate::faults::{WitnessError, WitnessFault};
use crate::forms::Heading;
use crate::scanning::{Place, expect_end, next_entry};
use jul_base::Column;
use std::alloc::Global;

/// For how many of `n` rows with `width` numbers each to take room: a short file may ask for many more than
/// it has.
#[inline]
pub(crate) fn room(bytes: &[u8], place: Place, n: u64, width: usize) -> usize
    requires { 0 < width }

    ensures { result ≤ n }
{
    // Each number but the last takes a digit and a white byte.
    let most = bytes.len().saturating_sub(place.at) / 2 / width + 1;
    most.min(n as usize)
}

// The next two numbers.
#[inline]
fn next_pair(
    bytes: &[u8],
    place: Place,
    heading: Heading,
) -> Result<((u64, u64), Place), WitnessFault>
    requires clean { IsClean heading bytes.now place.at place.token }
    requires behind { front heading (tokens bytes.now) ≤ place.token }
    requires asked { place.token + 1 < all_tokens heading (tokens bytes.now) }

    ensures first { IfOk result (λ r.
        entry_of heading.form (text_at (tokens bytes.now) place.token) ≡ Some r.0.0) }
    ensures second { IfOk result (λ r.
        entry_of heading.form (text_at (tokens bytes.now) (place.token + 1)) ≡ Some r.0.1) }
    ensures next { IfOk result (λ r. IsClean heading bytes.now r.1.at r.1.token) }
    ensures token { IfOk result (λ r. r.1.token ≡ place.token + 2) }

    ensures err { IfErr result (λ f. read_tokens (tokens bytes.now) (length bytes.now) ≡ Err f) }
{
    let (first, place) = next_entry(bytes, place, heading)?;
    let (second, place) = next_entry(bytes, place, heading)?;
    Ok(((first, second), place))
}

/// Two columns of n numbers each, and nothing behind them.
pub(crate) fn read_pairs(
    alloc: Global,
    bytes: &[u8],
    mut place: Place,
    heading: Heading,
    n: u64,
) -> Result<(Column, Column), WitnessError>
    requires clean { IsClean heading bytes.now place.at place.token }
    requires start { place.token ≡ front heading (tokens bytes.now) }
    requires columns { columns_of heading.form ≡ 2 }
    requires asked { all_tokens heading (tokens bytes.now) ≡ place.token + 2 * n }

    ensures first { IfOk result (λ r. r.0 ≡ column_of heading (tokens bytes.now) n 0) }
    ensures second { IfOk result (λ r. r.1 ≡ column_of heading (tokens bytes.now) n 1) }
    ensures whole { OnOk result (read_tokens (tokens bytes.now) (length bytes.now)
        ≡ Ok (witness_of heading (tokens bytes.now))) }

    ensures err { IfErr result (λ e. Fails e (read_tokens (tokens bytes.now) (length bytes.now))) }
{
    let room = room(bytes, place, n, 2);
    let mut firsts = Vec::with_capacity(alloc, room)?;
    let mut seconds = Vec::with_capacity(alloc, room)?;
    for _ in 0..n {
        let ((first, second), next) = next_pair(bytes, place, heading)?;
        firsts.push(first)?;
        seconds.push(second)?;
        place = next;
    }
    expect_end(bytes, place, heading)?;
    Ok((Column::from_vec(firsts), Column::from_vec(seconds)))
}

// The next three numbers.
#[inline]
fn next_triple(
    bytes: &[u8],
    place: Place,
    heading: Heading,
) -> Result<((u64, u64, u64), Place), WitnessFault>
    requires clean { IsClean heading bytes.now place.at place.token }
    requires behind { front heading (tokens bytes.now) ≤ place.token }
    requires asked { place.token + 2 < all_tokens heading (tokens bytes.now) }

    ensures first { IfOk result (λ r.
        entry_of heading.form (text_at (tokens bytes.now) place.token) ≡ Some r.0.0) }
    ensures second { IfOk result (λ r.
        entry_of heading.form (text_at (tokens bytes.now) (place.token + 1)) ≡ Some r.0.1) }
    ensures third { IfOk result (λ r.
        entry_of heading.form (text_at (tokens bytes.now) (place.token + 2)) ≡ Some r.0.2) }
    ensures next { IfOk result (λ r. IsClean heading bytes.now r.1.at r.1.token) }
    ensures token { IfOk result (λ r. r.1.token ≡ place.token + 3) }

    ensures err { IfErr result (λ f. read_tokens (tokens bytes.now) (length bytes.now) ≡ Err f) }
{
    let (first, place) = next_entry(bytes, place, heading)?;
    let (second, place) = next_entry(bytes, place, heading)?;
    let (third, place) = next_entry(bytes, place, heading)?;
    Ok(((first, second, third), place))
}

/// Three columns of n numbers each, and nothing behind them.
pub(crate) fn read_triples(
    alloc: Global,
    bytes: &[u8],
    mut place: Place,
    heading: Heading,
    n: u64,
) -> Result<(Column, Column, Column), WitnessError>
    requires clean { IsClean heading bytes.now place.at place.token }
    requires start { place.token ≡ front heading (tokens bytes.now) }
    requires columns { columns_of heading.form ≡ 3 }
    requires asked { all_tokens heading (tokens bytes.now) ≡ place.token + 3 * n }

    ensures first { IfOk result (λ r. r.0 ≡ column_of heading (tokens bytes.now) n 0) }
    ensures second { IfOk result (λ r. r.1 ≡ column_of heading (tokens bytes.now) n 1) }
    ensures third { IfOk result (λ r. r.2 ≡ column_of heading (tokens bytes.now) n 2) }
    ensures whole { OnOk result (read_tokens (tokens bytes.now) (length bytes.now)
        ≡ Ok (witness_of heading (tokens bytes.now))) }

    ensures err { IfErr result (λ e. Fails e (read_tokens (tokens bytes.now) (length bytes.now))) }
{
    let room = room(bytes, place, n, 3);
    let mut firsts = Vec::with_capacity(alloc, room)?;
    let mut seconds = Vec::with_capacity(alloc, room)?;
    let mut thirds = Vec::with_capacity(alloc, room)?;
    for _ in 0..n {
        let ((first, second, third), next) = next_triple(bytes, place, heading)?;
        firsts.push(first)?;
        seconds.push(second)?;
        thirds.push(third)?;
        place = next;
    }
    expect_end(bytes, place, heading)?;
    Ok((
        Column::from_vec(firsts),
        Column::from_vec(seconds),
        Column::from_vec(thirds),
    ))
}
