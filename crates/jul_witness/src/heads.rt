//! What stands before the columns of a witness file: the word, the sizes, and the sources.
ghost use Rattle.std.specs.Prelude.{◌≡◌, ◌≤◌, ◌<◌, length, true, IfOk, IfErr, IfSome, Err};
ghost use Rattle.jul_base.specs.declared.limits.TheConstants.{MAX_N, MAX_M, MAX_SOURCES};
ghost use Rattle.jul_base.specs.Sources.{AreNamedSources};
ghost use Rattle.std.specs.List.Sorted.{IsStrictlyIncreasing};
ghost use Rattle.jul_text.specs.Tokens.{tokens};
ghost use Rattle.jul_witness.specs.Forms.{has_sources};
ghost use Rattle.jul_witness.specs.Roles.{said_vertices, said_count, said_sources, sizes_end, front};
ghost use Rattle.jul_witness.specs.Reading.{places_said, sources_said, read_tokens, Fails};
ghost use Rattle.jul_witness.specs.Scanning.{IsClean};

use crate::columns::room;
use crate::faults::{WitnessError, WitnessFault, WitnessKind};
use crate::forms::{Heading, heading_by_word, names_sources, says_places};
use crate::rules::{source, source_count, up_to};
use crate::scanning::{Place, fault, next_value};
use jul_base::{Ids, MAX_M, MAX_N};
use jul_text::next_token;
use std::alloc::Global;

/// What the word in front says, and the place behind it.
pub(crate) fn read_heading(bytes: &[u8]) -> Result<(Heading, Place), WitnessFault>
    ensures next { IfOk result (λ r. IsClean r.0 bytes.now r.1.at r.1.token) }
    ensures token { IfOk result (λ r. r.1.token ≡ 1) }

    ensures err { IfErr result (λ f. read_tokens (tokens bytes.now) (length bytes.now) ≡ Err f) }
{
    let Some(token) = next_token(bytes, 0) else {
        return Err(fault(WitnessKind::Truncated, 0, bytes.len()));
    };
    let Some(heading) = heading_by_word(&bytes[token.start..token.end]) else {
        return Err(fault(WitnessKind::Header, 0, token.start));
    };
    let place = Place {
        at: token.end,
        token: 1,
    };
    Ok((heading, place))
}

/// The number of vertices.
pub(crate) fn read_vertices(
    bytes: &[u8],
    place: Place,
    heading: Heading,
) -> Result<(u64, Place), WitnessFault>
    requires clean { IsClean heading bytes.now place.at place.token }
    requires start { place.token ≡ 1 }

    ensures value { IfOk result (λ r. said_vertices (tokens bytes.now) ≡ r.0) }
    ensures next { IfOk result (λ r. IsClean heading bytes.now r.1.at r.1.token) }
    ensures token { IfOk result (λ r. r.1.token ≡ 2) }

    ensures err { IfErr result (λ f. read_tokens (tokens bytes.now) (length bytes.now) ≡ Err f) }
{
    next_value(bytes, place, heading, up_to(MAX_N as u64))
}

/// The number of places, where the text says it.
pub(crate) fn read_places(
    bytes: &[u8],
    place: Place,
    heading: Heading,
) -> Result<(Option<u32>, Place), WitnessFault>
    requires clean { IsClean heading bytes.now place.at place.token }
    requires start { place.token ≡ 2 }

    ensures value { IfOk result (λ r. r.0 ≡ places_said heading (tokens bytes.now)) }
    ensures few { IfOk result (λ r. IfSome r.0 (λ m. m ≤ MAX_M)) }
    ensures next { IfOk result (λ r. IsClean heading bytes.now r.1.at r.1.token) }
    ensures token { IfOk result (λ r. r.1.token ≡ sizes_end heading) }

    ensures err { IfErr result (λ f. read_tokens (tokens bytes.now) (length bytes.now) ≡ Err f) }
{
    if !says_places(heading.version) {
        return Ok((None, place));
    }
    let (places, place) = next_value(bytes, place, heading, up_to(MAX_M as u64))?;
    Ok((Some(places as u32), place))
}

/// The sources, where the text names them.
pub(crate) fn read_sources(
    alloc: Global,
    bytes: &[u8],
    place: Place,
    heading: Heading,
) -> Result<(Option<Ids>, Place), WitnessError>
    requires clean { IsClean heading bytes.now place.at place.token }
    requires start { place.token ≡ sizes_end heading }

    ensures value { IfOk result (λ r. r.0 ≡ sources_said heading (tokens bytes.now)) }
    ensures named { IfOk result (λ r. IfSome r.0 AreNamedSources) }
    ensures next { IfOk result (λ r. IsClean heading bytes.now r.1.at r.1.token) }
    ensures token { IfOk result (λ r. r.1.token ≡ front heading (tokens bytes.now)) }

    ensures err { IfErr result (λ e. Fails e (read_tokens (tokens bytes.now) (length bytes.now))) }
{
    if !names_sources(heading) {
        return Ok((None, place));
    }
    let (count, place) = read_count(bytes, place, heading)?;
    let (sources, place) = read_increasing(alloc, bytes, place, heading, count)?;
    Ok((Some(Ids::from_vec(sources)), place))
}

// The number of sources.
fn read_count(bytes: &[u8], place: Place, heading: Heading) -> Result<(u64, Place), WitnessFault>
    requires clean { IsClean heading bytes.now place.at place.token }
    requires start { place.token ≡ sizes_end heading }
    requires named { has_sources heading ≡ true }

    ensures value { IfOk result (λ r. said_count (tokens bytes.now) ≡ r.0) }
    ensures some { IfOk result (λ r. 1 ≤ r.0) }
    ensures few { IfOk result (λ r. r.0 ≤ MAX_SOURCES) }
    ensures next { IfOk result (λ r. IsClean heading bytes.now r.1.at r.1.token) }
    ensures token { IfOk result (λ r. r.1.token ≡ 4) }

    ensures err { IfErr result (λ f. read_tokens (tokens bytes.now) (length bytes.now) ≡ Err f) }
{
    next_value(bytes, place, heading, source_count())
}

// So many sources, each greater than the one before it.
fn read_increasing(
    alloc: Global,
    bytes: &[u8],
    mut place: Place,
    heading: Heading,
    count: u64,
) -> Result<(Vec<u32>, Place), WitnessError>
    requires clean { IsClean heading bytes.now place.at place.token }
    requires start { place.token ≡ 4 }
    requires named { has_sources heading ≡ true }
    requires count { said_count (tokens bytes.now) ≡ count }

    ensures sources { IfOk result (λ r. r.0.items ≡ said_sources (tokens bytes.now)) }
    ensures increasing { IfOk result (λ r. IsStrictlyIncreasing r.0.items) }
    ensures next { IfOk result (λ r. IsClean heading bytes.now r.1.at r.1.token) }
    ensures token { IfOk result (λ r. r.1.token ≡ front heading (tokens bytes.now)) }

    ensures err { IfErr result (λ e. Fails e (read_tokens (tokens bytes.now) (length bytes.now))) }
{
    let room = room(bytes, place, count, 1);
    let mut sources = Vec::with_capacity(alloc, room)?;
    let mut least = 0;
    for _ in 0..count {
        let (value, next) = next_value(bytes, place, heading, source(least))?;
        sources.push(value as u32)?;
        least = value + 1;
        place = next;
    }
    Ok((sources, place))
}
