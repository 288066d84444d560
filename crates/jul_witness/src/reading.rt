//! The reading of a whole witness file.
ghost use Rattle.std.specs.Prelude.{◌≡◌, ◌<◌, ℕ, length, IfOk, IfErr, OnOk, Ok, Err};
ghost use Rattle.jul_text.specs.Tokens.{tokens};
ghost use Rattle.jul_witness.specs.Lawful.{IsLawful, IsLawfulWitness};
ghost use Rattle.jul_witness.specs.Roles.{said_vertices, front};
ghost use Rattle.jul_witness.specs.Reading.{columns_said, witness_of, read_tokens, reads_witness, Gives, Fails};
ghost use Rattle.jul_witness.specs.Scanning.{IsClean};

use crate::columns::{read_pairs, read_triples};
use crate::faults::{WitnessError, WitnessFault, WitnessKind};
use crate::forms::{Form, Heading};
use crate::heads::{read_heading, read_places, read_sources, read_vertices};
use crate::scanning::Place;
use crate::witnesses::{Columns, Witness};
use jul_base::{Cores, Cover, Distances};
use std::alloc::Global;

/// Reads the witness of a file, of either version, or tells the first fault.
///
/// A file longer than `limit` bytes has the fault `TooLong`, whatever else it has. Otherwise the
/// first token that has a fault decides, and where none has one and tokens are missing, the fault is
/// `Truncated`. Takes memory for the sources and the columns alone, and no more than the bytes can fill;
/// the error `Memory` says nothing of the file.
pub fn read_witness(alloc: Global, bytes: &[u8], limit: u64) -> Result<Witness, WitnessError>
    ensures exact { Gives result (reads_witness bytes.now limit) }
    ensures lawful { IfOk result IsLawfulWitness }
{
    if bytes.len() as u64 > limit {
        return Err(WitnessError::Bad(WitnessFault {
            kind: WitnessKind::TooLong,
            token: 0,
            at: limit,
        }));
    }
    let (heading, place) = read_heading(bytes)?;
    let (n, place) = read_vertices(bytes, place, heading)?;
    let (places, place) = read_places(bytes, place, heading)?;
    let (sources, place) = read_sources(alloc, bytes, place, heading)?;
    let columns = read_columns(alloc, bytes, place, heading, n)?;
    Ok(Witness {
        places,
        sources,
        columns,
    })
}

// The columns of n vertices, behind the head and up to the end.
fn read_columns(
    alloc: Global,
    bytes: &[u8],
    place: Place,
    heading: Heading,
    n: u64,
) -> Result<Columns, WitnessError>
    requires clean { IsClean heading bytes.now place.at place.token }
    requires start { place.token ≡ front heading (tokens bytes.now) }
    requires n { said_vertices (tokens bytes.now) ≡ n }

    ensures value { IfOk result (λ c. c ≡ columns_said heading (tokens bytes.now)) }
    ensures whole { OnOk result (read_tokens (tokens bytes.now) (length bytes.now)
        ≡ Ok (witness_of heading (tokens bytes.now))) }
    ensures lawful { IfOk result IsLawful }

    ensures err { IfErr result (λ e. Fails e (read_tokens (tokens bytes.now) (length bytes.now))) }
{
    match heading.form {
        Form::Cores => {
            let (core, level) = read_pairs(alloc, bytes, place, heading, n)?;
            Ok(Columns::Cores(Cores { core, level }))
        }
        Form::Distances => {
            let (dist, hops, parent) = read_triples(alloc, bytes, place, heading, n)?;
            Ok(Columns::Distances(Distances { dist, hops, parent }))
        }
        Form::Cover => {
            let (round, by) = read_pairs(alloc, bytes, place, heading, n)?;
            Ok(Columns::Cover(Cover { round, by }))
        }
    }
}
