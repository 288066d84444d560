//! What a witness file holds.
ghost use Rattle.std.specs.Prelude.{◌≡◌, ◌≤◌, Ok, OnOk, OnErr};
ghost use Rattle.jul_base.specs.declared.limits.TheConstants.{MAX_M, MAX_BYTES};
ghost use Rattle.jul_base.specs.Sinks.{Appended, FailedWriting};
ghost use Rattle.jul_base.specs.Sources.{AreNamedSources};
ghost use Rattle.jul_witness.specs.Lawful.{IsLawful};
ghost use Rattle.jul_witness.specs.Reading.{reads_witness};

use crate::laws::{fit_32_bits, has_64_bits};
use crate::texts::{write_cores, write_cover, write_distances};
use jul_base::{Cores, Cover, Distances, Failed, Ids, Sink};

/// A result, by its columns.
#[derive(Drop)]
pub enum Columns {
    /// Cores and levels.
    Cores(Cores),
    /// Distances, hops and parents.
    Distances(Distances),
    /// Rounds of sets, and the set of each element.
    Cover(Cover),
}

/// A result that was read from a text, and what the text says of its graph.
#[derive(Drop)]
pub struct Witness {
    /// The number of places of the graph. None exactly in version 1.
    pub places: Option<u32>,
    /// The sources that distances are from, in increasing order. There exactly for distances of version 2.
    pub sources: Option<Ids>,
    /// The columns.
    pub columns: Columns,
}

impl Columns {
    ghost use Rattle.jul_witness.specs.Texts.{columns_text, witness_of_columns};

    /// Writes the text of the result in a graph of `m` places, of distances with their sources. After `Failed` a
    /// part of it was appended that isn't the whole. Takes no memory.
    pub fn write<S: Sink>(&self, sink: &mut S, m: u32, sources: &[u32]) -> Result<(), Failed>
        requires few { m ≤ MAX_M }
        requires sources { AreNamedSources sources.now }
        requires lawful { IsLawful self.now }

        ensures ok { OnOk result (Appended (S.state sink.old) (S.state sink.new)
            (columns_text m sources.now self.now)) }
        ensures err { OnErr result (FailedWriting (S.state sink.old) (S.state sink.new)
            (columns_text m sources.now self.now)) }
    {
        match self {
            Columns::Cores(c) => write_cores(sink, m, c),
            Columns::Distances(d) => write_distances(sink, m, sources, d),
            Columns::Cover(c) => write_cover(sink, m, c),
        }
    }

    /// A law, which the contract carries: the text of the result is read back as version 2 with these numbers. Does
    /// nothing when it runs.
    pub fn is_read_back(&self, m: u32, sources: &[u32])
        requires few { m ≤ MAX_M }
        requires sources { AreNamedSources sources.now }
        requires lawful { IsLawful self.now }

        ensures { reads_witness (columns_text m sources.now self.now) MAX_BYTES
            ≡ Ok (witness_of_columns m sources.now self.now) }
    {
        match self {
            Columns::Cores(c) => {
                has_64_bits(&c.core);
                has_64_bits(&c.level);
            }
            Columns::Distances(d) => {
                fit_32_bits(sources);
                has_64_bits(&d.dist);
                has_64_bits(&d.hops);
                has_64_bits(&d.parent);
            }
            Columns::Cover(c) => {
                has_64_bits(&c.round);
                has_64_bits(&c.by);
            }
        }
    }
}
