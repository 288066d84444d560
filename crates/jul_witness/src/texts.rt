//! The writing of results: a word, the sizes of the graph, and for each vertex a line of numbers.
ghost use Rattle.std.specs.Prelude.{◌≡◌, ℕ, ◌<◌, ◌≤◌, [], ◌∷◌, length, OnOk, OnErr, Ok};
ghost use Rattle.jul_base.specs.declared.limits.TheConstants.{MAX_N, MAX_M, MAX_BYTES};
ghost use Rattle.jul_base.specs.Sinks.{Appended, FailedWriting};
ghost use Rattle.jul_base.specs.Sources.{AreNamedSources};
ghost use Rattle.jul_witness.specs.declared.forms.Form.TheVariants as forms;
ghost use Rattle.jul_witness.specs.declared.witnesses.Columns.TheVariants as results;
ghost use Rattle.jul_witness.specs.Lawful.{AreLawfulCores, AreLawfulDistances, IsLawfulCover};
ghost use Rattle.jul_witness.specs.Reading.{reads_witness};
ghost use Rattle.jul_witness.specs.Texts.{result_text, sources_line, cores_text, distances_text, cover_text, witness_of_columns};

use crate::forms::Form;
use crate::laws::{fit_32_bits, has_64_bits};
use crate::lines::{put_distances, put_head, put_pairs};
use jul_base::{Cores, Cover, Distances, Failed, Sink, TextBlock};

/// Writes cores of a graph of `m` places as text: `Cores2`, the numbers of vertices and places, and a line of
/// core and level for each vertex.
///
/// The text is read back as version 2 with these numbers. After `Failed` a part of it was appended that isn't
/// the whole. Takes no memory.
pub fn write_cores<S: Sink>(sink: &mut S, m: u32, c: &Cores) -> Result<(), Failed>
    requires few { m ≤ MAX_M }
    requires lawful { AreLawfulCores c.now }

    ensures ok { OnOk result (Appended (S.state sink.old) (S.state sink.new) (cores_text m c.now)) }
    ensures err { OnErr result (FailedWriting (S.state sink.old) (S.state sink.new)
        (cores_text m c.now)) }
    ensures faults { (S.state sink.old).faults ≤ (S.state sink.new).faults }

    // The text says the cores, and is shorter than a file may be.
    ensures read_back { (limit : ℕ) → length (cores_text m c.now) ≤ limit →
        reads_witness (cores_text m c.now) limit ≡ Ok (witness_of_columns m [] (results.Cores c.now)) }
    ensures short { length (cores_text m c.now) < MAX_BYTES }
{
    has_64_bits(&c.core);
    has_64_bits(&c.level);
    write_pairs(sink, Form::Cores, m, c.core.as_slice(), c.level.as_slice())
}

/// Writes distances from `sources` in a graph of `m` places as text: `Distances2`, the numbers of vertices and
/// places, a line of the number of sources and the sources, and a line of distance, hops and parent for each
/// vertex, `NONE` as a minus sign.
///
/// The text is read back as version 2 with these numbers. After `Failed` a part of it was appended that isn't
/// the whole. Takes no memory.
pub fn write_distances<S: Sink>(
    sink: &mut S,
    m: u32,
    sources: &[u32],
    d: &Distances,
) -> Result<(), Failed>
    requires few { m ≤ MAX_M }
    requires sources { AreNamedSources sources.now }
    requires lawful { AreLawfulDistances d.now }

    ensures ok { OnOk result (Appended (S.state sink.old) (S.state sink.new)
        (distances_text m sources.now d.now)) }
    ensures err { OnErr result (FailedWriting (S.state sink.old) (S.state sink.new)
        (distances_text m sources.now d.now)) }
    ensures faults { (S.state sink.old).faults ≤ (S.state sink.new).faults }

    // The text says the distances, and is shorter than a file may be.
    ensures read_back { (limit : ℕ) → length (distances_text m sources.now d.now) ≤ limit →
        reads_witness (distances_text m sources.now d.now) limit
        ≡ Ok (witness_of_columns m sources.now (results.Distances d.now)) }
    ensures short { length (distances_text m sources.now d.now) < MAX_BYTES }
{
    fit_32_bits(sources);
    has_64_bits(&d.dist);
    has_64_bits(&d.hops);
    has_64_bits(&d.parent);
    write_triples(
        sink,
        m,
        sources,
        d.dist.as_slice(),
        d.hops.as_slice(),
        d.parent.as_slice(),
    )
}

/// Writes a cover of a graph of `m` places as text: `Cover2`, the numbers of vertices and places, and for each
/// vertex a line of the round in which it was chosen as a set and the set that covers it, `NONE` as a minus
/// sign.
///
/// The text is read back as version 2 with these numbers. After `Failed` a part of it was appended that isn't
/// the whole. Takes no memory.
pub fn write_cover<S: Sink>(sink: &mut S, m: u32, c: &Cover) -> Result<(), Failed>
    requires few { m ≤ MAX_M }
    requires lawful { IsLawfulCover c.now }

    ensures ok { OnOk result (Appended (S.state sink.old) (S.state sink.new) (cover_text m c.now)) }
    ensures err { OnErr result (FailedWriting (S.state sink.old) (S.state sink.new)
        (cover_text m c.now)) }
    ensures faults { (S.state sink.old).faults ≤ (S.state sink.new).faults }

    // The text says the cover, and is shorter than a file may be.
    ensures read_back { (limit : ℕ) → length (cover_text m c.now) ≤ limit →
        reads_witness (cover_text m c.now) limit ≡ Ok (witness_of_columns m [] (results.Cover c.now)) }
    ensures short { length (cover_text m c.now) < MAX_BYTES }
{
    has_64_bits(&c.round);
    has_64_bits(&c.by);
    write_pairs(sink, Form::Cover, m, c.round.as_slice(), c.by.as_slice())
}

// Writes the text of a result of two columns.
fn write_pairs<S: Sink>(
    sink: &mut S,
    form: Form,
    m: u32,
    first: &[u64],
    second: &[u64],
) -> Result<(), Failed>
    requires { length second.now ≡ length first.now }

    ensures ok { OnOk result (Appended (S.state sink.old) (S.state sink.new)
        (result_text form (length first.now) m [] (first.now ∷ second.now ∷ []))) }
    ensures err { OnErr result (FailedWriting (S.state sink.old) (S.state sink.new)
        (result_text form (length first.now) m [] (first.now ∷ second.now ∷ []))) }
    ensures faults { (S.state sink.old).faults ≤ (S.state sink.new).faults }
{
    let mut block = TextBlock::new();
    put_head(&mut block, sink, form, first.len(), m)?;
    put_pairs(&mut block, sink, first, second)?;
    block.flush(sink)
}

// Writes the text of distances, hops and parents, and of the sources.
fn write_triples<S: Sink>(
    sink: &mut S,
    m: u32,
    sources: &[u32],
    first: &[u64],
    second: &[u64],
    third: &[u64],
) -> Result<(), Failed>
    requires second { length second.now ≡ length first.now }
    requires third { length third.now ≡ length first.now }

    ensures ok { OnOk result (Appended (S.state sink.old) (S.state sink.new)
        (result_text forms.Distances (length first.now) m (sources_line sources.now)
        (first.now ∷ second.now ∷ third.now ∷ []))) }
    ensures err { OnErr result (FailedWriting (S.state sink.old) (S.state sink.new)
        (result_text forms.Distances (length first.now) m (sources_line sources.now)
        (first.now ∷ second.now ∷ third.now ∷ []))) }
    ensures faults { (S.state sink.old).faults ≤ (S.state sink.new).faults }
{
    let mut block = TextBlock::new();
    put_head(&mut block, sink, Form::Distances, first.len(), m)?;
    put_distances(&mut block, sink, sources, first, second, third)?;
    block.flush(sink)
}
