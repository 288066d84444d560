//! The tasks `check` and `upgrade`: the verdict on a witness, whoever wrote it.
ghost use Rattle.std.specs.Prelude.{◌≡◌, ◌≤◌, Some, None, Ok, OnOk, IfOk, IfErr, IfSome};
ghost use Rattle.jul_base.specs.declared.limits.TheConstants.{MAX_M};
ghost use Rattle.jul_base.specs.Graph.{vertices, places};
ghost use Rattle.jul_base.specs.Sources.{AreNamedSources};
ghost use Rattle.jul_witness.specs.Lawful.{IsLawful, IsLawfulWitness};
ghost use Rattle.jul_check.specs.declared.verdicts.Verdict.TheVariants.{Yes};
ghost use Rattle.jul_query.specs.Asking.{named_sources, purpose_of};
ghost use Rattle.jul_cmd.specs.Checking.{size_of, refusal_of_size, refusal_of_places, refusal_of_witness, sources_meant, judged, AreBorneOut, IsJudged, yes_text, no_text, verdict_status, verdict_text};
ghost use Rattle.jul_cmd.specs.Parts.{IsGiven, Judges, IsWitnessRefused, HasChecked, IsUnchecked, IsWritable, text_of};

use crate::lines::Line;
use crate::loading::load_witness;
use crate::replies::{Reply, Text};
use crate::sources::{check_names, check_sources, meant};
use crate::statuses::Status;
use jul_base::{Ids, Shelf};
use jul_check::{Reason, Verdict, check_cores, check_cover, check_distances};
use jul_query::Purpose;
use jul_rows::Rows;
use jul_witness::{Columns, Witness};
use std::alloc::{AllocError, Global};

// The number of vertices of columns.
fn columns_size(columns: &Columns) -> u32
    requires { IsLawful columns.now }
    ensures { result ≡ size_of columns.now }
{
    match columns {
        Columns::Cores(c) => c.core.len() as u32,
        Columns::Distances(d) => d.dist.len() as u32,
        Columns::Cover(c) => c.round.len() as u32,
    }
}

// Whether columns have as many vertices as the graph, or their refusal.
fn check_size(columns: &Columns, n: u32) -> Result<(), Status>
    requires { IsLawful columns.now }
    ensures same { OnOk result (refusal_of_size n (size_of columns.now) ≡ None) }
    ensures other { IfErr result (λ status. refusal_of_size n (size_of columns.now) ≡ Some status) }
{
    let witness = columns_size(columns);
    if witness == n {
        Ok(())
    } else {
        Err(Status::SizeDiffers { witness, graph: n })
    }
}

// Whether a witness that names a number of places names that of the graph, or its refusal.
fn check_places(named: Option<u32>, m: u32) -> Result<(), Status>
    ensures same { OnOk result (refusal_of_places m named ≡ None) }
    ensures other { IfErr result (λ status. refusal_of_places m named ≡ Some status) }
{
    match named {
        Some(witness) if witness != m => Err(Status::PlacesDiffer { witness, graph: m }),
        _ => Ok(()),
    }
}

// Whether a witness goes with the graph and with the sources that the words name, or the first refusal.
fn check_witness(rows: &Rows, given: &Option<Vec<u32>>, witness: &Witness) -> Result<(), Status>
    requires lawful { IsLawfulWitness witness.now }
    ensures none { OnOk result
        (refusal_of_witness rows.now (named_sources given.now) witness.now ≡ None) }
    ensures first { IfErr result (λ status.
        refusal_of_witness rows.now (named_sources given.now) witness.now ≡ Some status) }
{
    check_size(&witness.columns, rows.n())?;
    check_places(witness.places, rows.m())?;
    check_names(&witness.sources, given)
}

// The sources of a witness: those that it names, and else those of the words.
fn witness_sources(
    alloc: Global,
    named: Option<Ids>,
    given: Option<Vec<u32>>,
) -> Result<Ids, AllocError>
    requires named { IfSome named AreNamedSources }
    requires given { IfSome given (λ sources. AreNamedSources sources.items) }
    ensures meant { IfOk result (λ sources. sources ≡ sources_meant named (named_sources given)) }
    ensures lawful { IfOk result AreNamedSources }
{
    match named {
        Some(sources) => Ok(sources),
        None => meant(alloc, given),
    }
}

// The verdict on columns of the graph's size. Only distances need the sources.
fn judge_columns(
    alloc: Global,
    rows: &Rows,
    sources: &[u32],
    columns: &Columns,
) -> Result<Verdict, Status>
    requires lawful { IsLawful columns.now }
    requires size { size_of columns.now ≡ vertices rows.now }
    requires sources { AreNamedSources sources.now }
    ensures verdict { Judges result (judged rows.now sources.now columns.now) }
    ensures sound { result ≡ Ok Yes → AreBorneOut rows.now sources.now columns.now }
{
    let verdict = match columns {
        Columns::Cores(c) => check_cores(alloc, rows, c),
        Columns::Distances(d) => {
            check_sources(sources, rows.n())?;
            check_distances(alloc, rows, sources, d)
        }
        Columns::Cover(c) => check_cover(alloc, rows, c),
    };
    Ok(verdict?)
}

// The line of a witness that isn't borne out: the vertex that fails, and its reason.
fn no_line(vertex: u32, reason: Reason) -> Line
    ensures { result ≡ no_text vertex reason }
{
    let mut line = Line::of(b"no ");
    line.put_number(u64::from(vertex));
    line.put(b" ");
    line.put(reason.name().as_bytes());
    line.put(b"\n");
    line
}

// What is written of a witness that is borne out.
fn text_of_yes(purpose: Purpose, places: u32, sources: Ids, columns: Columns) -> Text
    requires few { places ≤ MAX_M }
    requires sources { AreNamedSources sources }
    requires lawful { IsLawful columns }
    ensures text { text_of result ≡ yes_text (purpose_of purpose) places sources columns }
    ensures writable { IsWritable result }
{
    match purpose {
        Purpose::Check => Text::Line(Line::of(b"yes\n")),
        Purpose::Upgrade => Text::Whole {
            places,
            sources,
            columns,
        },
    }
}

// A verdict that is ready to be written.
fn verdict_reply(verdict: Verdict, yes: Text) -> Reply
    requires { IsWritable yes }
    ensures status { result.status ≡ verdict_status verdict }
    ensures text { text_of result.text ≡ verdict_text (text_of yes) verdict }
    ensures writable { IsWritable result.text }
{
    match verdict {
        Verdict::Yes => Reply {
            status: Status::Done,
            text: yes,
        },
        Verdict::No { vertex, reason } => Reply {
            status: Status::No { vertex, reason },
            text: Text::Line(no_line(vertex, reason)),
        },
    }
}

// The verdict on a witness, ready to be written, or why there is none.
fn judge_witness(
    alloc: Global,
    rows: &Rows,
    purpose: Purpose,
    witness: Witness,
    given: Option<Vec<u32>>,
) -> Result<Reply, Status>
    requires lawful { IsLawfulWitness witness }
    requires given { IfSome given (λ sources. AreNamedSources sources.items) }
    ensures judged { IfOk result (λ reply. IsJudged rows.now (purpose_of purpose) (named_sources given)
        (Ok witness) reply.status (text_of reply.text)) }
    ensures given { IfOk result (λ reply. IsGiven reply.status) }
    ensures writable { IfOk result (λ reply. IsWritable reply.text) }
    ensures refused { IfErr result
        (IsWitnessRefused rows.now (purpose_of purpose) (named_sources given) (Ok witness)) }
{
    check_witness(rows, &given, &witness)?;
    let Witness {
        sources,
        columns,
        ..
    } = witness;
    let sources = witness_sources(alloc, sources, given)?;
    let verdict = judge_columns(alloc, rows, sources.as_slice(), &columns)?;
    let places = rows.m();
    columns.is_read_back(places, sources.as_slice());
    let yes = text_of_yes(purpose, places, sources, columns);
    Ok(verdict_reply(verdict, yes))
}

/// The verdict on the witness file of this name, ready to be written, or why there is none. The witness is read after
/// the graph. Its sources are those that it names, and else those that are given, or vertex 0 alone.
pub fn judge<F: Shelf>(
    alloc: Global,
    rows: &Rows,
    purpose: Purpose,
    name: &str,
    given: Option<Vec<u32>>,
    files: &mut F,
) -> Result<Reply, Status>
    requires { IfSome given (λ sources. AreNamedSources sources.items) }

    ensures found { IfOk result (λ reply. HasChecked (F.state files.old) (F.state files.new)
        rows.now (purpose_of purpose) name.now (named_sources given) reply.status (text_of reply.text)) }
    ensures given { IfOk result (λ reply. IsGiven reply.status) }
    ensures writable { IfOk result (λ reply. IsWritable reply.text) }
    ensures refused { IfErr result (IsUnchecked (F.state files.old) (F.state files.new)
        rows.now (purpose_of purpose) name.now (named_sources given)) }
{
    let witness = load_witness(alloc, name, files)?;
    judge_witness(alloc, rows, purpose, witness, given)
}
