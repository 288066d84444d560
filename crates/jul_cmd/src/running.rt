//! The top call.
ghost use Rattle.std.specs.Prelude.{◌≡◌, ◌⊎◌, ◌≤◌, None, map, string_bytes, IfOk, IfErr};
ghost use Rattle.jul_cmd.specs.declared.statuses.Status.TheVariants.{Usage, Memory};
ghost use Rattle.jul_cmd.specs.Statuses.{MayWrite, message_of};
ghost use Rattle.jul_query.specs.Words.{asked};
ghost use Rattle.jul_query.specs.Asking.{asked_by};
ghost use Rattle.jul_query.specs.Ranges.{IsInRange};
ghost use Rattle.jul_cmd.specs.Outcomes.{HasCause, WroteOrFailed, IsUntroubled, IsComplete, IsAnswer};
ghost use Rattle.jul_cmd.specs.Parts.{IsGiven, IsRefused, IsWritable, text_of};

use crate::checking::judge;
use crate::loading::{Loaded, load_input};
use crate::messages::write_message;
use crate::replies::Reply;
use crate::resources::Resources;
use crate::solving::solve;
use crate::statuses::Status;
use jul_base::{Gate, Shelf, Sink};
use jul_query::{Query, Work, parse_words};
use std::alloc::Global;
use std::thread::Threads;

// The answer to a query, ready to be written. All memory is taken here.
fn find_reply<R: Threads + Sync, G: Gate, F: Shelf>(
    resources: &Resources<'_, '_, R, G>,
    query: Query<'_>,
    files: &mut F,
) -> Result<Reply, Status>
    requires { IsInRange query }

    ensures found { IfOk result (λ reply. IsAnswer (asked_by query.entry)
        (F.state files.old) (F.state files.new) reply.status (text_of reply.text)) }
    ensures given { IfOk result (λ reply. IsGiven reply.status) }
    ensures writable { IfOk result (λ reply. IsWritable reply.text) }
    ensures refused { IfErr result
        (IsRefused (asked_by query.entry) (F.state files.old) (F.state files.new)) }
{
    let Query { input, work, .. } = query;
    let loaded = load_input(resources, input, files)?;
    let Loaded { rows, is_symmetric } = loaded;
    match work {
        Work::Solve(problem, form) => solve(resources, rows, is_symmetric, problem, form),
        Work::Judge {
            purpose,
            witness,
            sources,
        } => judge(resources.alloc, &rows, purpose, witness, sources, files),
    }
}

// The answer to the words, written to `out`.
fn answer<R: Threads + Sync, G: Gate, F: Shelf, O: Sink>(
    rt: &R,
    alloc: Global,
    gate: &G,
    words: &[String],
    files: &mut F,
    out: &mut O,
) -> Status
    ensures cause { HasCause (map string_bytes words.now)
        (F.state files.old) (F.state files.new) (O.state out.old) (O.state out.new) result }
    ensures usage { asked (map string_bytes words.now) ≡ None → (result ≡ Usage) ⊎ (result ≡ Memory) }
    ensures kept { MayWrite result ⊎ (O.state out.new ≡ O.state out.old) }
{
    let query = match parse_words(alloc, words) {
        Ok(Some(query)) => query,
        Ok(None) => return Status::Usage,
        Err(_) => return Status::Memory,
    };
    let resources = Resources::of(rt, alloc, gate, &query);
    let reply = match find_reply(&resources, query, files) {
        Ok(reply) => reply,
        Err(status) => return status,
    };
    match reply.text.write(out) {
        Ok(()) => reply.status,
        Err(_) => Status::WriteFault,
    }
}

/// Does all that the program does: reads the files that the words name, and writes the answer to `out`.
/// `words` are those after the program's name.
///
/// `wbfs` and `delta` write the least distances from the nearest source, with hops and parents; `kcore` the coreness and the
/// level of each vertex of a symmetric graph; `cover` the rounds of an approximate set cover; or their first column alone.
/// `check` writes whether the witness is borne out by the graph, or the least vertex that fails and its first reason, and
/// `upgrade` in place of a yes the witness itself, in the text that the other tasks write. `demo` solves a problem on a
/// graph that it makes, and writes one line.
///
/// A refusal is the first that has its cause: the words, the graph file from front to back, the witness file from
/// front to back, its size, its number of places, the sources that it names, the sources or the symmetry. Its line goes to
/// `err` at the end, and a failing `err` changes no status.
/// All memory is taken before the first byte goes to `out`. Waits for nobody.
#[tactic(auto, using(crate::proofs::AnswerLaws::cause_is_complete))]
pub fn run<R: Threads + Sync, F: Shelf, O: Sink, E: Sink, G: Gate>(
    rt: &R,
    alloc: Global,
    words: &[String],
    files: &mut F,
    out: &mut O,
    err: &mut E,
    gate: &G,
) -> Status
    // Each status comes by its cause alone.
    ensures cause { HasCause (map string_bytes words.now)
        (F.state files.old) (F.state files.new) (O.state out.old) (O.state out.new) result }
    ensures usage { asked (map string_bytes words.now) ≡ None → (result ≡ Usage) ⊎ (result ≡ Memory) }

    // Where nothing goes wrong outside, the answer is given whole or memory ran out.
    ensures complete { IsUntroubled (map string_bytes words.now)
        (F.state files.old) (F.state files.new) (O.state out.old) (O.state out.new) →
        IsComplete (map string_bytes words.now)
        (F.state files.old) (F.state files.new) (O.state out.old) (O.state out.new) result }

    // Before a refusal nothing is written, and its line goes to `err`.
    ensures kept { MayWrite result ⊎ (O.state out.new ≡ O.state out.old) }
    ensures message { WroteOrFailed (E.state err.old) (E.state err.new) (message_of result) }
{
    let status = answer(rt, alloc, gate, words, files, out);
    write_message(err, &status);
    status
}
