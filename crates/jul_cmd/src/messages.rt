//! The line that a status puts on standard error.
ghost use Rattle.std.specs.Prelude.{◌≡◌, ◌≤◌, length};
ghost use Rattle.jul_cmd.specs.Statuses.{fault_text, differing_text, message_of};
ghost use Rattle.jul_cmd.specs.Outcomes.{WroteOrFailed};
ghost use Rattle.jul_cmd.specs.declared.statuses.Status.TheVariants.{SourcesDiffer, Asymmetric, SourceRange};

use crate::lines::Line;
use crate::statuses::{Status, Which};
use jul_base::{Sink, write_whole};

/// What the program is told to be called by.
const USAGE: &[u8; 142] =
    b"usage: julienne TASK GRAPH [WITNESS] [--source LIST] [--delta D] [--open B] [--workers W] [--chunk C] [--bare] [--n N] [--pairs P] [--seed X]\n";

fn fault_line(file: &[u8], kind: &[u8], token: u64, at: u64) -> Line
    requires file { length file.now ≤ 15 }
    requires kind { length kind.now ≤ 15 }
    ensures { result ≡ fault_text file.now kind.now token at }
{
    let mut line = Line::of(file);
    line.put(b": ");
    line.put(kind);
    line.put(b" at token ");
    line.put_number(token);
    line.put(b", byte ");
    line.put_number(at);
    line.put(b"\n");
    line
}

fn differing_line(what: &[u8], witness: u32, graph: u32) -> Line
    requires { length what.now ≤ 15 }
    ensures { result ≡ differing_text what.now witness graph }
{
    let mut line = Line::of(b"witness ");
    line.put(what);
    line.put(b" ");
    line.put_number(u64::from(witness));
    line.put(b", graph ");
    line.put(what);
    line.put(b" ");
    line.put_number(u64::from(graph));
    line.put(b"\n");
    line
}

fn sources_line(at: u32) -> Line
    ensures { result ≡ message_of (SourcesDiffer at) }
{
    let mut line = Line::of(b"sources differ at entry ");
    line.put_number(u64::from(at));
    line.put(b"\n");
    line
}

fn asymmetric_line(place: u32) -> Line
    ensures { result ≡ message_of (Asymmetric place) }
{
    let mut line = Line::of(b"asymmetric at place ");
    line.put_number(u64::from(place));
    line.put(b"\n");
    line
}

fn source_range_line(source: u32, n: u32) -> Line
    ensures { result ≡ message_of (SourceRange source n) }
{
    let mut line = Line::new();
    line.put(b"source ");
    line.put_number(u64::from(source));
    line.put(b" is not below ");
    line.put_number(u64::from(n));
    line.put(b"\n");
    line
}

fn message(status: &Status) -> Line
    ensures { result ≡ message_of status.now }
{
    match *status {
        Status::Done | Status::No { .. } => Line::new(),
        Status::Usage => Line::of(USAGE),
        Status::GraphFault(fault) => fault_line(
            b"graph",
            fault.kind.name().as_bytes(),
            fault.token,
            fault.at,
        ),
        Status::WitnessFault(fault) => fault_line(
            b"witness",
            fault.kind.name().as_bytes(),
            fault.token,
            fault.at,
        ),
        Status::SizeDiffers { witness, graph } => differing_line(b"size", witness, graph),
        Status::PlacesDiffer { witness, graph } => differing_line(b"places", witness, graph),
        Status::SourcesDiffer { at } => sources_line(at),
        Status::Asymmetric { place } => asymmetric_line(place),
        Status::SourceRange { source, n } => source_range_line(source, n),
        Status::ReadFault { file: Which::Graph } => Line::of(b"read fault: graph\n"),
        Status::ReadFault {
            file: Which::Witness,
        } => Line::of(b"read fault: witness\n"),
        Status::WriteFault => Line::of(b"write fault\n"),
        Status::Memory => Line::of(b"out of memory\n"),
    }
}

/// Writes the line of a status, if it has one. A failing sink gets a part of it.
pub fn write_message<E: Sink>(err: &mut E, status: &Status)
    ensures { WroteOrFailed (E.state err.old) (E.state err.new) (message_of status.now) }
{
    let line = message(status);
    let _ = write_whole(err, line.as_slice());
}
