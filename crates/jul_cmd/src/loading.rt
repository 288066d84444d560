//! The files that a query names.
ghost use Rattle.std.specs.Prelude.{◌+◌, ◌≤◌, length, Ok, IfOk, IfErr, IsTrue};
ghost use Rattle.jul_base.specs.declared.limits.TheConstants.{MAX_BYTES};
ghost use Rattle.jul_base.specs.Loading.{IsLoaded};
ghost use Rattle.jul_base.specs.Symmetry.{IsSymmetric};
ghost use Rattle.jul_witness.specs.Lawful.{IsLawfulWitness};
ghost use Rattle.jul_query.specs.Asking.{input_of};
ghost use Rattle.jul_query.specs.Ranges.{IsInputInRange};
ghost use Rattle.jul_cmd.specs.declared.statuses.Which.TheVariants as which;
ghost use Rattle.jul_cmd.specs.Files.{graph_of_file, witness_of_file, IsRead};
ghost use Rattle.jul_cmd.specs.Parts.{IsUnloaded, IsGraphUnread, IsWitnessUnread, IsInputRead, IsInputUnread};

use crate::resources::Resources;
use crate::statuses::{Status, Which};
use jul_adj::{generate_by, read_stream};
use jul_base::{Gate, LoadError, MAX_BYTES, Shelf, load_all};
use jul_query::Input;
use jul_rows::Rows;
use jul_witness::{Witness, read_witness};
use std::alloc::Global;
use std::thread::Threads;

/// The most bytes of a graph file that are read at a time.
const BLOCK: usize = 1_048_576;

// The bytes of the witness file of this name.
fn load_text<F: Shelf>(alloc: Global, name: &str, files: &mut F) -> Result<Vec<u8>, Status>
    ensures ok { IfOk result (λ bytes.
        IsLoaded (F.state files.old) (F.state files.new) name.now bytes.items (MAX_BYTES + 1)) }
    ensures short { IfOk result (λ bytes. length bytes.items ≤ MAX_BYTES + 1) }
    ensures refused { IfErr result
        (IsUnloaded which.Witness (F.state files.old) (F.state files.new) name.now) }
{
    match load_all(alloc, files, name, MAX_BYTES) {
        Ok(bytes) => Ok(bytes),
        Err(LoadError::Failed) => Err(Status::ReadFault {
            file: Which::Witness,
        }),
        Err(LoadError::Memory) => Err(Status::Memory),
    }
}

// The rows of the graph in the file of this name, or why there is none. The text is read in blocks, by workers.
fn load_graph<R: Threads + Sync, G: Gate, F: Shelf>(
    resources: &Resources<'_, '_, R, G>,
    name: &str,
    files: &mut F,
) -> Result<Rows, Status>
    ensures rows { IfOk result (λ rows.
        IsRead graph_of_file (F.state files.old) (F.state files.new) name.now (Ok rows)) }
    ensures refused { IfErr result (IsGraphUnread (F.state files.old) (F.state files.new) name.now) }
    ensures faults { (F.state files.old).faults ≤ (F.state files.new).faults }
{
    let graph = read_stream(
        resources.rt,
        resources.alloc,
        &resources.team,
        files,
        name,
        MAX_BYTES,
        BLOCK,
    )?;
    Ok(Rows::of(graph))
}

/// A graph that was read or made.
#[derive(Drop)]
pub struct Loaded {
    /// Its rows.
    pub rows: Rows,
    /// Whether it is known to be symmetric; a no says nothing.
    pub is_symmetric: bool,
}

/// The graph that an input stands for, or why there is none. A generated graph is known to be symmetric.
pub fn load_input<R: Threads + Sync, G: Gate, F: Shelf>(
    resources: &Resources<'_, '_, R, G>,
    input: Input<'_>,
    files: &mut F,
) -> Result<Loaded, Status>
    requires { IsInputInRange input }

    ensures rows { IfOk result (λ loaded.
        IsInputRead (input_of input.entry) (F.state files.old) (F.state files.new) loaded.rows) }
    ensures symmetric { IfOk result (λ loaded. IsTrue loaded.is_symmetric → IsSymmetric loaded.rows) }
    ensures refused { IfErr result
        (IsInputUnread (input_of input.entry) (F.state files.old) (F.state files.new)) }
    ensures faults { (F.state files.old).faults ≤ (F.state files.new).faults }
{
    match input {
        Input::GraphFile(name) => {
            let rows = load_graph(resources, name, files)?;
            Ok(Loaded {
                rows,
                is_symmetric: false,
            })
        }
        Input::Generated { n, pairs, seed } => {
            let graph = generate_by(
                resources.rt,
                resources.alloc,
                &resources.team,
                n,
                pairs,
                seed,
            )?;
            Ok(Loaded {
                rows: Rows::of(graph),
                is_symmetric: true,
            })
        }
    }
}

/// The witness of the file of this name, or why there is none. The text of the file is given back.
pub fn load_witness<F: Shelf>(alloc: Global, name: &str, files: &mut F) -> Result<Witness, Status>
    ensures witness { IfOk result (λ witness.
        IsRead witness_of_file (F.state files.old) (F.state files.new) name.now (Ok witness)) }
    ensures lawful { IfOk result IsLawfulWitness }
    ensures refused { IfErr result (IsWitnessUnread (F.state files.old) (F.state files.new) name.now) }
{
    let bytes = load_text(alloc, name, files)?;
    Ok(read_witness(alloc, bytes.as_slice(), MAX_BYTES)?)
}
