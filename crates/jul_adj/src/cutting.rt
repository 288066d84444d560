//! The numbers of a text that ends in a white byte, read by several threads.
ghost use Rattle.std.specs.Prelude.{◌≡◌, ◌<◌, ◌≤◌, length, IfOk};
ghost use Rattle.jul_text.specs.Cuts.{EndsWhite, AreCutPoints};
ghost use Rattle.jul_adj.specs.Cutting.{CanRead, cut_of, IsReadAs, AreCutsRead};

use crate::spares::{Spares, Stack};
use jul_base::Gate;
use jul_pool::{Job, Team, run_all};
use jul_text::read_numbers;
use std::alloc::{AllocError, Global};
use std::thread::Threads;

/// How many bytes are read at a time: their numbers stay in a processor's cache until they are taken.
pub(crate) const PIECE: usize = 65_536;

/// To read so many bytes is about as much work as a place of an edge map.
const BYTES_FOR_A_TOKEN: u64 = 4;

/// A text that is cut behind white bytes; each cut is a chunk.
#[derive(Drop)]
struct NumberJob<'a, 'b> {
    bytes: &'a [u8],
    points: &'b [usize],
    bound: u32,
}

impl<'a, 'b> Job for NumberJob<'a, 'b> {
    type Token = Spares;

    type Out = Option<Vec<u32>>;

    ghost can_run = { λ j chunk _. CanRead j.bytes.now j.points.now chunk };

    ghost gives = { λ j chunk out added. IsReadAs (cut_of j.bytes.now j.points.now chunk) j.bound out };

    fn run(&self, chunk: u32, token: &mut Spares) -> Result<Option<Vec<u32>>, AllocError> {
        let from = self.points[chunk as usize];
        let to = self.points[chunk as usize + 1];
        // A number and the white byte behind it are two bytes at least.
        let mut values = token.list((to - from) / 2)?;
        if read_numbers(&self.bytes[from..to], self.bound, &mut values)? {
            Ok(Some(values))
        } else {
            Ok(None)
        }
    }
}

/// The team for the numbers of so many bytes: one worker, and one more for each 128 KiB, as far as this team has them.
pub(crate) fn team_for<'a, G: Gate>(team: &Team<'a, G>, len: usize) -> Team<'a, G> {
    team.for_work(len as u64 / BYTES_FOR_A_TOKEN)
}

/// Into how many pieces a text is cut.
pub(crate) fn pieces(len: usize) -> u32
    ensures some { 0 < result }
    ensures few { result ≤ 64 }
{
    (len / PIECE + 1).min(64) as u32
}

/// What was read of each cut, and the stacks of lists that are left.
#[derive(Drop)]
pub(crate) struct Together {
    pub(crate) cuts: Vec<Option<Vec<u32>>>,
    pub(crate) stacks: Vec<Stack>,
}

/// The numbers up to a bound of each cut of a text that ends in a white byte. None is a cut that may have a token of
/// another kind. Threads fill the lists of the stacks, and take more where they have none left.
pub(crate) fn read_together<R: Threads + Sync, G: Gate>(
    rt: &R,
    alloc: Global,
    team: &Team<'_, G>,
    bytes: &[u8],
    points: &[usize],
    pieces: u32,
    bound: u32,
    stacks: Vec<Stack>,
) -> Result<Together, AllocError>
    requires white { EndsWhite bytes.now }
    requires some { 0 < pieces }
    requires points { AreCutPoints bytes.now pieces points.now }

    ensures { IfOk result (λ r. AreCutsRead bytes.now points.now pieces bound r.cuts.items) }
{
    let job = NumberJob {
        bytes,
        points,
        bound,
    };
    let done = run_all(rt, alloc, team, pieces, &job, Spares::root(alloc, stacks))?;
    Ok(Together {
        cuts: done.outs,
        stacks: done.token.into_stacks(),
    })
}
