//! Sets packed down to some of their elements, by threads.
ghost use Rattle.std.specs.Prelude.{◌≡◌, ℕ, ◌*◌, ◌<◌, ◌==◌, [], Bool, length, All, IfOk};
ghost use Rattle.std.specs.List.{filter, flat_map, IsDistinct};
ghost use Rattle.jul_subset.specs.Chunks.{chunk_of};
ghost use Rattle.jul_count.specs.Packs.{alone, packs_of};

use jul_base::{Free, Gate, Ids};
use jul_pool::{Job, RunOut, Team, run_all};
use jul_rows::SetRows;
use jul_subset::{VertexTest, chunk_at};
use std::alloc::{AllocError, Global};
use std::thread::Threads;

/// Which elements are kept. It knows nothing of threads, so a chunk can hand it to a loop of its own.
trait Keep {
    // Whether it may be asked about a vertex.
    ghost can_ask: { Self → ℕ → Type 0 };
    // What it answers at a vertex.
    ghost kept: { Self → ℕ → Bool };

    /// Whether `v` is kept.
    fn keep(&self, v: u32) -> bool
        requires { can_ask self.now v }

        ensures { result ≡ kept self.now v };
}

/// What a test of vertices keeps.
#[derive(Drop)]
struct KeptBy<'a, T: VertexTest> {
    test: &'a T,
}

impl<'a, T: VertexTest> Keep for KeptBy<'a, T> {
    ghost can_ask = { λ k. T.can_test k.test.now };

    ghost kept = { λ k. T.kept k.test.now };

    fn keep(&self, v: u32) -> bool {
        self.test.keeps(v)
    }
}

/// Sets that are packed, so many in a chunk.
#[derive(Drop)]
struct PackJob<'a, T: VertexTest> {
    alloc: Global,
    sets: &'a [u32],
    size: u32,
    rows: &'a SetRows,
    keep: &'a T,
}

impl<'a, T: VertexTest> Job for PackJob<'a, T> {
    type Token = Free;

    type Out = Vec<(u32, Ids)>;

    ghost can_run = { λ j chunk _. (chunk * j.size < length j.sets.now)
        × All (λ s. s < length j.rows.now) j.sets.now
        × ((v : ℕ) → v < length j.rows.now → T.can_test j.keep.now v) };

    ghost gives = { λ j chunk out added.
        (out.items ≡ flat_map (alone (T.kept j.keep.now) j.rows.now) (chunk_of j.sets.now j.size chunk)) × (added ≡ []) };

    fn run(&self, chunk: u32, _token: &mut Free) -> Result<Vec<(u32, Ids)>, AllocError> {
        let sets = chunk_at(self.sets, self.size as usize, chunk as usize);
        let test = KeptBy { test: self.keep };
        pack_each(self.alloc, sets, self.rows, &test)
    }
}

/// Each of these sets with its elements that the test keeps.
fn pack_each<K: Keep>(
    alloc: Global,
    sets: &[u32],
    rows: &SetRows,
    test: &K,
) -> Result<Vec<(u32, Ids)>, AllocError>
    requires within { All (λ s. s < length rows.now) sets.now }
    requires condition { (v : ℕ) → v < length rows.now → K.can_ask test.now v }

    ensures { IfOk result (λ packs. packs.items ≡ flat_map (alone (K.kept test.now) rows.now) sets.now) }
{
    let mut packs = Vec::with_capacity(alloc, sets.len())?;
    for s in sets {
        packs.push((*s, kept_of(alloc, rows.set(*s), test)?))?;
    }
    Ok(packs)
}

/// The elements that the test keeps, in order.
fn kept_of<K: Keep>(alloc: Global, elements: &[u32], test: &K) -> Result<Ids, AllocError>
    requires condition { All (K.can_ask test.now) elements.now }

    ensures { IfOk result (λ kept. kept ≡ filter (K.kept test.now) elements.now) }
{
    let mut kept = Vec::new(alloc);
    for e in elements {
        if test.keep(*e) {
            kept.push(*e)?;
        }
    }
    Ok(Ids::from_vec(kept))
}

/// The packs of all chunks, one after another. None is copied.
fn put_together(alloc: Global, outs: Vec<Vec<(u32, Ids)>>) -> Result<Vec<(u32, Ids)>, AllocError>
    ensures { IfOk result (λ all. all.items ≡ flat_map (λ out. out.items) outs.items) }
{
    let mut all = Vec::new(alloc);
    for out in outs {
        let mut out = out;
        all.append(&mut out)?;
    }
    Ok(all)
}

/// Each listed set, in the order of the list, with those of its elements that the test keeps, in increasing order.
///
/// No set is listed twice. The work is cut into chunks of at most `team.chunk` sets. Memory that runs out is the only
/// refusal.
pub fn pack<R: Threads + Sync, T: VertexTest, G: Gate>(
    rt: &R,
    alloc: Global,
    team: &Team<'_, G>,
    sets: &[u32],
    rows: &SetRows,
    keep: &T,
) -> Result<Vec<(u32, Ids)>, AllocError>
    requires distinct { IsDistinct (λ r s. r == s) sets.now }
    requires within { All (λ s. s < length rows.now) sets.now }
    requires condition { (v : ℕ) → v < length rows.now → T.can_test keep.now v }

    ensures { IfOk result (λ packs. packs.items ≡ packs_of (T.kept keep.now) rows.now sets.now) }
{
    prove!(sets.len() <= rows.n() as usize);
    let chunks = sets.len().div_ceil(team.chunk as usize) as u32;
    let job = PackJob {
        alloc,
        sets,
        size: team.chunk,
        rows,
        keep,
    };
    let RunOut {
        outs,
        order: _,
        token: _,
    } = run_all(rt, alloc, team, chunks, &job, Free::root())?;
    put_together(alloc, outs)
}
