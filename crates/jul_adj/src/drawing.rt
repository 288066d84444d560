//! Pairs of vertices from the words of a generator.
ghost use Rattle.std.specs.Prelude.{◌≡◌, ◌<◌, ◌≤◌, [], ◌∷◌};
ghost use Rattle.jul_adj.specs.Generated.{word, next_state, state_at, pair_at, after_pair};

use crate::remainders::Divisor;
use rand_xoshiro::SplitMix64;
use rand_xoshiro::rand_core::SeedableRng;
use rand_xoshiro::rand_core::utils::NextWord;

/// The weights are 1 to as many.
const WEIGHTS: u64 = 100;

/// What SplitMix64 adds to its state for each word.
const STEP: u64 = 0x9e37_79b9_7f4a_7c15;

/// An entry in the row of a vertex.
#[derive(Clone, Copy)]
pub struct Entry {
    /// The vertex.
    pub row: u32,
    /// The vertex that the edge leads to.
    pub target: u32,
    /// Its weight.
    pub weight: u32,
}

/// The generator of a seed behind so many pairs.
pub fn generator_at(seed: u64, pairs: u32) -> SplitMix64
    ensures { result ≡ state_at pairs seed }
{
    let words = 3 * u64::from(pairs);
    SplitMix64::seed_from_u64(seed.wrapping_add(words.wrapping_mul(STEP)))
}

// The next word of the generator.
#[inline]
fn next_word(generator: &mut SplitMix64) -> u64
    ensures word { result ≡ word generator.old }
    ensures state { generator.new ≡ next_state generator.old }
{
    generator.next_word()
}

/// The next pair of vertices, each what a word leaves, with a weight from 1 to 100: an entry in the row of each.
#[inline]
pub(crate) fn draw_pair(generator: &mut SplitMix64, vertices: Divisor) -> (Entry, Entry)
    ensures entries { result.0 ∷ result.1 ∷ [] ≡ pair_at vertices.number generator.old }
    ensures vertices { (result.0.row < vertices.number) × (result.1.row < vertices.number) }
    ensures state { generator.new ≡ after_pair generator.old }
{
    let x = next_word(generator);
    let y = next_word(generator);
    let z = next_word(generator);
    let a = vertices.remainder(x);
    let b = vertices.remainder(y);
    let weight = (1 + z % WEIGHTS) as u32;
    let there = Entry {
        row: a,
        target: b,
        weight,
    };
    let back = Entry {
        row: b,
        target: a,
        weight,
    };
    (there, back)
}
