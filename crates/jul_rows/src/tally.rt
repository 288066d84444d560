//! How often each vertex stands in a list.
ghost use Rattle.std.specs.Prelude.{◌≡◌, ℕ, ◌<◌, ◌≤◌, ◌^◌, [], length, slice_index, IfOk};
ghost use Rattle.std.specs.List.{All};
ghost use Rattle.jul_rows.specs.Balance.{IsTallyOf};

use std::alloc::{AllocError, Global};
use std::marker::Model;

/// A number for each vertex, which tells how often it stands in a list.
///
/// What was counted is taken back by `uncount`, which costs less than a new tally for a short list.
#[derive(Drop)]
pub struct Counts {
    counts: Vec<u32>,
}

impl Model for Counts {
    ghost use Rattle.std.specs.Prelude.{ℕ, List};

    ghost Value = { List ℕ };

    ghost view = { λ t. t.counts.items };
}

impl Counts {
    /// The tally of an empty list of vertices below `n`.
    pub fn new(alloc: Global, n: u32) -> Result<Counts, AllocError>
        ensures size { IfOk result (λ t. length t ≡ n) }
        ensures none { IfOk result (IsTallyOf []) }
    {
        let counts = vec![in alloc; 0u32; n as usize]?;
        Ok(Counts { counts })
    }

    /// How often `v` stands in the list.
    #[inline]
    pub fn of(&self, v: u32) -> u32
        requires { v < length self.now }

        ensures { result ≡ slice_index self.now v }
    {
        self.counts[v as usize]
    }

    /// Counts the vertices of `list`.
    pub fn count(&mut self, list: &[u32])
        requires in_range { All (λ v. v < length self.old) list.now }
        requires few { length list.now < 2 ^ 32 }
        requires none { IsTallyOf [] self.old }

        ensures counted { IsTallyOf list.now self.new }
        ensures size { length self.new ≡ length self.old }
    {
        for v in list {
            self.counts[*v as usize] += 1;
        }
    }

    /// Takes back what `count` counted.
    pub fn uncount(&mut self, list: &[u32])
        requires in_range { All (λ v. v < length self.old) list.now }
        requires counted { IsTallyOf list.now self.old }

        ensures none { IsTallyOf [] self.new }
        ensures size { length self.new ≡ length self.old }
    {
        for v in list {
            self.counts[*v as usize] -= 1;
        }
    }
}
