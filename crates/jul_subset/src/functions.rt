//! What callers hand in: functions applied to vertices, and tests of vertices.
ghost use Rattle.std.specs.Prelude.{◌≡◌, ℕ, Bool, List};
ghost use Rattle.jul_base.specs.Logs.{Log, Home};
ghost use Rattle.jul_pool.specs.Added.{HasAdded};

use jul_base::Share;

/// What is done at each vertex, by any of the threads.
///
/// Contracts see the condition of `apply` and what it may give. The condition is a relation between the function,
/// the vertex and the home of the token, so it holds for a root exactly where it holds for the parts of that root.
pub trait VertexFn: Sync {
    /// Through this `apply` acts on what the threads share.
    type Token: Share;

    // Whether it may be applied to a vertex with a token of this home.
    ghost can_apply: { Self → ℕ → List Home → Type 0 };
    // Whether it may answer this at a vertex and add these entries to the log.
    ghost gives: { Self → ℕ → Bool → Log → Type 0 };

    /// Answers whether `v` is to be in the subset that is made. Of the token only the log changes.
    fn apply(&self, token: &mut Self::Token, v: u32) -> bool
        requires { can_apply self.now v (Self.Token.home token.old) }

        ensures gives { HasAdded (gives self.now v) (Self.Token.log token.old) (Self.Token.log token.new) result }
        ensures home { Self.Token.home token.new ≡ Self.Token.home token.old }
        ensures root { Self.Token.is_root token.new ≡ Self.Token.is_root token.old }
        ensures out { Self.Token.out token.new ≡ Self.Token.out token.old };
}

/// Which vertices are kept.
pub trait VertexTest: Sync {
    // Whether it may be asked about a vertex.
    ghost can_test: { Self → ℕ → Type 0 };
    // What it answers at a vertex.
    ghost kept: { Self → ℕ → Bool };

    /// Whether `v` is kept. The answer depends on the test and `v` alone.
    fn keeps(&self, v: u32) -> bool
        requires { can_test self.now v }

        ensures { result ≡ kept self.now v };
}
