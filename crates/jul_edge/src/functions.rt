//! What callers hand in: functions applied to edges.
ghost use Rattle.std.specs.Prelude.{◌≡◌, ℕ, Bool, List};
ghost use Rattle.jul_base.specs.Logs.{Log, Home};
ghost use Rattle.jul_pool.specs.Added.{HasAdded};
ghost use Rattle.jul_edge.specs.Edges.{Application, application};

use jul_base::Share;

/// In which direction an edge is walked: from its source, or from its target.
#[derive(Clone, Copy, PartialEq, Eq, Debug, Drop)]
pub enum Direction {
    Push,
    Pull,
}

/// What is done at each edge, by any of the threads.
///
/// Contracts see the conditions of `wants` and `apply`, what is wanted, and what an application may give. The
/// condition of `apply` is a relation between the function, the application and the home of the token, so it holds
/// for a root exactly where it holds for the parts of that root.
pub trait EdgeFn: Sync {
    /// Through this `apply` acts on what the threads share.
    type Token: Share;

    // Whether `wants` may be asked about a vertex.
    ghost can_want: { Self → ℕ → Type 0 };
    // Whether places that lead to a vertex are wanted.
    ghost wanted: { Self → ℕ → Bool };
    // Whether it may be applied with a token of this home.
    ghost can_apply: { Self → Application → List Home → Type 0 };
    // Whether an application may answer this and add these entries to the log.
    ghost gives: { Self → Application → Bool → Log → Type 0 };

    /// Whether it is to be applied to places that lead to `v`. The answer depends on the function and `v` alone.
    fn wants(&self, v: u32) -> bool
        requires { can_want self.now v }

        ensures { result ≡ wanted self.now v };

    /// Reads ahead what `apply` will read at a place that leads to `v`, so that a cache has it then. It changes nothing, and
    /// does nothing where a function has no such method of its own. Pushes ask for it.
    fn touch(&self, token: &Self::Token, v: u32)
        requires { (a : Application) × (a.target ≡ v) × can_apply self.now a (Self.Token.home token.now) }
    {}

    /// Answers whether `v` is to be in the subset that is made. The edge at `place` leads from `u` to `v` and has the
    /// weight `w`. Of the token only the log changes.
    fn apply(
        &self,
        token: &mut Self::Token,
        by: Direction,
        u: u32,
        place: u32,
        v: u32,
        w: u32,
    ) -> bool
        requires { can_apply self.now (application by u place v w) (Self.Token.home token.old) }

        ensures gives { HasAdded (gives self.now (application by u place v w))
            (Self.Token.log token.old) (Self.Token.log token.new) result }
        ensures home { Self.Token.home token.new ≡ Self.Token.home token.old }
        ensures root { Self.Token.is_root token.new ≡ Self.Token.is_root token.old }
        ensures out { Self.Token.out token.new ≡ Self.Token.out token.old };
}
