//! The search for the first vertex that fails.
ghost use Rattle.std.specs.Prelude.{◌≡◌, ℕ, ◌<◌, Bool, List, find};
ghost use Rattle.jul_base.specs.Graph.{vertices};
ghost use Rattle.jul_check.specs.Verdicts.{verdict_by};

use crate::verdicts::{Reason, Verdict};
use jul_rows::Rows;

/// What is tested of each vertex, where one kind of result is checked.
pub(crate) trait VertexTest {
    ghost use Rattle.jul_check.specs.declared.verdicts.Reason.{Reason};

    // Whether a vertex can be tested.
    ghost can_test: { Self → ℕ → Type 0 };
    // Whether a vertex fails a reason.
    ghost fails: { Self → ℕ → Reason → Bool };
    // The reasons in the order in which they are tried.
    ghost reasons: { List Reason };

    /// The first reason that `v` fails.
    fn first_reason(&self, v: u32) -> Option<Reason>
        requires { can_test self.now v }

        ensures { result ≡ find (fails self.now v) reasons };
}

/// The least vertex that fails, and its first reason. Each vertex up to it is tested once.
pub(crate) fn first_failing<T: VertexTest>(rows: &Rows, test: &T) -> Verdict
    requires { (v : ℕ) → v < vertices rows.now → T.can_test test.now v }

    ensures { result ≡ verdict_by (vertices rows.now) T.reasons (T.fails test.now) }
{
    for v in 0..rows.n() {
        if let Some(reason) = test.first_reason(v) {
            return Verdict::No { vertex: v, reason };
        }
    }
    Verdict::Yes
}
