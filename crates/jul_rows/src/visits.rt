//! What is done at one place. Nothing here knows of threads, so that loops may stand over it.
ghost use Rattle.std.specs.Prelude.{◌≡◌, ℕ, Bool, List};
ghost use Rattle.jul_base.specs.Logs.{Home};
ghost use Rattle.jul_rows.specs.Visits.{Step, Visited, IsSame, step};

/// A function on places, which acts through a state that the loop lends it.
///
/// The state is the caller's: it may be the token of a thread, whose home, and whether it is a root, no visit changes.
/// The trait asks for no thread, so that a loop may stand over a bound of it, whatever its implementations share.
pub trait Visit {
    /// Through this a visit acts.
    type State;

    // Whether `wants` may be asked about a vertex.
    ghost can_want: { Self → ℕ → Type 0 };
    // Whether places that lead to a vertex are wanted.
    ghost wanted: { Self → ℕ → Bool };
    // Whether a place may be visited.
    ghost can_visit: { Self → Step → Self.State → Type 0 };
    // What a visit does.
    ghost visits: { Self → Visited → Self.State → Self.State → Type 0 };

    // What no visit changes of the state: its home, whether it is a root, and how many are out.
    ghost home: { Self.State → List Home };

    ghost is_root: { Self.State → Bool };

    ghost out: { Self.State → ℕ };

    /// Whether places that lead to `v` are to be visited.
    fn wants(&self, v: u32) -> bool
        requires { can_want self.now v }

        ensures { result ≡ wanted self.now v };

    /// Reads ahead what the visit of the place from `u` to `v` will read, so that a cache has it then. It changes nothing.
    fn touch(&self, state: &Self::State, u: u32, place: u32, v: u32)
        requires { can_visit self.now (step u place v) state.now }
    {}

    /// Visits the place from `u` to `v`, and answers whether `v` is to be noted.
    fn visit(&self, state: &mut Self::State, u: u32, place: u32, v: u32) -> bool
        requires { can_visit self.now (step u place v) state.old }

        ensures visited { visits self.now (record { step = step u place v; noted = result }) state.old state.new }
        ensures same { IsSame home is_root out state.old state.new }
        ensures kept { (s : Step) → can_visit self.now s state.old → can_visit self.now s state.new };
}
