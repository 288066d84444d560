//! Tokens that are cut into parts for threads, and put together again.
//!
//! What a thread does to shared words is logged in the token through which it does it. The root token is split,
//! each thread is lent a part, and once all parts are joined the root's log has what everyone did.
ghost use Rattle.std.specs.Prelude.{◌≡◌, ℕ, ◌+◌, ◌<◌, Bool, true, false, refl, List, [], length};
ghost use Rattle.jul_base.specs.Logs.{Log, Home, followed_by, empty_log};

/// What a thread is lent a part of.
///
/// Contracts see its log, its home, whether it is the root, and of a root how many parts are out. Tokens with
/// equal homes are kin. Log and home have a part for each table that the token stands for. No call changes a home.
pub trait Share: Sized + Send + Drop {
    // How many parts its log and its home have.
    ghost parts: { ℕ };
    // What was done through it.
    ghost log: { Self → Log };
    // Where it belongs.
    ghost home: { Self → List Home };

    ghost is_root: { Self → Bool };
    // Of a root, how many of its kin are out.
    ghost out: { Self → ℕ };

    /// A token of the same home with an empty log. Takes no memory.
    fn split(&mut self) -> Self
        requires root { is_root self.old ≡ true }
        requires room { out self.old < 65536 }
        ensures empty { log result ≡ empty_log (home result) }
        ensures kin { home result ≡ home self.old }
        ensures part { is_root result ≡ false }
        ensures log { log self.new ≡ log self.old }
        ensures home { home self.new ≡ home self.old }
        ensures root { is_root self.new ≡ true }
        ensures out { out self.new ≡ out self.old + 1 };

    /// Takes in a token of the same home. Its log follows that of the root. Takes no memory.
    fn join(&mut self, other: Self)
        requires root { is_root self.old ≡ true }
        requires some_out { 0 < out self.old }
        requires kin { home other ≡ home self.old }
        requires part { is_root other ≡ false }
        ensures log { log self.new ≡ followed_by (log self.old) (log other) }
        ensures home { home self.new ≡ home self.old }
        ensures root { is_root self.new ≡ true }
        ensures out { out self.new + 1 ≡ out self.old };

    ghost log_has_parts: { (x : Self) → length (log x) ≡ parts };

    ghost home_has_parts: { (x : Self) → length (home x) ≡ parts };
}

/// A token over no words, for work that changes none. Its log is always empty.
#[derive(Drop)]
pub struct Free {
    is_root: bool,
    out: u32,
}

impl Free {
    /// A root with none out. Takes no memory.
    pub fn root() -> Free
        ensures root { ⟦<Free as Share>⟧.is_root result ≡ true }
        ensures out { ⟦<Free as Share>⟧.out result ≡ 0 }
    {
        Free {
            is_root: true,
            out: 0,
        }
    }
}

impl Share for Free {
    ghost parts = { 0 };

    ghost log = { λ _. [] };

    ghost home = { λ _. [] };

    ghost is_root = { λ free. free.is_root };

    ghost out = { λ free. free.out };

    ghost log_has_parts = { λ _. refl };

    ghost home_has_parts = { λ _. refl };

    fn split(&mut self) -> Free {
        self.out += 1;
        Free {
            is_root: false,
            out: 0,
        }
    }

    fn join(&mut self, other: Free) {
        self.out -= 1;
        let Free { is_root: _, out: _ } = other;
    }
}
