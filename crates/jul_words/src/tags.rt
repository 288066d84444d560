//! Numbers that only clauses read.
ghost use Rattle.std.specs.Prelude.{◌≡◌, ℕ, List};
ghost use base.Fml.{ftrue};

use std::marker::{Model, PhantomData};

/// How numbers are read off a value.
pub trait Names<X> {
    ghost numbers: { X → List ℕ };
}

/// Numbers that were read off a value. They have no bytes, and nothing but a clause ties them.
pub struct Tag {
    marker: PhantomData<()>,
    pub ghost numbers: { List ℕ },
}

impl Model for Tag {
    ghost also_owns = { λ _. ftrue };
}

impl Tag {
    /// The numbers that `M` reads off `x`. It does nothing when it runs.
    pub fn of<X, M: Names<X>>(x: &X) -> Tag
        ensures { result.numbers ≡ M.numbers x.now }
    {
        let _ = x;
        Tag {
            marker: PhantomData,
        }
    }
}

impl Drop for Tag {
    fn drop(self) {
        let Self { marker: _ } = self;
    }
}
