//! Numbers that no word goes below.
ghost use Rattle.std.specs.Prelude.{ℕ, List, replicate};

/// A number for each word that it never goes below. Contracts alone see them.
pub trait Floors {
    ghost numbers: { Self → List ℕ };
}

/// `count` zeros.
#[derive(Clone, Copy)]
pub struct ZeroFloors {
    pub count: u32,
}

impl Floors for ZeroFloors {
    ghost numbers = { λ z. replicate z.count 0 };
}
