//! What a table keeps of each seat.
use std::marker::{Model, PhantomData};

/// The view of a seat. It exists in proofs alone: no value of it is made.
pub struct View {
    nothing: PhantomData<()>,
}

impl Model for View {
    ghost use Rattle.jul_words.specs.Views.{View, spent};

    ghost Value = { View };

    ghost view = { λ _. spent };
}
