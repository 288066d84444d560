//! What the header of a graph file and the two numbers behind it say.
ghost use Rattle.std.specs.Prelude.{◌≡◌, ◌+◌, ◌<◌, ◌^◌, if◌then◌else◌};

/// The sizes of a graph.
#[derive(Clone, Copy)]
pub(crate) struct Sizes {
    /// Whether there are weights.
    pub(crate) weighted: bool,
    /// How many vertices.
    pub(crate) vertices: u32,
    /// How many places.
    pub(crate) places: u32,
}

impl Sizes {
    /// The number of the token that the first target is, if there is one.
    pub(crate) fn first_target(self) -> u64
        ensures value { result ≡ 3 + self.vertices }
        ensures small { result < 2 ^ 33 }
    {
        3 + u64::from(self.vertices)
    }

    /// The number of the token that the first weight is, if there is one.
    pub(crate) fn first_weight(self) -> u64
        ensures value { result ≡ 3 + self.vertices + self.places }
        ensures small { result < 2 ^ 34 }
    {
        self.first_target() + u64::from(self.places)
    }

    /// How many tokens the file of the graph has.
    pub(crate) fn all_tokens(self) -> u64
        ensures value { result ≡ 3 + self.vertices + self.places + (if self.weighted then self.places else 0) }
        ensures small { result < 2 ^ 35 }
    {
        if self.weighted {
            self.first_weight() + u64::from(self.places)
        } else {
            self.first_weight()
        }
    }
}
