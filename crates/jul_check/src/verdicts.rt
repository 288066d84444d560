//! What a checker answers.
ghost use Rattle.std.specs.Prelude.{◌≡◌, ◌≤◌, length};
ghost use Rattle.jul_check.specs.Names.{reason_name};

use std::fmt;

/// Why a vertex fails. The reasons of one kind of result are tried in this order.
#[derive(Clone, Copy, Debug, PartialEq, Eq)]
pub enum Reason {
    /// Cores: fewer places of its row than its core lead to vertices of at least that core.
    LowerBound,
    /// Cores: more places of its row than its core lead to vertices that aren't before it.
    UpperBound,
    /// Cores: some vertex before it has a greater core.
    Order,
    /// Distances: it is a source, and its columns aren't 0, 0 and none.
    Source,
    /// Distances: a place of its row would lower the distance of its target.
    Lowerable,
    /// Distances: it is reached, but its parent does not bear its distance and its hops out.
    Parent,
    /// Distances: it isn't reached, but has hops or a parent.
    Unreached,
    /// Covers: it is an element, and no vertex is named to cover it.
    NotCovered,
    /// Covers: it isn't in the set that is said to cover it.
    NotHeld,
    /// Covers: the set that is said to cover it wasn't chosen.
    NotChosen,
    /// Covers: it is no element, and a set is said to cover it.
    NoElement,
}

impl Reason {
    /// The name of the reason, as verdicts have it. Takes no memory.
    pub fn name(self) -> &'static str
        ensures text { result.now ≡ reason_name self }
        ensures short { length result.now ≤ 15 }
    {
        match self {
            Reason::LowerBound => "LowerBound",
            Reason::UpperBound => "UpperBound",
            Reason::Order => "Order",
            Reason::Source => "Source",
            Reason::Lowerable => "Lowerable",
            Reason::Parent => "Parent",
            Reason::Unreached => "Unreached",
            Reason::NotCovered => "NotCovered",
            Reason::NotHeld => "NotHeld",
            Reason::NotChosen => "NotChosen",
            Reason::NoElement => "NoElement",
        }
    }
}

impl fmt::Display for Reason {
    ghost use Rattle.std.specs.Prelude.{Some};

    ghost output = { λ x. Some (reason_name x) };

    fn fmt<W: fmt::Write>(&self, f: &mut fmt::Formatter<W>) -> fmt::Result {
        f.write_str(self.name())
    }
}

/// What a checker says of columns.
#[derive(Clone, Copy, Debug, PartialEq, Eq)]
pub enum Verdict {
    /// No vertex fails a reason.
    Yes,
    /// A vertex fails.
    No {
        /// The least vertex that fails.
        vertex: u32,
        /// The first reason that it fails.
        reason: Reason,
    },
}
