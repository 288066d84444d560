//! The lists of a graph that is being read.
ghost use Rattle.std.specs.Prelude.{◌≡◌, ℕ, ◌+◌, ◌<◌, ◌≤◌, ◌^◌, List, length, IfOk, IfSome, IfNone, OnOk, None, Some};
ghost use Rattle.jul_text.specs.Tokens.{Word};
ghost use Rattle.jul_adj.specs.Faults.{kind_at};
ghost use Rattle.jul_adj.specs.Rules.{bound_of, AreRuled};
ghost use Rattle.jul_adj.specs.Storing.{AreMarks};
ghost use Rattle.jul_adj.specs.Values.{AreValues};

use crate::rules::Rule;
use crate::storing::{Stored, store};
use crate::values::append;
use jul_text::Mark;
use std::alloc::{AllocError, Global};

/// The lists of a graph, as far as they were read.
#[derive(Drop)]
pub(crate) struct Lists {
    pub(crate) offsets: Vec<u32>,
    pub(crate) targets: Vec<u32>,
    pub(crate) weights: Vec<u32>,
}

impl Lists {
    ghost use Rattle.jul_adj.specs.Readings.{AreLists, IsPart};

    /// Lists with nothing in them. Takes no memory.
    pub(crate) fn new(alloc: Global) -> Lists
        ensures { (ws : List Word) → AreLists ws 0 result }
    {
        Lists {
            offsets: Vec::new(alloc),
            targets: Vec::new(alloc),
            weights: Vec::new(alloc),
        }
    }

    /// Stores the numbers of tokens of one part of the file, up to the first that has a fault.
    pub(crate) fn store(&mut self, part: &[Mark], rule: Rule) -> Result<Stored, AllocError>
        requires { bound_of rule < 2 ^ 32 }

        ensures count { IfOk result (λ s. s.count ≤ length part.now) }
        ensures whole { IfOk result (λ s. IfNone s.kind (s.count ≡ length part.now)) }
        ensures stopped { IfOk result (λ s. IfSome s.kind (λ _. s.count < length part.now)) }

        ensures none { (ws : List Word) (token : ℕ) → AreMarks ws token part.now → AreRuled ws token (length part.now) rule
            → IfOk result (λ s. (j : ℕ) → token ≤ j → j < token + s.count → kind_at ws j ≡ None) }
        ensures fault { (ws : List Word) (token : ℕ) → AreMarks ws token part.now → AreRuled ws token (length part.now) rule
            → IfOk result (λ s. IfSome s.kind (λ kind. kind_at ws (token + s.count) ≡ Some kind)) }
        ensures lists { (ws : List Word) (token : ℕ) → AreMarks ws token part.now → AreRuled ws token (length part.now) rule
            → IsPart ws rule token (token + length part.now) → AreLists ws token self.old
            → IfOk result (λ s. AreLists ws (token + s.count) self.new) }
    {
        match rule {
            Rule::Count { .. } | Rule::Offset { .. } => store(part, rule, &mut self.offsets),
            Rule::Target { .. } => store(part, rule, &mut self.targets),
            Rule::Weight => store(part, rule, &mut self.weights),
        }
    }

    /// Appends the numbers of tokens of one part of the file, which gets at most so many more.
    pub(crate) fn append(&mut self, values: &[u32], rule: Rule, more: u64) -> Result<(), AllocError>
        ensures { (ws : List Word) (token : ℕ) → AreValues ws token values.now
            → IsPart ws rule token (token + length values.now) → AreLists ws token self.old
            → OnOk result (AreLists ws (token + length values.now) self.new) }
    {
        match rule {
            Rule::Count { .. } | Rule::Offset { .. } => append(values, more, &mut self.offsets),
            Rule::Target { .. } => append(values, more, &mut self.targets),
            Rule::Weight => append(values, more, &mut self.weights),
        }
    }
}
