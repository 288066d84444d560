//! A graph file that is read from the marks of its tokens, some at a time.
ghost use Rattle.std.specs.Prelude.{◌≡◌, ℕ, ◌+◌, ◌-◌, ◌<◌, ◌≤◌, ◌^◌, List, [], ◌∷◌, length, take, IfOk, IfSome, IfNone, OnOk, IsTrue, false, None, Some};
ghost use Rattle.std.specs.List.{All};
ghost use Rattle.std.specs.Str.{bytes_eq};
ghost use Rattle.jul_text.specs.Tokens.{Word};
ghost use Rattle.jul_text.specs.Shapes.{shape};
ghost use Rattle.jul_adj.specs.Faults.{header_fault};
ghost use Rattle.jul_adj.specs.Roles.{weighted_word, all_tokens};
ghost use Rattle.jul_adj.specs.Rules.{bound_of, AreRuled};
ghost use Rattle.jul_adj.specs.Reading.{read_tokens};
ghost use Rattle.jul_adj.specs.Storing.{AreMarks};
ghost use Rattle.jul_adj.specs.Values.{HaveValues};
ghost use Rattle.jul_text.specs.declared.shapes.Mark.{Mark};

use crate::faults::{Fault, FaultKind};
use crate::lists::Lists;
use crate::rules::Rule;
use crate::sizes::Sizes;
use crate::storing::number;
use crate::values::admits;
use jul_base::{Ids, MAX_M, MAX_N, RawGraph};
use jul_text::{Mark, Shape};
use std::alloc::{AllocError, Global};

/// A graph file of which the first tokens were read.
#[derive(Drop)]
pub(crate) struct Reading {
    // The number of the next token.
    token: u64,
    // The first fault, once one is found. Nothing more is read then.
    fault: Option<Fault>,
    sizes: Sizes,
    lists: Lists,
}

// Whether the first token says that there are weights, if it is a word of a header.
fn header(first: Shape) -> Option<bool>
    ensures word { (text : List ℕ) → first ≡ shape text → IfSome result (λ w. header_fault text ≡ None) }
    ensures weighted { (text : List ℕ) → first ≡ shape text → IfSome result (λ w. bytes_eq text weighted_word ≡ w) }
    ensures none { (text : List ℕ) → first ≡ shape text → IfNone result (header_fault text ≡ Some FaultKind.Header) }
{
    match first {
        Shape::Plain => Some(false),
        Shape::Weighted => Some(true),
        _ => None,
    }
}

// The first of the marks, at most so many.
fn front(marks: &[Mark], most: u64) -> &[Mark]
    ensures { result.now ≡ take most marks.now }
{
    if most < marks.len() as u64 {
        &marks[..most as usize]
    } else {
        marks
    }
}

impl Reading {
    ghost use Rattle.jul_adj.specs.Readings.{AreSizes, IsClear, IsPart, HasRead};

    /// A file of which nothing was read. Takes no memory.
    pub(crate) fn new(alloc: Global) -> Reading
        ensures { (ws : List Word) → HasRead ws 0 result }
    {
        Reading {
            token: 0,
            fault: None,
            sizes: Sizes {
                weighted: false,
                vertices: 0,
                places: 0,
            },
            lists: Lists::new(alloc),
        }
    }

    // Notes the fault of the next token, which has this mark.
    fn refuse(&mut self, kind: FaultKind, mark: Mark)
        ensures { self.new.fault ≡ Some (record { kind = kind; token = self.old.token; at = mark.start }) }
    {
        self.fault = Some(Fault {
            kind,
            token: self.token,
            at: mark.start,
        });
    }

    fn take_header(&mut self, mark: Mark)
        requires clear { self.old.fault ≡ None }
        requires token { self.old.token ≡ 0 }

        ensures { (ws : List Word) → HasRead ws 0 self.old → AreMarks ws 0 (mark ∷ []) → HasRead ws 1 self.new }
    {
        match header(mark.shape) {
            Some(weighted) => {
                self.sizes.weighted = weighted;
                self.token = 1;
            }
            None => self.refuse(FaultKind::Header, mark),
        }
    }

    fn take_vertices(&mut self, mark: Mark)
        requires clear { self.old.fault ≡ None }
        requires token { self.old.token ≡ 1 }

        ensures { (ws : List Word) → HasRead ws 1 self.old → AreMarks ws 1 (mark ∷ []) → HasRead ws 2 self.new }
    {
        let rule = Rule::Count {
            bound: MAX_N as u64,
            above: FaultKind::TooManyVertices,
        };
        match number(mark.shape, rule) {
            Ok(vertices) => {
                self.sizes.vertices = vertices as u32;
                self.token = 2;
            }
            Err(kind) => self.refuse(kind, mark),
        }
    }

    fn take_places(&mut self, mark: Mark)
        requires clear { self.old.fault ≡ None }
        requires token { self.old.token ≡ 2 }

        ensures { (ws : List Word) → HasRead ws 2 self.old → AreMarks ws 2 (mark ∷ []) → HasRead ws 3 self.new }
    {
        let rule = Rule::Count {
            bound: MAX_M as u64,
            above: FaultKind::TooManyEdges,
        };
        match number(mark.shape, rule) {
            Ok(places) => {
                self.sizes.places = places as u32;
                self.token = 3;
            }
            Err(kind) => self.refuse(kind, mark),
        }
    }

    // The rule of the next token, and the number of the first token behind it that has a rule of another kind. None
    // behind the last token of the graph.
    fn next_part(&self) -> Option<(Rule, u64)>
        requires { 2 < self.now.token }

        ensures ahead { IfSome result (λ p. self.now.token < p.1) }
        ensures small { IfSome result (λ p. bound_of p.0 < 2 ^ 32) }
        ensures near { IfSome result (λ p. p.1 < 2 ^ 35) }
        ensures part { (ws : List Word) → IsClear ws self.now.token self.now.sizes self.now.lists
            → IfSome result (λ p. IsPart ws p.0 self.now.token p.1) }
        ensures ruled { (ws : List Word) → IsClear ws self.now.token self.now.sizes self.now.lists
            → IfSome result (λ p. AreRuled ws self.now.token (p.1 - self.now.token) p.0) }
        ensures none { (ws : List Word) → IsClear ws self.now.token self.now.sizes self.now.lists
            → IfNone result (all_tokens ws ≤ self.now.token) }
    {
        let sizes = self.sizes;
        if self.token < sizes.first_target() {
            return Some(self.next_offset());
        }
        if self.token < sizes.first_weight() {
            let vertices = u64::from(sizes.vertices);
            return Some((Rule::Target { vertices }, sizes.first_weight()));
        }
        if self.token < sizes.all_tokens() {
            return Some((Rule::Weight, sizes.all_tokens()));
        }
        None
    }

    // The rule of the next token, which is an offset, and the number of the first token behind it that has another.
    fn next_offset(&self) -> (Rule, u64)
        requires start { 2 < self.now.token }
        requires offset { self.now.token < 3 + self.now.sizes.vertices }

        ensures ahead { self.now.token < result.1 }
        ensures small { bound_of result.0 < 2 ^ 32 }
        ensures near { result.1 < 2 ^ 35 }
        ensures part { (ws : List Word) → IsClear ws self.now.token self.now.sizes self.now.lists
            → IsPart ws result.0 self.now.token result.1 }
        ensures ruled { (ws : List Word) → IsClear ws self.now.token self.now.sizes self.now.lists
            → AreRuled ws self.now.token (result.1 - self.now.token) result.0 }
    {
        let end = self.sizes.first_target();
        match self.lists.offsets.last() {
            Some(before) => {
                let rule = Rule::Offset {
                    before: u64::from(*before),
                    places: u64::from(self.sizes.places),
                };
                (rule, end)
            }
            None => {
                let rule = Rule::Count {
                    bound: 0,
                    above: FaultKind::FirstOffset,
                };
                (rule, self.token + 1)
            }
        }
    }

    // Takes some of the tokens behind the header and the two numbers.
    fn take_rows(&mut self, marks: &[Mark]) -> Result<usize, AllocError>
        requires clear { self.old.fault ≡ None }
        requires start { 2 < self.old.token }
        requires some { 0 < length marks.now }

        ensures some { IfOk result (λ n. 0 < n) }
        ensures count { IfOk result (λ n. n ≤ length marks.now) }
        ensures read { (ws : List Word) → HasRead ws self.old.token self.old → AreMarks ws self.old.token marks.now
            → IfOk result (λ n. HasRead ws (self.old.token + n) self.new) }
    {
        let Some((rule, end)) = self.next_part() else {
            self.refuse(FaultKind::Trailing, marks[0]);
            return Ok(1);
        };
        let part = front(marks, end - self.token);
        let stored = self.lists.store(part, rule)?;
        self.token += stored.count as u64;
        match stored.kind {
            None => Ok(stored.count),
            Some(kind) => {
                self.refuse(kind, part[stored.count]);
                Ok(stored.count + 1)
            }
        }
    }

    // Takes some of the next tokens: those of one part of the file, up to the first that has a fault.
    fn take_some(&mut self, marks: &[Mark]) -> Result<usize, AllocError>
        requires clear { self.old.fault ≡ None }
        requires some { 0 < length marks.now }

        ensures some { IfOk result (λ n. 0 < n) }
        ensures count { IfOk result (λ n. n ≤ length marks.now) }
        ensures read { (ws : List Word) → HasRead ws self.old.token self.old → AreMarks ws self.old.token marks.now
            → IfOk result (λ n. HasRead ws (self.old.token + n) self.new) }
    {
        match self.token {
            0 => self.take_header(marks[0]),
            1 => self.take_vertices(marks[0]),
            2 => self.take_places(marks[0]),
            _ => return self.take_rows(marks),
        }
        Ok(1)
    }

    /// Takes the next tokens of the file, by their marks. Behind a first fault none is looked at.
    pub(crate) fn take(&mut self, marks: &[Mark]) -> Result<(), AllocError>
        ensures { (ws : List Word) (token : ℕ) → HasRead ws token self.old → AreMarks ws token marks.now
            → OnOk result (HasRead ws (token + length marks.now) self.new) }
    {
        let mut at = 0;
        while at < marks.len() {
            if let Some(_) = self.fault {
                return Ok(());
            }
            at += self.take_some(&marks[at..])?;
        }
        Ok(())
    }

    /// The greatest number that the next tokens may be, where they are several that are alike. Takes no memory.
    pub(crate) fn bound(&self) -> Option<u32> {
        if self.token < 3 || self.fault.is_some() {
            return None;
        }
        match self.next_part()?.0 {
            Rule::Count { .. } => None,
            Rule::Offset { .. } => Some(self.sizes.places),
            Rule::Target { .. } => self.sizes.vertices.checked_sub(1),
            Rule::Weight => Some(u32::MAX),
        }
    }

    /// Takes the next tokens by their values, which are at most `most`, if all are of one part of the file and meet its
    /// rule. The answer tells whether they were taken; if it is false, nothing has changed.
    pub(crate) fn take_values(&mut self, values: &[u32], most: u32) -> Result<bool, AllocError>
        requires { All (λ v. v ≤ most) values.now }

        ensures taken { (ws : List Word) (token : ℕ) (marks : List Mark) → HasRead ws token self.old
            → AreMarks ws token marks → HaveValues marks values.now
            → IfOk result (λ t. IsTrue t → HasRead ws (token + length marks) self.new) }
        ensures refused { IfOk result (λ t. t ≡ false → self.new ≡ self.old) }
    {
        if self.token < 3 {
            return Ok(false);
        }
        if let Some(_) = self.fault {
            return Ok(false);
        }
        let Some((rule, end)) = self.next_part() else {
            return Ok(false);
        };
        let more = end - self.token;
        if more < values.len() as u64 || !admits(rule, most, values) {
            return Ok(false);
        }
        self.lists.append(values, rule, more)?;
        self.token += values.len() as u64;
        Ok(true)
    }

    /// What the file says, of so many bytes, whose tokens were all taken. Takes no memory.
    pub(crate) fn finish(self, len: u64) -> Result<RawGraph, Fault>
        ensures { (ws : List Word) → HasRead ws (length ws) self → result ≡ read_tokens ws len }
    {
        if let Some(fault) = self.fault {
            return Err(fault);
        }
        if self.token < 3 || self.token < self.sizes.all_tokens() {
            return Err(Fault {
                kind: FaultKind::Truncated,
                token: self.token,
                at: len,
            });
        }
        Ok(RawGraph {
            weighted: self.sizes.weighted,
            offsets: Ids::from_vec(self.lists.offsets),
            targets: Ids::from_vec(self.lists.targets),
            weights: Ids::from_vec(self.lists.weights),
        })
    }
}
