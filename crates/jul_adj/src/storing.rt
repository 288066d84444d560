//! Numbers of a graph file, stored from the marks of their tokens.
ghost use Rattle.std.specs.Prelude.{◌≡◌, ℕ, ◌+◌, ◌<◌, ◌≤◌, ◌^◌, List, length, IfOk, IfErr, IfSome, IfNone, None, Some};
ghost use Rattle.jul_text.specs.declared.shapes.Shape.TheVariants.{Digits};
ghost use Rattle.jul_text.specs.Tokens.{Word};
ghost use Rattle.jul_text.specs.Shapes.{number_of};
ghost use Rattle.jul_adj.specs.Faults.{kind_at};
ghost use Rattle.jul_adj.specs.Rules.{bound_of, rule_fault, AreRuled};
ghost use Rattle.jul_adj.specs.Storing.{AreMarks, AreStored};

use crate::faults::FaultKind;
use crate::rules::{Rule, bound, fault_by, next_rule};
use jul_text::{Mark, Numeral, Shape, shape_number};
use std::alloc::AllocError;

/// How many numbers were stored, and the fault of the token behind them where one stopped it.
#[derive(Clone, Copy)]
pub(crate) struct Stored {
    pub(crate) count: usize,
    pub(crate) kind: Option<FaultKind>,
}

/// The number of a token that meets its rule, or the token's fault.
#[inline(always)]
pub(crate) fn number(shape: Shape, rule: Rule) -> Result<u64, FaultKind>
    ensures digits { IfOk result (λ v. shape ≡ Digits v) }
    ensures within { IfOk result (λ v. v ≤ bound_of rule) }
    ensures none { IfOk result (λ v. rule_fault rule (number_of shape (bound_of rule)) ≡ None) }

    ensures fault { IfErr result (λ kind. rule_fault rule (number_of shape (bound_of rule)) ≡ Some kind) }
{
    let numeral = shape_number(shape, bound(rule));
    if let Some(kind) = fault_by(rule, numeral) {
        return Err(kind);
    }
    match numeral {
        Numeral::Value(value) => Ok(value),
        _ => Err(FaultKind::BadNumber),
    }
}

/// Stores the numbers of the tokens up to the first that has a fault.
#[inline(always)]
pub(crate) fn store(marks: &[Mark], rule: Rule, values: &mut Vec<u32>) -> Result<Stored, AllocError>
    requires { bound_of rule < 2 ^ 32 }

    ensures count { IfOk result (λ s. s.count ≤ length marks.now) }
    ensures whole { IfOk result (λ s. IfNone s.kind (s.count ≡ length marks.now)) }
    ensures stopped { IfOk result (λ s. IfSome s.kind (λ _. s.count < length marks.now)) }

    ensures stored { (ws : List Word) (token : ℕ) → AreMarks ws token marks.now
        → AreRuled ws token (length marks.now) rule
        → IfOk result (λ s. AreStored ws token s.count values.old.items values.new.items) }
    ensures fault { (ws : List Word) (token : ℕ) → AreMarks ws token marks.now
        → AreRuled ws token (length marks.now) rule
        → IfOk result (λ s. IfSome s.kind (λ kind. kind_at ws (token + s.count) ≡ Some kind)) }
{
    let mut rule = rule;
    let mut count = 0;
    for mark in marks {
        match number(mark.shape, rule) {
            Ok(value) => {
                values.push(value as u32)?;
                rule = next_rule(rule, value);
                count += 1;
            }
            Err(kind) => {
                return Ok(Stored {
                    count,
                    kind: Some(kind),
                });
            }
        }
    }
    Ok(Stored { count, kind: None })
}
