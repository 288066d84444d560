//! Numbers that are taken many at a time.
ghost use Rattle.std.specs.Prelude.{◌≡◌, ◌≤◌, ◌<◌, ◌++◌, length, IsTrue, OnOk};
ghost use Rattle.std.specs.List.{All};
ghost use Rattle.jul_adj.specs.Values.{Rises, Meets};

use crate::rules::{Rule, bound};
use std::alloc::AllocError;

// Whether no number is below the one before it, the first not below `from`.
fn rises(from: u64, values: &[u32]) -> bool
    ensures { IsTrue result → Rises from values.now }
{
    let mut before = from;
    for value in values {
        let next = u64::from(*value);
        if next < before {
            return false;
        }
        before = next;
    }
    true
}

/// Whether numbers up to a bound meet a rule, one behind the other. Where one alone is looked for, the answer is false.
pub(crate) fn admits(rule: Rule, most: u32, values: &[u32]) -> bool
    requires { All (λ v. v ≤ most) values.now }

    ensures { IsTrue result → Meets rule values.now }
{
    let most = u64::from(most);
    most <= bound(rule)
        && match rule {
            Rule::Count { .. } => false,
            Rule::Offset { before, .. } => rises(before, values),
            Rule::Target { vertices } => most < vertices,
            Rule::Weight => true,
        }
}

/// Appends numbers to a list that gets at most so many more.
///
/// A list without room for them grows to nine times its length, or to all that it gets: a long list is seldom moved,
/// and the memory of a short file is small, whatever its header says.
pub(crate) fn append(values: &[u32], more: u64, list: &mut Vec<u32>) -> Result<(), AllocError>
    ensures { OnOk result (list.new.items ≡ list.old.items ++ values.now) }
{
    let len = list.len();
    if list.capacity() - len < values.len() {
        let room = (more as usize).min(len.saturating_mul(8));
        list.reserve_exact(room.max(values.len()))?;
    }
    list.extend_from_slice(values)
}
