//! Lists put in order.
ghost use Rattle.std.specs.Prelude.{◌↔◌, ℕ, Contains};
ghost use Rattle.std.specs.List.Sorted.{IsStrictlyIncreasing};

/// The ids, each once, in increasing order. Takes no memory.
pub fn in_order(mut ids: Vec<u32>) -> Vec<u32>
    ensures increasing { IsStrictlyIncreasing result.items }
    ensures same { (id : ℕ) → Contains result.items id ↔ Contains ids.items id }
{
    ids.sort_unstable();
    ids.dedup();
    ids
}
