//! The calls of an object in memory that are to fail.
ghost use Rattle.std.specs.Prelude.{◌≡◌};
ghost use Rattle.jul_base.specs.Memory.{is_listed};

/// Whether the call of this number is to fail.
pub fn is_to_fail(fails: &Vec<u64>, call: u64) -> bool
    ensures { result ≡ is_listed fails.now.items call }
{
    fails.contains(&call)
}
