//! Laws, which the contracts of calls carry: what the type of the numbers of a list says of each. They do nothing when
//! they run.
ghost use Rattle.std.specs.Prelude.{◌<◌, ◌^◌};
ghost use Rattle.std.specs.List.{All};

use jul_base::Column;

/// The numbers of a column have 64 bits.
pub(crate) fn has_64_bits(column: &Column)
    ensures { All (λ x. x < 2 ^ 64) column.now }
{
    fit_64_bits(column.as_slice());
}

/// The numbers of a list of 64 bits do.
fn fit_64_bits(numbers: &[u64])
    ensures { All (λ x. x < 2 ^ 64) numbers.now }
{
    let _numbers = numbers;
}

/// The numbers of a list of 32 bits do.
pub(crate) fn fit_32_bits(numbers: &[u32])
    ensures { All (λ x. x < 2 ^ 32) numbers.now }
{
    let _numbers = numbers;
}
