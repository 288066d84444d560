//! The numbers of a summary: how many vertices have something, and the greatest of a column.
ghost use Rattle.std.specs.Prelude.{◌≡◌};
ghost use Rattle.jul_witness.specs.Summaries.{greatest, times_in, numbers_of, number_count};

use jul_base::{Column, NONE};

/// The greatest number of a column, 0 where it is empty. `NONE` counts as any number. One pass; takes no memory.
pub fn greatest_value(column: &Column) -> u64
    ensures { result ≡ greatest column.now }
{
    let mut most = 0u64;
    for value in column.as_slice() {
        most = most.max(*value);
    }
    most
}

/// How many vertices of a column have a value. One pass; takes no memory.
pub fn times_in(column: &Column, value: u64) -> u64
    ensures { result ≡ times_in column.now value }
{
    column.as_slice().iter().filter(|x| **x == value).count() as u64
}

/// How many vertices of a column have a number. One pass; takes no memory.
pub fn number_count(column: &Column) -> u64
    ensures { result ≡ number_count column.now }
{
    column.as_slice().iter().filter(|x| **x != NONE).count() as u64
}

/// The greatest number of a column, 0 where no vertex has one. One pass; takes no memory.
pub fn greatest_number(column: &Column) -> u64
    ensures { result ≡ greatest (numbers_of column.now) }
{
    let mut most = 0u64;
    for value in column.as_slice() {
        if *value != NONE {
            most = most.max(*value);
        }
    }
    most
}
