//! Sums of what stands before.
ghost use Rattle.std.specs.Prelude.{◌≡◌, ℕ, ◌<◌, ◌^◌, length, sum, take, slice_index};

/// For each number the sum of those before it: where each part begins, when parts of these sizes stand one behind another.
pub fn sums_before(mut numbers: Vec<u32>) -> Vec<u32>
    requires fits { sum numbers.items < 2 ^ 32 }

    ensures len { length result.items ≡ length numbers.items }
    ensures sums { (i : ℕ) → i < length numbers.items →
        slice_index result.items i ≡ sum (take i numbers.items) }
{
    let mut total = 0;
    for number in numbers.iter_mut() {
        let here = *number;
        *number = total;
        total += here;
    }
    numbers
}
