//! Remainders by a divisor that stays the same: a multiplication takes less time than a division.
ghost use Rattle.std.specs.Prelude.{◌≡◌, ◌-◌, ◌/◌, ◌%◌, ◌<◌, ◌≤◌, ◌^◌};

/// A number by which others are divided.
#[derive(Clone, Copy)]
pub(crate) struct Divisor {
    number: u64,
    // How often it goes into the greatest word.
    times: u64,
    ghost some: { 1 ≤ number },
    ghost small: { number < 2 ^ 32 },
    ghost times_is: { times ≡ (2 ^ 64 - 1) / number },
}

impl Divisor {
    /// The divisor that is this number.
    pub(crate) fn new(number: u32) -> Divisor
        requires { 1 ≤ number }

        ensures { result.number ≡ number }
    {
        let number = u64::from(number);
        Divisor {
            number,
            times: u64::MAX / number,
        }
    }

    /// What is left of a word. The quotient that is tried is the true one or one less.
    #[inline]
    pub(crate) fn remainder(self, word: u64) -> u32
        ensures { result ≡ word % self.number }
    {
        let quotient = ((u128::from(word) * u128::from(self.times)) >> 64) as u64;
        let rest = word - quotient * self.number;
        let rest = if rest < self.number {
            rest
        } else {
            rest - self.number
        };
        rest as u32
    }
}
