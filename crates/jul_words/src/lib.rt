//! Tables of words that many threads change at once by single atomic steps.
//!
//! Each thread makes its steps through a seat, which logs them. What a word contains at any moment is
//! exactly what the logs of all seats say: the least number offered, the adds less the drains, or the
//! greatest round. Start with `MinWords`, `CountWords` or `StampWords`.
#![tactic(auto)]

mod count_words;
mod floors;
mod hands;
mod min_words;
mod pairs;
mod stamp_words;
mod tables;
mod tags;
mod views;

pub use count_words::{CountSeat, CountWords};
pub use floors::{Floors, ZeroFloors};
pub use hands::{CountHand, MinHand, StampHand};
pub use min_words::{MinSeat, MinWords};
pub use pairs::Both;
pub use stamp_words::{StampSeat, StampWords};

#[cfg(test)]
mod four_threads;
#[cfg(test)]
mod tests;
