//! What the root learns of the words after a round.
ghost use Rattle.std.specs.Prelude.{◌≡◌, ◌<◌, length, All, OnOk};
ghost use Rattle.jul_words.specs.Seats.{IsSeatOf, IsAlone};
ghost use Rattle.jul_words.specs.Least.{word_of};
ghost use Rattle.jul_dist.specs.Moving.{HasTaken};

use jul_words::{MinSeat, MinWords};
use std::alloc::AllocError;

/// Takes over the words of these vertices where they are below the values, and lists the vertices whose values fell in
/// place of what `fell` held.
///
/// A word that is no less than the value tells nothing new, as that of a vertex that stands in the list again.
pub(crate) fn take_words(
    words: &MinWords,
    seat: &mut MinSeat,
    ids: &[u32],
    values: &mut [u64],
    fell: &mut Vec<u32>,
) -> Result<(), AllocError>
    requires table { IsSeatOf words.now seat.old }
    requires alone { IsAlone seat.old }
    requires words { length seat.old.home.starts ≡ length values.old }
    requires within { All (λ v. v < length values.old) ids.now }

    ensures same { seat.new ≡ seat.old }
    ensures taken { OnOk result (HasTaken (word_of seat.old) values.old values.new ids.now fell.new.items) }
{
    fell.clear();
    for id in ids {
        let word = words.load(seat, *id);
        if word < values[*id as usize] {
            values[*id as usize] = word;
            fell.push(*id)?;
        }
    }
    Ok(())
}
