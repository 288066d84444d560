//! Words that the root takes back to 0.
ghost use Rattle.std.specs.Prelude.{◌≡◌, ℕ, ◌<◌, length, map, All, OnOk};
ghost use Rattle.jul_words.specs.Seats.{IsSeatOf, IsAlone};
ghost use Rattle.jul_words.specs.Counts.{IsFew, AreTallies};
ghost use Rattle.jul_count.specs.Counts.{AreApart};
ghost use Rattle.jul_count.specs.Counting.{word_in, drained_each};

use jul_words::{CountSeat, CountWords};
use std::alloc::AllocError;

/// So many words are read ahead of their drains.
const AHEAD: usize = 64;

/// Drains the words of these vertices one by one, and lists each with what it was, in place of what `list` held.
///
/// A drain is a locked step, which waits for all reads before it, so that one drain after another waits for its word alone.
/// The words of a block are therefore read ahead.
pub(crate) fn drain_each(
    counts: &CountWords,
    seat: &mut CountSeat,
    ids: &[u32],
    list: &mut Vec<(u32, u64)>,
) -> Result<(), AllocError>
    requires table { IsSeatOf counts.now seat.old }
    requires alone { IsAlone seat.old }
    requires apart { AreApart ids.now }
    requires within { All (λ v. v < length seat.old.home.starts) ids.now }
    requires few { All (λ v. IsFew v seat.old.log) ids.now }

    ensures drains { OnOk result (list.new.items ≡ map (word_in seat.old.log) ids.now) }
    ensures seat { OnOk result (seat.new ≡ record {
      home = seat.old.home;
      root = seat.old.root;
      out = seat.old.out;
      log = drained_each seat.old.log ids.now;
    }) }
{
    list.clear();
    for (at, id) in ids.iter().enumerate() {
        if at % AHEAD == 0 {
            touch_block(counts, seat, ids, at);
        }
        list.push((*id, counts.drain(seat, *id)))?;
    }
    Ok(())
}

/// Reads the words of the vertices from `at` on ahead, as many as are in a block.
fn touch_block(counts: &CountWords, seat: &CountSeat, ids: &[u32], at: usize)
    requires table { IsSeatOf counts.now seat.now }
    requires within { All (λ v. v < length seat.now.home.starts) ids.now }
{
    for k in at..ids.len().min(at.saturating_add(AHEAD)) {
        counts.touch(seat, ids[k]);
    }
}

/// The root with none out learns what its log says of the words. Three loads.
pub(crate) fn learn(counts: &CountWords, seat: &mut CountSeat)
    requires table { IsSeatOf counts.now seat.old }
    requires alone { IsAlone seat.old }

    ensures same { seat.new ≡ seat.old }
    ensures settled { AreTallies seat.new.home seat.new.log }
{
    let part = counts.split(seat);
    counts.join(seat, part);
}
