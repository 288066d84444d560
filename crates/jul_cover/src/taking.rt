//! What the root takes over from the words of the owners.
ghost use Rattle.std.specs.Prelude.{◌≡◌, ◌<◌, length, All};
ghost use Rattle.std.specs.List.{flat_map};
ghost use Rattle.jul_words.specs.Seats.{IsSeatOf, IsAlone};
ghost use Rattle.jul_words.specs.Least.{word_of};
ghost use Rattle.jul_cover.specs.PackedSets.{pack_at, ArePacked, AreOpen};
ghost use Rattle.jul_cover.specs.Offers.{IsRootOf};
ghost use Rattle.jul_cover.specs.Columns.{AreWritten};

use crate::columns::Columns;
use crate::packed_sets::PackedSets;
use crate::packing::pack_of;
use jul_base::NONE;
use jul_words::{MinSeat, MinWords};

/// Writes the round of each chosen set, and at each of its elements what the word of the owner has become and whether it is
/// still open.
pub(crate) fn take_chosen(
    packs: &PackedSets,
    chosen: &[u32],
    t: u64,
    words: &MinWords,
    seat: &mut MinSeat,
    columns: &mut Columns,
)
    requires packed { ArePacked packs.now }
    requires in_range { All (λ s. s < packs.now.n) chosen.now }
    requires root { IsRootOf packs.now.n words.now seat.old }
    requires round { length columns.old.round.items ≡ packs.now.n }
    requires by { length columns.old.by.items ≡ packs.now.n }
    requires marks { AreOpen columns.old.marks.items columns.old.by.items }

    ensures same { seat.new ≡ seat.old }
    ensures round { AreWritten chosen.now (λ _. t) columns.old.round.items columns.new.round.items }
    ensures by { AreWritten (flat_map (pack_at packs.now) chosen.now) (word_of seat.old)
        columns.old.by.items columns.new.by.items }
    ensures marks { AreOpen columns.new.marks.items columns.new.by.items }
{
    for s in chosen {
        columns.round[*s as usize] = t;
        take_words(pack_of(packs, *s), words, seat, columns);
    }
}

/// Writes at each of these elements what its word has become, and whether that is `NONE`.
fn take_words(elements: &[u32], words: &MinWords, seat: &mut MinSeat, columns: &mut Columns)
    requires table { IsSeatOf words.now seat.old }
    requires alone { IsAlone seat.old }
    requires words { All (λ e. e < length seat.old.home.starts) elements.now }
    requires by { All (λ e. e < length columns.old.by.items) elements.now }
    requires marks { AreOpen columns.old.marks.items columns.old.by.items }

    ensures same { seat.new ≡ seat.old }
    ensures round { columns.new.round.items ≡ columns.old.round.items }
    ensures by { AreWritten elements.now (word_of seat.old) columns.old.by.items columns.new.by.items }
    ensures marks { AreOpen columns.new.marks.items columns.new.by.items }
{
    for e in elements {
        let word = words.load(seat, *e);
        columns.by[*e as usize] = word;
        columns.marks[*e as usize] = word == NONE;
    }
}
