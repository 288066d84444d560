//! The board on which chunks are taken: a chunk is given to one seat and to no other.
//!
//! Between any two steps the rule of `claim_rule` holds.
ghost use Rattle.std.specs.Prelude.{◌≡◌, ℕ, ◌+◌, ◌<◌, ◌≤◌, ◌^◌, [], true, IfOk};
ghost use Rattle.jul_pool.specs.Claims.{root_view, part_view, after_take, with_part, joined};
ghost use Rattle.jul_base.specs.Times.{times};

use crate::claim_rule::{ClaimRule, Lend, Return, Take, View};
use atomic_table::Table;
use std::alloc::{AllocError, Global};

/// The value through which one thread takes chunks. It takes no bytes.
pub type Seat = atomic_table::Seat<u8, View>;

/// A word for each chunk, which says whether the chunk was taken.
#[derive(Drop)]
pub struct Board {
    table: Table<u8, View, u32, ClaimRule, Global>,
    pub chunks: u32,
    ghost word_for_each: { table.shared.table_id.words ≡ chunks + 1 },
    ghost key_is: { table.shared.key ≡ chunks },
    ghost no_slots: { table.shared.table_id.slots ≡ 0 },
}

impl Board {
    /// A board for this number of chunks, of which none is taken, with its root seat.
    pub fn open(alloc: Global, chunks: u32) -> Result<(Board, Seat), AllocError>
        ensures table { IfOk result (λ r. r.1.table_id ≡ r.0.table.shared.table_id) }
        ensures chunks { IfOk result (λ r. r.0.chunks ≡ chunks) }
        ensures root { IfOk result (λ r. r.1.me ≡ (root_view, [])) }
    {
        let words = vec![in alloc; 0u64; chunks as usize + 1]?;
        let (table, seat) = Table::of_words(alloc, words.as_slice(), &chunks)?;
        Ok((Board { table, chunks }, seat))
    }

    /// Takes a chunk, in one step. The answer is whether it is this seat's: it is on the board, and no seat had taken it.
    #[inline]
    pub fn take(&self, seat: &mut Seat, chunk: u32) -> bool
        requires table { seat.old.table_id ≡ self.now.table.shared.table_id }
        requires live { 0 < seat.old.me.0.root + seat.old.me.0.part }

        ensures table { seat.new.table_id ≡ seat.old.table_id }
        ensures taken { seat.new.me ≡ (after_take seat.old.me.0 chunk result, seat.old.me.1) }
        ensures on_board { result ≡ true → chunk < self.now.chunks }
        ensures alone { seat.old.me.0.root ≡ 1 → seat.old.me.0.out ≡ 0 → chunk < self.now.chunks →
            times chunk seat.old.me.0.chunks ≡ 0 → result ≡ true }
    {
        if chunk >= self.chunks {
            return false;
        }
        self.table.shared.swap::<Take>(seat, chunk as usize + 1, 1) == 0
    }

    /// A seat for another thread.
    pub fn split(&self, seat: &mut Seat) -> Seat
        requires table { seat.old.table_id ≡ self.now.table.shared.table_id }
        requires root { seat.old.me.0.root ≡ 1 }

        ensures table { (seat.new.table_id ≡ seat.old.table_id) × (result.table_id ≡ seat.old.table_id) }
        ensures root { seat.new.me ≡ (with_part seat.old.me.0, seat.old.me.1) }
        ensures part { result.me ≡ (part_view, []) }
    {
        self.table.shared.split_seat::<Lend>(seat)
    }

    /// Takes a seat back.
    pub fn join(&self, seat: &mut Seat, other: Seat)
        requires table { seat.old.table_id ≡ self.now.table.shared.table_id }
        requires root { seat.old.me.0.root ≡ 1 }
        requires kin { other.table_id ≡ seat.old.table_id }
        requires part { (other.me.0.root ≡ 0) × (other.me.0.part ≡ 1) × (other.me.1 ≡ []) }

        ensures table { seat.new.table_id ≡ seat.old.table_id }
        ensures root { seat.new.me ≡ (joined seat.old.me.0 other.me.0, seat.old.me.1) }
    {
        self.table.shared.join_seat::<Return>(seat, other);
    }

    /// Closes the board once every seat is back. No chunk was taken twice.
    pub fn close(self, seat: Seat)
        requires table { seat.table_id ≡ self.table.shared.table_id }
        requires root { seat.me.0.root ≡ 1 }
        requires none_out { seat.me.0.out ≡ 0 }

        ensures { (chunk : ℕ) → times chunk seat.me.0.chunks ≤ 1 }
    {
        let Board { table, chunks: _ } = self;
        table.close_with(seat).free();
    }
}
