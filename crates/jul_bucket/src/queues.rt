//! Ids in a queue by their ranks: a list of ranks, and copies of the ids in near lists and in levels.
ghost use Rattle.std.specs.Prelude.{◌≡◌, ◌≢◌, ◌<◌, ◌≤◌, ◌+◌, ◌-◌, ℕ, [], IfOk, OnOk, OnErr, MatchOption, length, All};
ghost use Rattle.jul_base.specs.declared.limits.TheConstants.{NONE, MAX_N};
ghost use Rattle.jul_bucket.specs.declared.limits.TheConstants.{MAX_OPEN};
ghost use Rattle.jul_bucket.specs.declared.orders.Order.TheVariants.{Increasing};
ghost use Rattle.jul_bucket.specs.declared.queues.Spot.TheVariants.{Near, Far};
ghost use Rattle.jul_bucket.specs.Orders.{turn};
ghost use Rattle.jul_bucket.specs.Places.{AllNone, IsFirstHeld, NoneBehind, emptied, ids_at, set_places};
ghost use Rattle.jul_bucket.specs.States.{IsFirstFront};
ghost use Rattle.jul_bucket.specs.Ranks.{Ranked, IsTaken, IsHeld, after_reaching, start_at, turned_moves};
ghost use Rattle.jul_bucket.specs.Copies.{copies_at};
ghost use Rattle.jul_bucket.specs.QueueViews.{ranked_of, IsQueue, IsSpot};

use crate::copies::{clear_lists, find_level, find_open};
use crate::gathering::{Held, Taken, ids_of, settle, take_out, taken_of};
use crate::levels::{first_bounds, next_bounds};
use crate::limits::{BOUNDS, LEVELS, NEAR_LISTS};
use crate::orders::Order;
use crate::putting::{put_ids, put_moves, set_ranks, spread};
use jul_base::NONE;
use std::alloc::{AllocError, Global};

/// A rank for each id, or `NONE`. The least rank comes first.
///
/// An id that has a rank has a copy: in the near list of its rank, where that is before the first bound, or in
/// the level of its rank. Other copies are of no meaning and are dropped when they are met.
#[derive(Drop)]
pub(crate) struct RankQueue {
    pub alloc: Global,
    pub open_count: u32,
    pub ranks: Vec<u64>,
    pub front: u64,
    pub start: u64,
    /// The rank of near list 0.
    pub base: u64,
    /// At most as many as open buckets.
    pub near_count: u32,
    /// No near list from here on has a copy that is owed.
    pub end: usize,
    pub bounds: [u64; BOUNDS],
    pub near: Vec<Vec<u32>>,
    pub levels: Vec<Vec<u32>>,
}

/// Where the ids of a rank have their copies.
#[derive(Clone, Copy)]
pub(crate) enum Spot {
    /// In the near list of this number.
    Near(usize),
    /// In the level of this number, with others. The ids are those of this rank.
    Far(usize, u64),
}

impl RankQueue {
    /// The queue of these ranks. Front and start are the least rank.
    pub fn make(alloc: Global, open_count: u32, ranks: Vec<u64>) -> Result<RankQueue, AllocError>
        requires open_some { 0 < open_count }
        requires open_few { open_count ≤ MAX_OPEN }
        requires few { length ranks.items ≤ MAX_N }

        ensures first { IfOk result (λ queue. IsFirstFront Increasing ranks.items queue.front) }
        ensures is { IfOk result (λ queue. ranked_of queue
            ≡ record { open_count = open_count; ranks = ranks.items; front = queue.front; start = queue.front }) }
        ensures queue { IfOk result IsQueue }
    {
        let front = first_front(ranks.as_slice());
        let near_count = if open_count < NEAR_LISTS {
            open_count
        } else {
            NEAR_LISTS
        };
        let bounds = first_bounds(front, near_count);
        let mut near = empty_lists(alloc, near_count as usize)?;
        let mut levels = empty_lists(alloc, LEVELS)?;
        let end = put_ids(ranks.as_slice(), &mut near, &mut levels, &bounds, front)?;
        Ok(RankQueue {
            alloc,
            open_count,
            ranks,
            front,
            start: front,
            base: front,
            near_count,
            end,
            bounds,
            near,
            levels,
        })
    }

    /// Sets the ranks of the ids that are moved. All memory is taken before the first is set.
    pub fn set(&mut self, order: Order, moves: &[(u32, u64)]) -> Result<(), AllocError>
        requires queue { IsQueue self.old }
        requires ids { All (λ m. m.0 < length self.old.ranks.items) moves.now }
        requires late { All (λ m. m.1 ≢ NONE → self.old.front ≤ turn order m.1) moves.now }

        ensures ok { OnOk result
            ((ranked_of self.new ≡ record (ranked_of self.old) { ranks = set_places self.old.ranks.items (turned_moves order moves.now) })
            × All (λ m. m.1 ≤ NONE) moves.now) }
        ensures err { OnErr result (ranked_of self.new ≡ ranked_of self.old) }
        ensures queue { IsQueue self.new }
    {
        let end = put_moves(
            order,
            moves,
            &mut self.near,
            &mut self.levels,
            &self.bounds,
            self.base,
            self.end,
        )?;
        self.end = end;
        set_ranks(order, moves, self.ranks.as_mut_slice());
        Ok(())
    }

    /// Takes out the ids of the least rank. All memory is taken before a rank changes.
    pub fn take(&mut self) -> Result<Option<Taken>, AllocError>
        requires { IsQueue self.old }

        ensures taken { IfOk result (λ taken. MatchOption taken
            (AllNone self.old.ranks.items × (ranked_of self.new ≡ ranked_of self.old))
            (λ t. IsTaken (ranked_of self.old) t (ranked_of self.new))) }
        ensures err { OnErr result (ranked_of self.new ≡ ranked_of self.old) }
        ensures queue { IsQueue self.new }
    {
        match self.find() {
            None => Ok(None),
            Some(Spot::Near(i)) => Ok(Some(self.take_near(i)?)),
            Some(Spot::Far(level, rank)) => Ok(Some(self.take_far(level, rank)?)),
        }
    }

    /// Tells the ids of the least rank, which keep it. All memory is taken before the front moves.
    pub fn hold(&mut self) -> Result<Option<Held>, AllocError>
        requires { IsQueue self.old }

        ensures held { IfOk result (λ held. MatchOption held
            (AllNone self.old.ranks.items × (ranked_of self.new ≡ ranked_of self.old))
            (λ h. IsHeld (ranked_of self.old) h (ranked_of self.new))) }
        ensures err { OnErr result (ranked_of self.new ≡ ranked_of self.old) }
        ensures queue { IsQueue self.new }
    {
        match self.find() {
            None => Ok(None),
            Some(Spot::Near(i)) => Ok(Some(self.hold_near(i)?)),
            Some(Spot::Far(level, rank)) => Ok(Some(self.hold_far(level, rank)?)),
        }
    }

    /// Where the ids of the least rank have their copies, unless no id has a rank.
    fn find(&self) -> Option<Spot>
        requires { IsQueue self.now }

        ensures { MatchOption result (AllNone self.now.ranks.items) (IsSpot self.now) }
    {
        let from = (self.front - self.base) as usize;
        let ranks = self.ranks.as_slice();
        if let Some(i) = find_open(ranks, &self.near, self.base, from, self.end) {
            return Some(Spot::Near(i));
        }
        match find_level(ranks, &self.levels, &self.bounds) {
            None => None,
            Some((level, rank)) => Some(Spot::Far(level, rank)),
        }
    }

    /// Takes out the ids of near list `i`, the first that holds its rank.
    fn take_near(&mut self, i: usize) -> Result<Taken, AllocError>
        requires queue { IsQueue self.old }
        requires spot { IsSpot self.old (Near i) }

        ensures taken { IfOk result (λ t. IsTaken (ranked_of self.old) t (ranked_of self.new)) }
        ensures err { OnErr result (ranked_of self.new ≡ ranked_of self.old) }
        ensures queue { IsQueue self.new }
    {
        let rank = self.base + i as u64;
        let copies = self.near[i].as_slice();
        let ids = ids_of(self.alloc, self.ranks.as_slice(), copies, rank)?;
        let taken = taken_of(self.alloc, rank, ids)?;
        self.pass(rank);
        self.empty(taken.ids.as_slice());
        Ok(taken)
    }

    /// Takes out the ids of a rank in a level, where no near list and no level before holds a rank that it is for.
    fn take_far(&mut self, level: usize, rank: u64) -> Result<Taken, AllocError>
        requires queue { IsQueue self.old }
        requires spot { IsSpot self.old (Far level rank) }

        ensures taken { IfOk result (λ t. IsTaken (ranked_of self.old) t (ranked_of self.new)) }
        ensures err { OnErr result (ranked_of self.new ≡ ranked_of self.old) }
        ensures queue { IsQueue self.new }
    {
        let ids = self.far_ids(level, rank)?;
        let taken = taken_of(self.alloc, rank, ids)?;
        self.advance(level, rank)?;
        self.empty(taken.ids.as_slice());
        Ok(taken)
    }

    /// Tells the ids of near list `i`, the first that holds its rank. The list has no other copies then.
    fn hold_near(&mut self, i: usize) -> Result<Held, AllocError>
        requires queue { IsQueue self.old }
        requires spot { IsSpot self.old (Near i) }

        ensures held { IfOk result (λ h. IsHeld (ranked_of self.old) h (ranked_of self.new)) }
        ensures err { OnErr result (ranked_of self.new ≡ ranked_of self.old) }
        ensures queue { IsQueue self.new }
    {
        let rank = self.base + i as u64;
        settle(self.alloc, self.ranks.as_slice(), &mut self.near[i], rank)?;
        let ids = Vec::from_slice(self.alloc, self.near[i].as_slice())?;
        self.pass(rank);
        Ok(Held { rank, ids })
    }

    /// Tells the ids of a rank in a level, where no near list and no level before holds a rank that it is for.
    fn hold_far(&mut self, level: usize, rank: u64) -> Result<Held, AllocError>
        requires queue { IsQueue self.old }
        requires spot { IsSpot self.old (Far level rank) }

        ensures held { IfOk result (λ h. IsHeld (ranked_of self.old) h (ranked_of self.new)) }
        ensures err { OnErr result (ranked_of self.new ≡ ranked_of self.old) }
        ensures queue { IsQueue self.new }
    {
        let ids = self.far_ids(level, rank)?;
        self.advance(level, rank)?;
        Ok(Held { rank, ids })
    }

    /// The ids of a rank in a level, where no near list and no level before holds a rank that it is for.
    fn far_ids(&self, level: usize, rank: u64) -> Result<Vec<u32>, AllocError>
        requires queue { IsQueue self.now }
        requires spot { IsSpot self.now (Far level rank) }

        ensures { IfOk result (λ ids. ids.items ≡ ids_at self.now.ranks.items rank) }
    {
        let copies = self.levels[level].as_slice();
        ids_of(self.alloc, self.ranks.as_slice(), copies, rank)
    }

    /// Lets the queue stand at the least rank, which has a near list.
    fn pass(&mut self, rank: u64)
        requires queue { IsQueue self.old }
        requires first { IsFirstHeld Increasing self.old.ranks.items rank }
        requires near { rank < self.old.base + self.old.end }

        ensures reached { ranked_of self.new ≡ after_reaching (ranked_of self.old) rank }
        ensures queue { IsQueue self.new }
    {
        let from = (self.front - self.base) as usize;
        clear_lists(&mut self.near, from, (rank - self.base) as usize);
        self.start = next_start(self.open_count, self.start, rank);
        self.front = rank;
    }

    /// Lets the queue stand at a rank in a level, where no near list and no level before holds a rank that it is for.
    /// The level is spread over the near lists, which begin at this rank then, and over the levels before it.
    fn advance(&mut self, level: usize, rank: u64) -> Result<(), AllocError>
        requires queue { IsQueue self.old }
        requires spot { IsSpot self.old (Far level rank) }

        ensures reached { OnOk result (ranked_of self.new ≡ after_reaching (ranked_of self.old) rank) }
        ensures err { OnErr result (ranked_of self.new ≡ ranked_of self.old) }
        ensures queue { IsQueue self.new }
    {
        let from = (self.front - self.base) as usize;
        let bounds = next_bounds(&self.bounds, level, rank, self.near_count);
        clear_lists(&mut self.near, from, self.end);
        clear_lists(&mut self.levels, 0, level);
        let end = spread(
            self.alloc,
            self.ranks.as_slice(),
            level,
            &mut self.near,
            &mut self.levels,
            &bounds,
            rank,
        )?;
        self.start = next_start(self.open_count, self.start, rank);
        self.base = rank;
        self.end = end;
        self.bounds = bounds;
        self.front = rank;
        Ok(())
    }

    /// Takes out the ids of the rank at which the queue stands.
    fn empty(&mut self, ids: &[u32])
        requires queue { IsQueue self.old }
        requires ids { ids.now ≡ ids_at self.old.ranks.items self.old.front }

        ensures emptied { ranked_of self.new
            ≡ record (ranked_of self.old) { ranks = emptied self.old.ranks.items self.old.front } }
        ensures queue { IsQueue self.new }
    {
        let i = (self.front - self.base) as usize;
        take_out(self.ranks.as_mut_slice(), ids, self.front);
        clear_lists(&mut self.near, i, i + 1);
    }
}

/// Where the open range begins once this rank is drawn.
fn next_start(open_count: u32, start: u64, rank: u64) -> u64
    requires { start ≤ rank }
    ensures { result ≡ start_at open_count start rank }
{
    if rank - start < u64::from(open_count) {
        start
    } else {
        rank
    }
}

/// The least of these ranks, or 0 where there is none.
fn first_front(ranks: &[u64]) -> u64
    ensures first { IsFirstFront Increasing ranks.now result }
    ensures behind { NoneBehind Increasing ranks.now result }
    ensures is_rank { result < NONE }
    ensures fits { All (λ rank. rank ≤ NONE) ranks.now }
{
    let mut least = NONE;
    for rank in ranks {
        if *rank < least {
            least = *rank;
        }
    }
    if least == NONE { 0 } else { least }
}

/// So many lists without a copy.
fn empty_lists(alloc: Global, count: usize) -> Result<Vec<Vec<u32>>, AllocError>
    ensures len { IfOk result (λ lists. length lists.items ≡ count) }
    ensures none { IfOk result (λ lists. (k : ℕ) → copies_at lists.items k ≡ []) }
{
    let mut lists = Vec::with_capacity(alloc, count)?;
    while lists.len() < count {
        lists.push(Vec::new(alloc))?;
    }
    Ok(lists)
}
