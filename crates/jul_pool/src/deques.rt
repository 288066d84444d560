//! The deques in which the chunks wait: one for each worker, from which the others steal.
//!
//! Between any two steps the rule of `deque_rule` holds of each deque.
ghost use Rattle.std.specs.Prelude.{◌≡◌, ◌≤◌, [], ◌∷◌, vec_len, All, IfOk, IfSome};
ghost use Rattle.crossbeam_deque.specs.Handles.{worker_view};
ghost use Rattle.jul_pool.specs.Deques.{MayPush, HasPushed, IsWithin, with_taken};

use crate::deque_rule::{Dealt, PassView, Push, Take};
use crate::ranges::first_chunk;
use crossbeam_deque::{Steal, Stealer, Worker};
use std::alloc::{AllocError, Global};

/// The chunks of one worker, which it pops in the order in which they were pushed.
pub type Deque = Worker<u32, Global, PassView, Dealt>;

/// Through this another worker steals from a deque.
pub type Thief = Stealer<u32, Global, PassView, Dealt>;

/// So many chunks of each range are pushed before any worker starts, so that one that starts early finds some to steal.
const HEAD_START: u32 = 8;

/// A worker's own deque, and what it has yet to push there: the chunks from `next` up to but not including `end`.
#[derive(Drop)]
pub struct Hand {
    pub deque: Deque,
    pub next: u32,
    pub end: u32,
}

/// Pushes the chunks from `next` up to but not including `end`, in order. A chunk whose push is refused stays out.
pub fn push_range(deque: &mut Deque, next: u32, end: u32)
    requires { MayPush next (worker_view deque.old) }
    ensures { HasPushed next end (worker_view deque.old) (worker_view deque.new) }
{
    for chunk in next..end {
        let _ = deque.push_as::<Push>(chunk);
    }
}

/// A deque for the chunks from `first` up to but not including `end`, with the first of them.
fn deal_one(alloc: Global, first: u32, end: u32) -> Result<Hand, AllocError>
    ensures rest { IfOk result (λ h. MayPush h.next (worker_view h.deque)) }
    ensures within { IfOk result (λ h. IsWithin first end (worker_view h.deque)) }
    ensures end { IfOk result (λ h. h.end ≡ end) }
{
    let mut deque = Deque::fifo_as(alloc, end.saturating_sub(first) as usize)?;
    let next = end.min(first.saturating_add(HEAD_START));
    push_range(&mut deque, first, next);
    Ok(Hand { deque, next, end })
}

/// A deque for each worker, with the first chunks of its range.
pub fn deal(alloc: Global, workers: u32, chunks: u32) -> Result<Vec<Hand>, AllocError>
    requires some { 1 ≤ workers }
    ensures count { IfOk result (λ v. vec_len v ≡ workers) }
    ensures rest { IfOk result (λ v. All (λ h. MayPush h.next (worker_view h.deque)) v.items) }
{
    let mut hands = Vec::with_capacity(alloc, workers as usize)?;
    for worker in 0..workers {
        let first = first_chunk(worker, workers, chunks);
        let end = first_chunk(worker + 1, workers, chunks);
        hands.push(deal_one(alloc, first, end)?)?;
    }
    Ok(hands)
}

/// A thief for each deque.
pub fn thieves_of(alloc: Global, hands: &Vec<Hand>) -> Result<Vec<Thief>, AllocError>
    ensures { IfOk result (λ v. vec_len v ≡ vec_len hands.now) }
{
    let mut thieves = Vec::with_capacity(alloc, hands.len())?;
    for i in 0..hands.len() {
        thieves.push(hands[i].deque.stealer()?)?;
    }
    Ok(thieves)
}

/// Pops the next chunk of a worker's own deque, in one step.
pub fn pop(deque: &mut Deque) -> Option<u32>
    ensures { IfSome result (λ x. worker_view deque.new ≡ with_taken (worker_view deque.old) (x ∷ [])) }
{
    deque.pop_as::<Take>()
}

/// Tries once to steal a chunk.
pub fn steal(thief: &Thief) -> Steal<u32> {
    let mut pass = thief.pass();
    thief.steal_as::<Take>(&mut pass)
}
