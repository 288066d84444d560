//! What the workers of one call share, what each is lent, and what each gives back.

use crate::claims::{Board, Seat};
use crate::deques::{Hand, Thief};
use crate::jobs::Job;
use jul_base::{Gate, Share};
use std::alloc::Global;

/// What all workers of one call share.
#[derive(Drop)]
pub struct Round<'a, J: Job, G: Gate> {
    pub alloc: Global,
    pub board: &'a Board,
    pub gate: &'a G,
    pub job: &'a J,
    pub thieves: &'a [Thief],
}

/// What one worker is lent: its number, a part of the root seat and of the root token, and its deque.
#[derive(Drop)]
pub struct Lent<T: Share> {
    pub number: u32,
    pub seat: Seat,
    pub token: T,
    pub hand: Hand,
}

/// What one worker has done: the chunks that it ran, each with its result, in the order of its log and of its seat's
/// list.
#[derive(Drop)]
pub struct Worked<T: Share, X: Drop> {
    pub done: Vec<(u32, X)>,
    pub seat: Seat,
    pub token: T,
}
