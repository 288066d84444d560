//! Buckets as a plain list of places that is scanned for each answer: slow, and easy to believe.

use crate::{Dest, Order};
use jul_base::NONE;
use std::alloc::{AllocError, Global};

/// The calls of `Buckets` over a list of places.
#[derive(Drop)]
pub(crate) struct ScannedBuckets {
    alloc: Global,
    order: Order,
    open_count: u32,
    places: Vec<u64>,
    pub front: u64,
    pub start: u64,
}

impl ScannedBuckets {
    pub fn make(
        alloc: Global,
        order: Order,
        open_count: u32,
        places: &[u64],
    ) -> Result<ScannedBuckets, AllocError> {
        let first_of_all = match order {
            Order::Increasing => 0,
            Order::Decreasing => NONE - 1,
        };
        let front = first_held(order, places).unwrap_or(first_of_all);
        Ok(ScannedBuckets {
            alloc,
            order,
            open_count,
            places: Vec::from_slice(alloc, places)?,
            front,
            start: front,
        })
    }

    pub fn next_bucket(&mut self) -> Result<Option<(u64, Vec<u32>)>, AllocError> {
        let Some(bucket) = first_held(self.order, self.places.as_slice()) else {
            return Ok(None);
        };
        let mut ids = Vec::new(self.alloc);
        let mut id = 0u32;
        for place in self.places.iter_mut() {
            if *place == bucket {
                ids.push(id)?;
                *place = NONE;
            }
            id = id.wrapping_add(1);
        }
        if self.number_in_range(bucket).is_none() {
            self.start = bucket;
        }
        self.front = bucket;
        Ok(Some((bucket, ids)))
    }

    pub fn next_bucket_in_place(&mut self) -> Result<Option<(u64, Vec<u32>)>, AllocError> {
        let places = Vec::from_slice(self.alloc, self.places.as_slice())?;
        let drawn = self.next_bucket()?;
        self.places = places;
        Ok(drawn)
    }

    pub fn get_bucket(&self, prev: u64, next: u64) -> Dest {
        if next == NONE || next == prev {
            return Dest::Null;
        }
        match self.number_in_range(next) {
            Some(number) => Dest::Open(number),
            None => Dest::Overflow,
        }
    }

    pub fn update_buckets(&mut self, moves: &[(u32, u64)]) {
        for (id, place) in moves {
            if let Some(held) = self.places.get_mut(*id as usize) {
                *held = *place;
            }
        }
    }

    pub fn place(&self, id: u32) -> Option<u64> {
        self.places.get(id as usize).copied()
    }

    /// The number of a bucket in the open range, counted from 0, where it lies in it.
    fn number_in_range(&self, bucket: u64) -> Option<u32> {
        let ahead = match self.order {
            Order::Increasing => bucket.checked_sub(self.start),
            Order::Decreasing => self.start.checked_sub(bucket),
        };
        match u32::try_from(ahead?) {
            Ok(number) if number < self.open_count => Some(number),
            _ => None,
        }
    }
}

/// The first place held in the order.
fn first_held(order: Order, places: &[u64]) -> Option<u64> {
    let mut first = None;
    for place in places {
        let comes_first = match (order, first) {
            (_, None) => true,
            (Order::Increasing, Some(other)) => *place < other,
            (Order::Decreasing, Some(other)) => *place > other,
        };
        if *place != NONE && comes_first {
            first = Some(*place);
        }
    }
    first
}
