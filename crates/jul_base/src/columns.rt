//! Lists of numbers that contracts see as lists.
ghost use Rattle.std.specs.Prelude.{◌≡◌, ℕ, ◌<◌, List, length, slice_index};

use std::alloc::Global;
use std::marker::Model;

/// A number for each vertex, as the distances from some sources. `NONE` stands where there is no number.
#[derive(Drop)]
pub struct Column {
    items: Vec<u64>,
}

impl Model for Column {
    ghost Value = { List ℕ };

    ghost view = { λ c. c.items.items };
}

impl Column {
    /// The numbers of `v`, in order. Takes no memory.
    pub fn from_vec(v: Vec<u64>) -> Column
        ensures { result ≡ v.items }
    {
        Column { items: v }
    }

    /// The numbers as a slice, in order. Takes no memory.
    #[inline]
    pub fn as_slice(&self) -> &[u64]
        ensures { result.now ≡ self.now }
    {
        self.items.as_slice()
    }

    /// How many numbers there are.
    #[inline]
    pub fn len(&self) -> usize
        ensures { result ≡ length self.now }
    {
        self.items.len()
    }

    /// The number at index `i`, which must be below the length.
    #[inline]
    pub fn get(&self, i: usize) -> u64
        requires { i < length self.now }
        ensures { result ≡ slice_index self.now i }
    {
        self.items[i]
    }
}

/// A list of vertices, of places or of weights.
#[derive(Drop)]
pub struct Ids {
    items: Vec<u32>,
}

impl Model for Ids {
    ghost Value = { List ℕ };

    ghost view = { λ c. c.items.items };
}

impl Ids {
    /// The numbers of `v`, in order. Takes no memory.
    pub fn from_vec(v: Vec<u32>) -> Ids
        ensures { result ≡ v.items }
    {
        Ids { items: v }
    }

    /// The allocator that the numbers stand on.
    #[inline]
    pub fn allocator(&self) -> Global {
        *self.items.allocator()
    }

    /// The numbers as a slice, in order. Takes no memory.
    #[inline]
    pub fn as_slice(&self) -> &[u32]
        ensures { result.now ≡ self.now }
    {
        self.items.as_slice()
    }

    /// How many numbers there are.
    #[inline]
    pub fn len(&self) -> usize
        ensures { result ≡ length self.now }
    {
        self.items.len()
    }

    /// The number at index `i`, which must be below the length.
    #[inline]
    pub fn get(&self, i: usize) -> u32
        requires { i < length self.now }
        ensures { result ≡ slice_index self.now i }
    {
        self.items[i]
    }
}
