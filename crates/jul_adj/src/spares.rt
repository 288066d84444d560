//! Lists that threads fill with numbers, block after block.
//!
//! A list that is taken anew for each block is taken from the system each time, page by page.
ghost use Rattle.std.specs.Prelude.{◌≡◌, true, refl, []};

use jul_base::Share;
use std::alloc::{AllocError, Global};

/// Lists that were filled before, for one thread.
pub(crate) type Stack = Vec<Vec<u32>>;

/// A token over no words, whose parts each carry a stack of lists. Its log is always empty.
#[derive(Drop)]
pub(crate) struct Spares {
    alloc: Global,
    is_root: bool,
    out: u32,
    // The lists of the thread that has this token.
    lists: Stack,
    // Of a root, the stacks that the next parts get.
    stacks: Vec<Stack>,
}

impl Spares {
    /// A root with none out, which lends these stacks. Takes no memory.
    pub(crate) fn root(alloc: Global, stacks: Vec<Stack>) -> Spares
        ensures root { ⟦<Spares as Share>⟧.is_root result ≡ true }
        ensures out { ⟦<Spares as Share>⟧.out result ≡ 0 }
    {
        Spares {
            alloc,
            is_root: true,
            out: 0,
            lists: Vec::new(alloc),
            stacks,
        }
    }

    /// A list that was filled before, or one with room for so many numbers.
    pub(crate) fn list(&mut self, room: usize) -> Result<Vec<u32>, AllocError>
        ensures root { self.new.is_root ≡ self.old.is_root }
        ensures out { self.new.out ≡ self.old.out }
    {
        match self.lists.pop() {
            Some(list) => Ok(list),
            None => Vec::with_capacity(self.alloc, room),
        }
    }

    /// The stacks of the parts that were joined.
    pub(crate) fn into_stacks(self) -> Vec<Stack> {
        self.stacks
    }
}

impl Share for Spares {
    ghost parts = { 0 };

    ghost log = { λ _. [] };

    ghost home = { λ _. [] };

    ghost is_root = { λ spares. spares.is_root };

    ghost out = { λ spares. spares.out };

    ghost log_has_parts = { λ _. refl };

    ghost home_has_parts = { λ _. refl };

    fn split(&mut self) -> Spares {
        self.out += 1;
        let lists = match self.stacks.pop() {
            Some(lists) => lists,
            None => Vec::new(self.alloc),
        };
        Spares {
            alloc: self.alloc,
            is_root: false,
            out: 0,
            lists,
            stacks: Vec::new(self.alloc),
        }
    }

    // Where there is no memory for one stack more, its lists are let go.
    fn join(&mut self, other: Spares) {
        self.out -= 1;
        let _ = self.stacks.push(other.lists);
    }
}

/// Gives lists that were read back to the stacks, one after another to each. Where there is no memory to keep a list
/// in, it is let go.
pub(crate) fn give_back(lists: Vec<Option<Vec<u32>>>, stacks: &mut Vec<Stack>) {
    let mut next = 0;
    for list in lists {
        if next >= stacks.len() {
            next = 0;
        }
        if let Some(list) = list {
            if next < stacks.len() {
                let _ = stacks[next].push(list);
            }
        }
        next += 1;
    }
}
