//! The gate that a worker passes before each chunk of work.
use std::sync::atomic::{AtomicU64, Ordering};

/// What is called once before each chunk of work. A test can count or hold workers by it.
pub trait Gate: Sync {
    /// Lets the worker go on to the chunk. It tells nothing.
    fn pass(&self, worker: u32, chunk: u32);
}

/// A gate that is always open.
#[derive(Clone, Copy)]
pub struct OpenGate;

impl Gate for OpenGate {
    fn pass(&self, _worker: u32, _chunk: u32) {}
}

/// A gate that is always open and counts the chunks that pass it, for tests.
#[derive(Drop)]
pub struct CountGate {
    passes: AtomicU64,
}

impl CountGate {
    /// A gate that no chunk has passed.
    pub fn new() -> CountGate {
        CountGate {
            passes: AtomicU64::new(0),
        }
    }

    /// How many chunks passed since the gate was made, or since the last call.
    pub fn take(&self) -> u64 {
        self.passes.swap(0, Ordering::SeqCst)
    }
}

impl Gate for CountGate {
    fn pass(&self, _worker: u32, _chunk: u32) {
        self.passes.fetch_add(1, Ordering::SeqCst);
    }
}
