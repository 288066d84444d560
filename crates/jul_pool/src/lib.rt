//! Work that is cut into chunks and run by threads, each chunk once in every schedule.
//!
//! Implement `Job`, make a `Team`, and call `run_all`. The results come in the order of chunks, and the token that
//! comes back has in its log what every run did.
#![tactic(auto)]

mod alone;
mod chunk_runs;
mod claim_rule;
mod claims;
mod deque_rule;
mod deques;
mod gathering;
mod jobs;
mod leftovers;
mod lending;
mod ranges;
mod rounds;
mod running;
mod settling;
mod stealing;
mod teams;
#[cfg(test)]
mod tests;
mod workers;

pub use jobs::{Job, RunOut};
pub use running::run_all;
pub use teams::{MAX_CHUNK, MAX_WORKERS, Team, WORK_FOR_A_WORKER};
