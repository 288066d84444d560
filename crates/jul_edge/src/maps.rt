//! What edge maps answer.
use crate::functions::Direction;
use jul_base::Share;
use jul_subset::VertexSubset;
use jul_words::StampSeat;

/// What `edge_push` and `edge_map` give.
#[derive(Drop)]
pub struct EdgeOut<T: Drop> {
    /// The targets for which an application answered true, of as many vertices as the graph has. Sparse after a push,
    /// dense after a pull.
    pub subset: VertexSubset,
    /// How the places were walked.
    pub direction: Direction,
    /// The root token, with none out.
    pub token: T,
    /// The root of the stamp table, with none out.
    pub stamp_seat: StampSeat,
}

/// What `edge_pull` gives.
#[derive(Drop)]
pub struct PullOut<T: Drop> {
    /// The targets for which an application answered true, of as many vertices as the graph has. Dense.
    pub subset: VertexSubset,
    /// The root token, with none out.
    pub token: T,
}

/// What `edge_notes_by_reach` gives.
#[derive(Drop)]
pub struct NotedOut<T: Drop> {
    /// How the places were walked.
    pub direction: Direction,
    /// The root token, with none out.
    pub token: T,
}
