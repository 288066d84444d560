//! What may be asked: a graph, and what is to be done with it.
ghost use Rattle.std.specs.Prelude.{◌≡◌};

/// A task that solves a problem.
#[derive(Clone, Copy, Debug, PartialEq, Eq)]
pub enum Task {
    /// Least distances by weighted breadth-first search (Julienne, SPAA 2017).
    Wbfs,
    /// Least distances by delta-stepping (Meyer, Sanders, J. Algorithms 2003).
    Delta,
    /// Coreness by peeling.
    Kcore,
    /// Set cover by rounds of bids.
    Cover,
}

impl Task {
    ghost use Rattle.jul_query.specs.Words.{task_name};

    /// The word that stands for the task.
    pub fn name(self) -> &'static str
        ensures { result.now ≡ task_name self }
    {
        match self {
            Task::Wbfs => "wbfs",
            Task::Delta => "delta",
            Task::Kcore => "kcore",
            Task::Cover => "cover",
        }
    }
}

/// Where the graph comes from.
#[derive(Clone, Copy, Debug, PartialEq, Eq)]
pub enum Input<'a> {
    /// The file of a name, or `-` for standard input.
    GraphFile(&'a str),
    /// The generator.
    Generated {
        /// The number of vertices.
        n: u32,
        /// The number of pairs; each makes two places.
        pairs: u32,
        /// The seed of the generator.
        seed: u64,
    },
}

/// What is to be found of a graph.
#[derive(Debug, Drop, PartialEq, Eq)]
pub enum Problem {
    /// The least distances from the nearest of some sources.
    Distances {
        /// The source vertices, increasing: at least one, and at most `MAX_SOURCES`.
        sources: Vec<u32>,
        /// The width of a bucket of distances. The answer doesn't depend on it.
        delta: u32,
    },
    /// The coreness of each vertex.
    Cores,
    /// A cover of the elements by sets.
    Cover,
}

/// How a result is written.
#[derive(Clone, Copy, Debug, PartialEq, Eq)]
pub enum Form {
    /// All columns, which is a witness.
    Whole,
    /// Its first column alone.
    Bare,
    /// One line of a few numbers, which begins with the name of the task.
    Summary(Task),
}

/// What is written of a witness that is accepted.
#[derive(Clone, Copy, Debug, PartialEq, Eq)]
pub enum Purpose {
    /// The line `yes`.
    Check,
    /// The text of its columns, as such texts are written today.
    Upgrade,
}

/// What is to be done with a graph.
#[derive(Debug, Drop, PartialEq, Eq)]
pub enum Work<'a> {
    /// A problem is solved, and its result is written in a form.
    Solve(Problem, Form),
    /// A witness is judged.
    Judge {
        /// What is written where it is accepted.
        purpose: Purpose,
        /// The name of the witness file, or `-` for standard input.
        witness: &'a str,
        /// The source vertices, where the words name some: increasing, at least one, and at most `MAX_SOURCES`.
        sources: Option<Vec<u32>>,
    },
}

/// How an engine works. No answer depends on it.
#[derive(Clone, Copy, Debug, PartialEq, Eq)]
pub struct Settings {
    /// The number of open buckets.
    pub open_buckets: u32,
    /// The number of workers.
    pub workers: u32,
    /// The most vertices of a chunk.
    pub chunk: u32,
}

/// What the words ask for.
#[derive(Debug, Drop, PartialEq, Eq)]
pub struct Query<'a> {
    /// Where the graph comes from.
    pub input: Input<'a>,
    /// What is to be done with it.
    pub work: Work<'a>,
    /// How it is to be done.
    pub settings: Settings,
}
