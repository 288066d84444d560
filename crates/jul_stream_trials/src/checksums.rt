//! A number that stands for the lists of a graph.
ghost use Rattle.std.specs.Prelude.{◌≡◌, ◌<◌};
ghost use Rattle.jul_stream_trials.specs.Checksums.{sum_from, checksum_of};
ghost use Rattle.jul_stream_trials.specs.declared.checksums.TheConstants.{MODULUS};

use jul_base::RawGraph;

/// The greatest prime below 2^32.
const MODULUS: u64 = 4_294_967_291;

/// What the sum so far is multiplied by.
const BASE: u64 = 1_000_003;

// The sum of the numbers behind those that gave `start`, each weighed by a power of the base.
fn add_all(start: u64, numbers: &[u32]) -> u64
    requires { start < MODULUS }

    ensures sum { result ≡ sum_from start numbers.now }
    ensures below { result < MODULUS }
{
    let mut sum = start;
    for number in numbers {
        sum = (sum * BASE + u64::from(*number)) % MODULUS;
    }
    sum
}

/// The sum over the offsets, the targets and the weights.
pub fn checksum(graph: &RawGraph) -> u64
    ensures { result ≡ checksum_of graph.now }
{
    let offsets = add_all(0, graph.offsets.as_slice());
    let targets = add_all(offsets, graph.targets.as_slice());
    add_all(targets, graph.weights.as_slice())
}
