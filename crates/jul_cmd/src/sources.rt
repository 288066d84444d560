//! The sources of a search: against the vertices of the graph, and those of a witness against those of the words.
ghost use Rattle.std.specs.Prelude.{◌≡◌, ◌≤◌, length, Some, None, OnOk, IfOk, IfErr, IfSome};
ghost use Rattle.jul_base.specs.declared.limits.TheConstants.{MAX_SOURCES};
ghost use Rattle.jul_base.specs.Sources.{AreNamedSources};
ghost use Rattle.jul_query.specs.Queries.{meant};
ghost use Rattle.jul_query.specs.Asking.{named_sources};
ghost use Rattle.jul_cmd.specs.Suited.{refusal_of_sources};
ghost use Rattle.jul_cmd.specs.Checking.{difference_at, refusal_of_names};

use crate::statuses::Status;
use jul_base::Ids;
use std::alloc::{AllocError, Global};

/// Whether each source is a vertex of a graph of `n`, or the refusal of the first one that is not.
pub fn check_sources(sources: &[u32], n: u32) -> Result<(), Status>
    ensures inside { OnOk result (refusal_of_sources n sources.now ≡ None) }
    ensures outside { IfErr result (λ status. refusal_of_sources n sources.now ≡ Some status) }
{
    for source in sources {
        if *source >= n {
            return Err(Status::SourceRange { source: *source, n });
        }
    }
    Ok(())
}

// The least index at which two lists don't have the same entry, or only one has an entry.
fn difference(named: &[u32], given: &[u32]) -> Option<u32>
    requires { length named.now ≤ MAX_SOURCES }
    ensures { result ≡ difference_at 0 named.now given.now }
{
    let common = named.len().min(given.len());
    for at in 0..common {
        if named[at] != given[at] {
            return Some(at as u32);
        }
    }
    if named.len() == given.len() {
        None
    } else {
        Some(common as u32)
    }
}

/// Whether a witness names the sources that the words name, where both name some, or the refusal at the first difference.
pub fn check_names(named: &Option<Ids>, given: &Option<Vec<u32>>) -> Result<(), Status>
    requires { IfSome named.now AreNamedSources }
    ensures same { OnOk result (refusal_of_names named.now (named_sources given.now) ≡ None) }
    ensures other { IfErr result (λ status.
        refusal_of_names named.now (named_sources given.now) ≡ Some status) }
{
    let (Some(named), Some(given)) = (named, given) else {
        return Ok(());
    };
    match difference(named.as_slice(), given.as_slice()) {
        None => Ok(()),
        Some(at) => Err(Status::SourcesDiffer { at }),
    }
}

/// The sources that the words name, and vertex 0 alone where they name none.
pub fn meant(alloc: Global, given: Option<Vec<u32>>) -> Result<Ids, AllocError>
    requires { IfSome given (λ sources. AreNamedSources sources.items) }
    ensures meant { IfOk result (λ sources. sources ≡ meant (named_sources given)) }
    ensures lawful { IfOk result AreNamedSources }
{
    let sources = match given {
        Some(sources) => sources,
        None => Vec::from_slice(alloc, &[0])?,
    };
    Ok(Ids::from_vec(sources))
}
