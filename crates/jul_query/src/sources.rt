//! Lists of sources: numbers with a comma between each two.
ghost use Rattle.std.specs.Prelude.{◌≡◌, ◌≤◌, length, IfOk, IfNone, IfSome, OnOk};
ghost use Rattle.std.specs.List.{insert};
ghost use Rattle.std.specs.List.Sorted.{IsStrictlyIncreasing};
ghost use Rattle.jul_base.specs.Sources.{AreNamedSources};
ghost use Rattle.jul_query.specs.Asking.{named_sources};
ghost use Rattle.jul_query.specs.CommandLines.{split_by};
ghost use Rattle.jul_query.specs.Ranges.{AreSourcesOf};
ghost use Rattle.jul_query.specs.Words.{with_number, sources_in, sources_named, sources_asked};

use crate::command_line::CommandLine;
use crate::numbers::number_in;
use jul_base::MAX_SOURCES;
use std::alloc::{AllocError, Global};

const MAX_SOURCE: u32 = u32::MAX;

// Where a number goes in an increasing list, or None where it stands there.
fn place_of(numbers: &[u32], number: u32) -> Option<usize>
    requires { IsStrictlyIncreasing numbers.now }

    ensures there { IfNone result (with_number numbers.now number ≡ numbers.now) }
    ensures within { IfSome result (λ at. at ≤ length numbers.now) }
    ensures place { IfSome result (λ at. with_number numbers.now number ≡ insert numbers.now at number) }
{
    numbers.binary_search(&number).err()
}

// Puts a number into an increasing list, unless it stands there.
fn put_number(numbers: &mut Vec<u32>, number: u32) -> Result<(), AllocError>
    requires { IsStrictlyIncreasing numbers.old.items }

    ensures { OnOk result (numbers.new.items ≡ with_number numbers.old.items number) }
{
    if let Some(at) = place_of(numbers, number) {
        numbers.insert(at, number)?;
    }
    Ok(())
}

// The sources that a text names, increasing and each once, or None where it isn't a list of numbers or is too long.
fn read_list(alloc: Global, text: &str) -> Result<Option<Vec<u32>>, AllocError>
    ensures value { IfOk result (λ sources. named_sources sources ≡ sources_in text.now) }
    ensures ranges { IfOk result (λ sources. IfSome sources (λ named. AreNamedSources named.items)) }
{
    let mut sources = Vec::new(alloc);
    let mut count = 0;
    for part in text.split(',') {
        if count == MAX_SOURCES {
            return Ok(None);
        }
        match number_in(part, 0, MAX_SOURCE) {
            Some(source) => put_number(&mut sources, source)?,
            None => return Ok(None),
        }
        count += 1;
    }
    Ok(Some(sources))
}

/// The sources that the words name, or vertex 0 alone; None where `--source` isn't a list of 1 to `MAX_SOURCES` numbers. An Err
/// is want of memory.
///
/// They increase, and each number is there once. A text with too many parts is read no further than that shows.
pub fn read_sources(alloc: Global, line: &CommandLine<'_>) -> Result<Option<Vec<u32>>, AllocError>
    ensures value { IfOk result (λ sources. named_sources sources ≡ sources_asked (split_by line.now)) }
    ensures ranges { IfOk result (λ sources. IfSome sources (λ named. AreNamedSources named.items)) }
{
    match line.source {
        Some(text) => read_list(alloc, text),
        None => Ok(Some(vec![in alloc; 0; 1]?)),
    }
}

/// The sources, where the words name them.
pub fn if_named(line: &CommandLine<'_>, sources: Vec<u32>) -> Option<Vec<u32>>
    requires { AreSourcesOf (split_by line.now) sources.items }

    ensures value { sources_named (split_by line.now).source ≡ Some (named_sources result) }
    ensures ranges { IfSome result (λ named. AreNamedSources named.items) }
{
    if line.source.is_some() {
        Some(sources)
    } else {
        None
    }
}
