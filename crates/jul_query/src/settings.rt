//! The options that say how to work.
ghost use Rattle.std.specs.Prelude.{◌≡◌, ◌&&◌, IfSome};
ghost use Rattle.jul_query.specs.CommandLines.{split_by};
ghost use Rattle.jul_query.specs.Ranges.{AreSettingsInRange};
ghost use Rattle.jul_query.specs.Settings.{settings_asked};
ghost use Rattle.jul_query.specs.Words.{has_no_settings};

use crate::command_line::CommandLine;
use crate::numbers::number_or;
use crate::queries::Settings;

const MAX_OPEN_BUCKETS: u32 = 65_536;

const MAX_WORKERS: u32 = 64;

const MAX_CHUNK: u32 = 65_536;

/// The settings that the words name, and else the usual ones; None where a number isn't in its range.
pub fn read_settings(line: &CommandLine<'_>) -> Option<Settings>
    ensures value { result ≡ settings_asked (split_by line.now) }
    ensures ranges { IfSome result AreSettingsInRange }
{
    let open_buckets = number_or(line.open_buckets, 128, 1, MAX_OPEN_BUCKETS)?;
    let workers = number_or(line.workers, 4, 1, MAX_WORKERS)?;
    let chunk = number_or(line.chunk, 256, 1, MAX_CHUNK)?;
    Some(Settings {
        open_buckets,
        workers,
        chunk,
    })
}

/// Whether the words name no settings.
pub fn has_no_settings(line: &CommandLine<'_>) -> bool
    ensures { result ≡ has_no_settings (split_by line.now) }
{
    line.open_buckets.is_none() && line.workers.is_none() && line.chunk.is_none()
}
