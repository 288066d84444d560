//! The words as `clap` splits them.
ghost use Rattle.std.specs.Prelude.{◌≡◌, ◌∷◌, Some, None, IfOk, map, codes, option_map, true, false, string_bytes};
ghost use Rattle.clap.specs.Words.{App, app_of, first_of, found_of, rows_of, rule_of, new_app, with_rule, fault_of};
ghost use Rattle.clap.specs.Words.{matches_of};
ghost use Rattle.jul_query.specs.Command.{option_rule, positional_rule, flag_rule, plain_app};
ghost use Rattle.jul_query.specs.Command.{with_positionals, with_search_options, with_work_options, with_demo_options, command_app};
ghost use Rattle.jul_query.specs.Command.{command_split, split_from};
ghost use Rattle.jul_query.specs.Splitting.{split, is_true};
ghost use Rattle.jul_query.specs.CommandLines.{split_by, text_of};

use clap::error::ErrorKind;
use clap::{Arg, ArgAction, ArgMatches, Command};
use std::alloc::{AllocError, Global};

/// The words, split: each text where it is given, and whether the flag is.
#[derive(Clone, Copy)]
pub struct CommandLine<'a> {
    /// What is to be done.
    pub task: Option<&'a str>,
    /// The graph file, or the task of a demo.
    pub graph: Option<&'a str>,
    /// The witness file.
    pub witness: Option<&'a str>,
    /// The text of `--source`.
    pub source: Option<&'a str>,
    /// The text of `--delta`.
    pub delta: Option<&'a str>,
    /// The text of `--open`.
    pub open_buckets: Option<&'a str>,
    /// The text of `--workers`.
    pub workers: Option<&'a str>,
    /// The text of `--chunk`.
    pub chunk: Option<&'a str>,
    /// The text of `--n`.
    pub n: Option<&'a str>,
    /// The text of `--pairs`.
    pub pairs: Option<&'a str>,
    /// The text of `--seed`.
    pub seed: Option<&'a str>,
    /// Whether `--bare` is there.
    pub bare: bool,
}

fn option(alloc: Global, name: &str) -> Arg<'_>
    ensures rule { rule_of result ≡ option_rule name.entry.now }
    ensures local { result.global ≡ false }
{
    Arg::new(alloc, name).long(name)
}

fn positional(alloc: Global, name: &str, required: bool) -> Arg<'_>
    ensures rule { rule_of result ≡ positional_rule name.entry.now required }
    ensures local { result.global ≡ false }
{
    Arg::new(alloc, name).required(required)
}

fn flag(alloc: Global, name: &str) -> Arg<'_>
    ensures rule { rule_of result ≡ flag_rule name.entry.now }
    ensures local { result.global ≡ false }
{
    Arg::new(alloc, name).long(name).action(ArgAction::SetTrue)
}

fn plain_command<'a>(alloc: Global) -> Command<'a>
    ensures { app_of result ≡ plain_app }
{
    Command::new(alloc, "julienne")
        .no_binary_name(true)
        .disable_help_flag(true)
        .disable_version_flag(true)
}

fn add_positionals<'a>(alloc: Global, command: Command<'a>) -> Result<Command<'a>, AllocError>
    ensures { IfOk result (λ c. app_of c ≡ with_positionals (app_of command.entry)) }
{
    command
        .arg(positional(alloc, "task", true))?
        .arg(positional(alloc, "graph", true))?
        .arg(positional(alloc, "witness", false))
}

fn add_search_options<'a>(alloc: Global, command: Command<'a>) -> Result<Command<'a>, AllocError>
    ensures { IfOk result (λ c. app_of c ≡ with_search_options (app_of command.entry)) }
{
    command
        .arg(option(alloc, "source"))?
        .arg(option(alloc, "delta"))
}

fn add_work_options<'a>(alloc: Global, command: Command<'a>) -> Result<Command<'a>, AllocError>
    ensures { IfOk result (λ c. app_of c ≡ with_work_options (app_of command.entry)) }
{
    command
        .arg(option(alloc, "open"))?
        .arg(option(alloc, "workers"))?
        .arg(option(alloc, "chunk"))
}

fn add_demo_options<'a>(alloc: Global, command: Command<'a>) -> Result<Command<'a>, AllocError>
    ensures { IfOk result (λ c. app_of c ≡ with_demo_options (app_of command.entry)) }
{
    command
        .arg(option(alloc, "n"))?
        .arg(option(alloc, "pairs"))?
        .arg(option(alloc, "seed"))
}

// The program's command.
fn command<'a>(alloc: Global) -> Result<Command<'a>, AllocError>
    ensures { IfOk result (λ c. app_of c ≡ command_app) }
{
    let command = plain_command(alloc);
    let command = add_positionals(alloc, command)?;
    let command = add_search_options(alloc, command)?;
    let command = add_work_options(alloc, command)?;
    let command = add_demo_options(alloc, command)?;
    command.arg(flag(alloc, "bare"))
}

fn text_at<'a>(matches: &ArgMatches<'a>, name: &str) -> Option<&'a str>
    ensures { text_of result ≡ first_of name.now (rows_of (found_of matches.now)) }
{
    matches.get_str(name)
}

fn is_set(matches: &ArgMatches<'_>, name: &str) -> bool
    ensures { result ≡ is_true (first_of name.now (rows_of (found_of matches.now))) }
{
    match text_at(matches, name) {
        Some(text) => text == "true",
        None => false,
    }
}

fn line_of<'a>(matches: &ArgMatches<'a>) -> CommandLine<'a>
    ensures { split_by result ≡ split_from (rows_of (found_of matches.now)) }
{
    CommandLine {
        task: text_at(matches, "task"),
        graph: text_at(matches, "graph"),
        witness: text_at(matches, "witness"),
        source: text_at(matches, "source"),
        delta: text_at(matches, "delta"),
        open_buckets: text_at(matches, "open"),
        workers: text_at(matches, "workers"),
        chunk: text_at(matches, "chunk"),
        n: text_at(matches, "n"),
        pairs: text_at(matches, "pairs"),
        seed: text_at(matches, "seed"),
        bare: is_set(matches, "bare"),
    }
}

/// The words as the program's command splits them, or None where it doesn't take them.
///
/// Clause `command` says so in the words of `clap`'s own specification, and `plain` in those of `specs/Splitting.antt`.
pub fn split_words<'a>(
    alloc: Global,
    words: &'a [String],
) -> Result<Option<CommandLine<'a>>, AllocError>
    ensures command { IfOk result (λ line. option_map split_by line ≡ command_split (map string_bytes words.entry.now)) }
    ensures plain { IfOk result (λ line. option_map split_by line ≡ split (map string_bytes words.entry.now)) }
{
    let command = command(alloc)?;
    match command.try_get_matches_from(words) {
        Ok(matches) => Ok(Some(line_of(&matches))),
        Err(error) => match error.kind() {
            ErrorKind::OutOfMemory => Err(AllocError),
            _ => Ok(None),
        },
    }
}
