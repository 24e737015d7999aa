// The command, and what it finds in the arguments.
ghost use Rattle.std.specs.Prelude.{◌≡◌, false, fold, map, IfOk};
ghost use Rattle.std.specs.String.{string_bytes};
ghost use Rattle.clap.specs.Words.{FailsBy, HasMatchesOf, app_of, fault_of, rule_of, with_rule};
ghost use Rattle.run_command.specs.Command.{command, defaulted_rule, number_rule, option_rule};
ghost use Rattle.run_command.specs.Rules.{file_rule, flag_rule, job_rules, other_rules, size_rules};

use clap::{Arg, ArgAction, ArgMatches, Command, Error, value_parser};
use std::alloc::{AllocError, Global};

// `--NAME VALUE`
fn option(alloc: Global, name: &'static str) -> Arg<'static>
    ensures rule { rule_of result ≡ option_rule name.now }
    ensures local { result.global ≡ false }
{
    Arg::new(alloc, name).long(name)
}

// `--NAME NUMBER`
fn number(alloc: Global, name: &'static str) -> Arg<'static>
    ensures rule { rule_of result ≡ number_rule name.now }
    ensures local { result.global ≡ false }
{
    Arg::new(alloc, name)
        .long(name)
        .value_parser(value_parser!(u32))
}

// `--NAME NUMBER`, with what it is where it isn't given
fn number_or(alloc: Global, name: &'static str, default: &'static str) -> Arg<'static>
    ensures rule { rule_of result ≡ defaulted_rule name.now default.now }
    ensures local { result.global ≡ false }
{
    Arg::new(alloc, name)
        .long(name)
        .value_parser(value_parser!(u32))
        .default_value(default)
}

// `--NAME`
fn flag(alloc: Global, name: &'static str) -> Arg<'static>
    ensures rule { rule_of result ≡ flag_rule name.now }
    ensures local { result.global ≡ false }
{
    Arg::new(alloc, name).long(name).action(ArgAction::SetTrue)
}

// `FILE..`
fn files(alloc: Global) -> Arg<'static>
    ensures rule { rule_of result ≡ file_rule }
    ensures local { result.global ≡ false }
{
    Arg::new(alloc, "FILE").action(ArgAction::Append)
}

// With the prelude and the jobs.
fn with_jobs<'a>(alloc: Global, command: Command<'a>) -> Result<Command<'a>, AllocError>
    ensures { IfOk result (λ made. app_of made ≡ fold with_rule (app_of command.entry) job_rules) }
{
    let prelude = option(alloc, "prelude");
    let command = command.arg(prelude)?;
    let jobs = number_or(alloc, "jobs", "4");
    command.arg(jobs)
}

// With the sizes of the heap.
fn with_sizes<'a>(alloc: Global, command: Command<'a>) -> Result<Command<'a>, AllocError>
    ensures { IfOk result (λ made. app_of made ≡ fold with_rule (app_of command.entry) size_rules) }
{
    let ids = number_or(alloc, "ids", "262144");
    let command = command.arg(ids)?;
    let heap_words = number_or(alloc, "heap-words", "4194304");
    let command = command.arg(heap_words)?;
    let slots = number_or(alloc, "slots", "65536");
    command.arg(slots)
}

// With the other options.
fn with_others<'a>(alloc: Global, command: Command<'a>) -> Result<Command<'a>, AllocError>
    ensures { IfOk result (λ made. app_of made ≡ fold with_rule (app_of command.entry) other_rules) }
{
    let summary = flag(alloc, "summary");
    let command = command.arg(summary)?;
    let generate = number(alloc, "generate");
    let command = command.arg(generate)?;
    let limit = number_or(alloc, "limit", "64");
    command.arg(limit)
}

// The command, with all its arguments.
fn command<'a>(alloc: Global) -> Result<Command<'a>, AllocError>
    ensures { IfOk result (λ made. app_of made ≡ command) }
{
    let command = with_jobs(alloc, Command::new(alloc, "jsstr"))?;
    let command = with_sizes(alloc, command)?;
    let command = with_others(alloc, command)?;
    command.arg(files(alloc))
}

// What the command finds in the arguments.
pub(crate) fn matches_for<'a>(alloc: Global, words: &'a [String]) -> Result<ArgMatches<'a>, Error>
    ensures found { IfOk result (HasMatchesOf command (map string_bytes words.entry.now)) }
    ensures kinds { FailsBy (fault_of command (map string_bytes words.entry.now)) result }
{
    command(alloc)?.try_get_matches_from(words)
}
