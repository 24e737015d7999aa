// What the matches of the command ask for.
ghost use Rattle.std.specs.Prelude.{◌≡◌, Some, length, option_map, IfOk, IfErr};
ghost use Rattle.clap.specs.Words.{found_of, rows_of};
ghost use Rattle.run_command.specs.Words.{made_from, IsRefusal, asked_for, asked_in, files_in, generated_in, limit_in, named_in, option_number, request_for, request_in, sizes_in, summary_in};
ghost use Rattle.run_command.specs.Parts.{request_with};

use crate::plan::{Input, Plan, Sizes, WordsFault};
use clap::ArgMatches;
use js_store::Limit;
use std::alloc::Global;

// The most jobs.
const JOBS_MAX: u32 = 64;

// The most that one size may be, and that all three may be together.
const SIZE_MAX: u32 = 536_870_911;

const TOGETHER_MAX: u64 = 536_870_912;

// The most files that may be named.
const FILES_MAX: usize = 4096;

// The number of an option, where it is in the range. A sign and leading zeros are accepted, as by the
// command.
fn number_in(matches: &ArgMatches, id: &str, least: u32, most: u32) -> Option<u32>
    ensures { result ≡ option_number least most id.now (rows_of (found_of matches.now)) }
{
    let number = matches.get_str(id)?.parse::<i64>().ok()?;
    if number < i64::from(least) || number > i64::from(most) {
        return None;
    }
    Some(number as u32)
}

fn sizes_in(matches: &ArgMatches) -> Option<Sizes>
    ensures { result ≡ sizes_in (rows_of (found_of matches.now)) }
{
    let ids = number_in(matches, "ids", 1, SIZE_MAX)?;
    let heap_words = number_in(matches, "heap-words", 1, SIZE_MAX)?;
    let slots = number_in(matches, "slots", 1, SIZE_MAX)?;
    if u64::from(ids) + u64::from(heap_words) + u64::from(slots) > TOGETHER_MAX {
        return None;
    }
    Some(Sizes {
        ids,
        heap_words,
        slots,
    })
}

fn limit_in(matches: &ArgMatches) -> Option<Limit>
    ensures { result ≡ limit_in (rows_of (found_of matches.now)) }
{
    let bits = number_in(matches, "limit", 32, 64)?;
    if bits == 32 {
        return Some(Limit::Bits32);
    }
    if bits == 64 {
        return Some(Limit::Bits64);
    }
    None
}

fn summary_in(matches: &ArgMatches) -> bool
    ensures { result ≡ summary_in (rows_of (found_of matches.now)) }
{
    matches.get_one::<bool>("summary").unwrap_or(false)
}

// How many arguments name files.
fn file_count(matches: &ArgMatches) -> usize
    ensures { result ≡ length (files_in (rows_of (found_of matches.now))) }
{
    match matches.get_strs("FILE") {
        Some(files) => files.len(),
        None => 0,
    }
}

// Files, and a prelude or none.
fn named<'a>(alloc: Global, matches: &ArgMatches<'a>) -> Result<Input<'a>, WordsFault>
    ensures asked { IfOk result
        (λ input. named_in (rows_of (found_of matches.now)) ≡ Some (asked_for input)) }
    ensures refused { IfErr result (IsRefusal (named_in (rows_of (found_of matches.now)))) }
{
    let files = match matches.get_strs("FILE") {
        Some(files) => files,
        None => return Err(WordsFault::Refused),
    };
    if files.is_empty() {
        return Err(WordsFault::Refused);
    }
    if files.len() > FILES_MAX {
        return Err(WordsFault::Refused);
    }
    let scripts = files.to_vec(alloc)?;
    Ok(Input::Files {
        prelude: matches.get_str("prelude"),
        scripts,
    })
}

// A number to generate sources from, with neither a prelude nor a file.
fn generated(matches: &ArgMatches) -> Option<u32>
    ensures { option_map made_from result ≡ generated_in (rows_of (found_of matches.now)) }
{
    if matches.get_str("prelude").is_some() {
        return None;
    }
    if file_count(matches) > 0 {
        return None;
    }
    number_in(matches, "generate", 0, u32::MAX)
}

fn input_in<'a>(alloc: Global, matches: &ArgMatches<'a>) -> Result<Input<'a>, WordsFault>
    ensures asked { IfOk result
        (λ input. asked_in (rows_of (found_of matches.now)) ≡ Some (asked_for input)) }
    ensures refused { IfErr result (IsRefusal (asked_in (rows_of (found_of matches.now)))) }
{
    if matches.get_str("generate").is_none() {
        return named(alloc, matches);
    }
    match generated(matches) {
        Some(number) => Ok(Input::Generated(number)),
        None => Err(WordsFault::Refused),
    }
}

// The numbers and flags of a plan.
fn plan_with<'a>(matches: &ArgMatches<'a>, input: Input<'a>) -> Option<Plan<'a>>
    ensures { option_map request_for result
        ≡ request_with (asked_for input.entry) (rows_of (found_of matches.now)) }
{
    let jobs = number_in(matches, "jobs", 1, JOBS_MAX)?;
    let sizes = sizes_in(matches)?;
    let limit = limit_in(matches)?;
    Some(Plan {
        input,
        jobs,
        sizes,
        summary: summary_in(matches),
        limit,
    })
}

/// The plan of the matches of the command.
pub(crate) fn plan_in<'a>(alloc: Global, matches: &ArgMatches<'a>) -> Result<Plan<'a>, WordsFault>
    ensures planned { IfOk result
        (λ plan. request_in (rows_of (found_of matches.now)) ≡ Some (request_for plan)) }
    ensures refused { IfErr result (IsRefusal (request_in (rows_of (found_of matches.now)))) }
{
    let input = input_in(alloc, matches)?;
    match plan_with(matches, input) {
        Some(plan) => Ok(plan),
        None => Err(WordsFault::Refused),
    }
}
