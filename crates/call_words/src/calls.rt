//! The calls of `solve`, `check` and `gen`.

ghost use Rattle.std.specs.Prelude.{◌≡◌, map, IfOk, IfSome};
ghost use Rattle.std.specs.String.{string_bytes};
ghost use Rattle.clap.specs.Words.{found_of, rows_of, subcommand_rows_of};
ghost use Rattle.call_words.specs.Properties.{AreWordsOf, IsWithin};
ghost use Rattle.call_words.specs.machinery.Reading.{check_named, gen_named, limits_with, said, solve_named, words_in, words_named};

use crate::command::parsed;
use crate::limits::{Limits, Words};
use crate::options::{number_given, number_or, text_of};
use base::{MOST_WORKERS, Memory};
use clap::ArgMatches;
use std::alloc::Global;

/// How many workers there are where no number is given.
const DEFAULT_WORKERS: u32 = 1;

/// How many units a book may spend.
const MOST_UNITS: u32 = 1_000_000;

/// And how many it may where no number is given.
const DEFAULT_UNITS: u32 = 50_000;

/// How many inner nodes a query may have.
const MOST_NODES: u32 = 10_000;

/// And how many it may where no number is given.
const DEFAULT_NODES: u32 = 2_000;

/// How deep a script may be made.
const MOST_DEPTH: u32 = 12;

/// And the greatest seed of one.
const MOST_SEED: u32 = 2_147_483_647;

/// The limits of three numbers.
fn limits_with(workers: Option<u32>, units: Option<u32>, nodes: Option<u32>) -> Option<Limits>
    ensures { result ≡ limits_with workers units nodes }
{
    match workers {
        None => None,
        Some(workers) => match units {
            None => None,
            Some(units) => match nodes {
                None => None,
                Some(nodes) => Some(Limits {
                    workers,
                    units,
                    nodes,
                }),
            },
        },
    }
}

/// What the options of `solve` say.
fn solve_named(options: &ArgMatches) -> Option<Words>
    ensures { result ≡ solve_named (rows_of (found_of options.now)) }
{
    let workers = number_or(
        text_of(options, "workers"),
        1,
        MOST_WORKERS,
        DEFAULT_WORKERS,
    );
    let units = number_or(text_of(options, "units"), 0, MOST_UNITS, DEFAULT_UNITS);
    let nodes = number_or(text_of(options, "nodes"), 1, MOST_NODES, DEFAULT_NODES);
    match limits_with(workers, units, nodes) {
        None => None,
        Some(limits) => Some(Words::Solve(limits)),
    }
}

/// What the option of `check` says.
fn check_named(options: &ArgMatches) -> Option<Words>
    ensures { result ≡ check_named (rows_of (found_of options.now)) }
{
    match number_or(text_of(options, "nodes"), 1, MOST_NODES, DEFAULT_NODES) {
        None => None,
        Some(nodes) => Some(Words::Check { nodes }),
    }
}

/// What the options of `gen` say.
fn gen_named(options: &ArgMatches) -> Option<Words>
    ensures { result ≡ gen_named (rows_of (found_of options.now)) }
{
    match number_given(text_of(options, "depth"), 0, MOST_DEPTH) {
        None => None,
        Some(depth) => match number_given(text_of(options, "seed"), 0, MOST_SEED) {
            None => None,
            Some(seed) => Some(Words::Gen { depth, seed }),
        },
    }
}

/// What the command of that name and its options say.
fn words_named(name: &str, options: &ArgMatches) -> Option<Words>
    ensures { result ≡ words_named name.now (rows_of (found_of options.now)) }
{
    if name == "solve" {
        solve_named(options)
    } else if name == "check" {
        check_named(options)
    } else if name == "gen" {
        gen_named(options)
    } else {
        None
    }
}

/// What the words say, as `clap` takes them.
fn words_in(matches: &ArgMatches) -> Option<Words>
    ensures { result ≡ words_in (subcommand_rows_of matches.now) }
{
    match matches.subcommand() {
        None => None,
        Some((name, options)) => words_named(name, options),
    }
}

/// What was parsed says.
fn said(parsed: &Option<ArgMatches>) -> Option<Words>
    ensures { result ≡ said parsed.now }
{
    match parsed {
        None => None,
        Some(matches) => words_in(matches),
    }
}

/// What the words after the program's name say; nothing where they are no call. They are the name of a
/// command and then its options, in any order, each once at most and as `--name VALUE` or `--name=VALUE`,
/// where each value is a numeral within its range; want of memory is an answer of its own.
pub fn words_of(alloc: Global, words: &[String]) -> Result<Option<Words>, Memory>
    ensures read { IfOk result (AreWordsOf (map string_bytes words.now)) }
    ensures within { IfOk result (λ found. IfSome found IsWithin) }
{
    let parsed = parsed(alloc, words)?;
    let found = said(&parsed);
    Ok(found)
}
