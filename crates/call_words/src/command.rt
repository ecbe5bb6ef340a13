//! The command line, as `clap` is told of it.

ghost use Rattle.std.specs.Prelude.{◌≡◌, ◌≢◌, ◌↔◌, map, IfOk, IsTrue, None, false};
ghost use Rattle.clap.specs.Words.{app_of, kind_of, rule_of, with_rule, with_subcommand};
ghost use Rattle.clap.specs.declared.builder.command.Command.TheViews.{out-Command};
ghost use Rattle.call_words.specs.Command.{alone, check, chc, gen, option, solve};
ghost use Rattle.call_words.specs.Parsed.{IsParsedAs};
ghost use Rattle.std.specs.String.{string_bytes};

use base::Memory;
use clap::error::ErrorKind;
use clap::{Arg, ArgAction, ArgMatches, Command, Error};
use std::alloc::{AllocError, Global};

/// The option of that name, which takes a value.
fn option<'a>(alloc: Global, name: &'a str) -> Arg<'a>
    ensures rule { rule_of result ≡ option name.entry.now }
    ensures local { result.global ≡ false }
{
    Arg::new(alloc, name).long(name).action(ArgAction::Set)
}

/// The command with the option of that name more.
fn with_option<'a>(
    alloc: Global,
    command: Command<'a>,
    name: &'a str,
) -> Result<Command<'a>, AllocError>
    ensures shape { IfOk result (λ more. app_of more
        ≡ with_rule (app_of command.entry) (option name.entry.now)) }
    ensures local { IfOk result (λ more. (out-Command command.entry).has_globals ≡ false
        → (out-Command more).has_globals ≡ false) }
{
    command.arg(option(alloc, name))
}

/// `solve`, with three options.
fn solve<'a>(alloc: Global) -> Result<Command<'a>, AllocError>
    ensures shape { IfOk result (λ command. app_of command ≡ alone solve) }
    ensures local { IfOk result (λ command. (out-Command command).has_globals ≡ false) }
{
    let workers = with_option(alloc, Command::new(alloc, "solve"), "workers")?;
    let units = with_option(alloc, workers, "units")?;
    with_option(alloc, units, "nodes")
}

/// `check`, with one.
fn check<'a>(alloc: Global) -> Result<Command<'a>, AllocError>
    ensures shape { IfOk result (λ command. app_of command ≡ alone check) }
    ensures local { IfOk result (λ command. (out-Command command).has_globals ≡ false) }
{
    with_option(alloc, Command::new(alloc, "check"), "nodes")
}

/// `gen`, with two.
fn generate<'a>(alloc: Global) -> Result<Command<'a>, AllocError>
    ensures shape { IfOk result (λ command. app_of command ≡ alone gen) }
    ensures local { IfOk result (λ command. (out-Command command).has_globals ≡ false) }
{
    let depth = with_option(alloc, Command::new(alloc, "gen"), "depth")?;
    with_option(alloc, depth, "seed")
}

/// The command with `check` more.
fn with_check<'a>(alloc: Global, command: Command<'a>) -> Result<Command<'a>, AllocError>
    ensures { IfOk result (λ more. app_of more ≡ with_subcommand (app_of command.entry) check) }
{
    let check = check(alloc)?;
    command.subcommand(check)
}

/// The command with `gen` more.
fn with_generate<'a>(alloc: Global, command: Command<'a>) -> Result<Command<'a>, AllocError>
    ensures { IfOk result (λ more. app_of more ≡ with_subcommand (app_of command.entry) gen) }
{
    let generate = generate(alloc)?;
    command.subcommand(generate)
}

/// The whole command line: one of the three is wanted, and there is no help.
fn chc<'a>(alloc: Global) -> Result<Command<'a>, AllocError>
    ensures { IfOk result (λ command. app_of command ≡ chc) }
{
    let solve = solve(alloc)?;
    let first = Command::new(alloc, "chc")
        .no_binary_name(true)
        .disable_help_flag(true)
        .disable_help_subcommand(true)
        .subcommand_required(true)
        .subcommand(solve)?;
    let second = with_check(alloc, first)?;
    with_generate(alloc, second)
}

/// Whether this is want of memory.
fn wants_memory(error: &Error) -> bool
    ensures { IsTrue result ↔ (kind_of error.now ≡ ErrorKind.OutOfMemory) }
{
    error.kind() == ErrorKind::OutOfMemory
}

/// Words that `clap` refuses are none, unless memory was wanted.
fn refused<'a>(error: Error) -> Result<Option<ArgMatches<'a>>, Memory>
    ensures { IfOk result (λ found. (found ≡ None) × (kind_of error ≢ ErrorKind.OutOfMemory)) }
{
    if wants_memory(&error) {
        return Err(Memory);
    }
    Ok(None)
}

/// What `clap` makes of the words; nothing where it refuses them.
pub(crate) fn parsed<'a>(
    alloc: Global,
    words: &'a [String],
) -> Result<Option<ArgMatches<'a>>, Memory>
    ensures { IfOk result (IsParsedAs (map string_bytes words.entry.now)) }
{
    let command = chc(alloc)?;
    match command.try_get_matches_from(words) {
        Ok(matches) => Ok(Some(matches)),
        Err(error) => refused(error),
    }
}
