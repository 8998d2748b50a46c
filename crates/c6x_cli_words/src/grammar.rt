ghost use Rattle.std.specs.Prelude.{◌≡◌, ◌≢◌, [], false, IfOk, MatchOption, map};
ghost use Rattle.clap.specs.Words.{app_of, fault_of, found_of, matches_of, rows_of, rule_of};
ghost use Rattle.c6x_cli_words.specs.Grammar.{app, bare, flag_rule, option_rule, words_rule};

use clap::error::ErrorKind;
use clap::{Arg, ArgAction, ArgMatches, Command};
use std::alloc::{AllocError, Global};

/// The words that clap is to read: words that stand for themselves, two options with a value, and a flag.
pub(crate) fn grammar<'a>(alloc: Global) -> Result<Command<'a>, AllocError>
    ensures { IfOk result (λ command. app_of command ≡ app) }
{
    let worded = bare(alloc).arg(words_arg(alloc))?;
    let ruled = worded.arg(option_arg(alloc, "policy"))?;
    let seeded = ruled.arg(option_arg(alloc, "seed"))?;
    let told = seeded.arg(flag_arg(alloc, "turns"))?;
    Ok(told)
}

/// The command without an argument: its words do not begin with its name, and it has no help of its own.
fn bare<'a>(alloc: Global) -> Command<'a>
    ensures { app_of result ≡ bare }
{
    Command::new(alloc, "c6x")
        .no_binary_name(true)
        .disable_help_flag(true)
}

/// Words that stand for themselves, in any number.
fn words_arg<'a>(alloc: Global) -> Arg<'a>
    ensures rule { rule_of result ≡ words_rule }
    ensures local { result.global ≡ false }
{
    Arg::new(alloc, "words").action(ArgAction::Append)
}

/// An option with a value.
fn option_arg<'a>(alloc: Global, name: &'a str) -> Arg<'a>
    ensures rule { rule_of result ≡ option_rule name.entry.now }
    ensures local { result.global ≡ false }
{
    Arg::new(alloc, name).long(name).action(ArgAction::Set)
}

/// An option without one.
fn flag_arg<'a>(alloc: Global, name: &'a str) -> Arg<'a>
    ensures rule { rule_of result ≡ flag_rule name.entry.now }
    ensures local { result.global ≡ false }
{
    Arg::new(alloc, name).long(name).action(ArgAction::SetTrue)
}

/// What clap finds in words. `None` exactly where it refuses them.
pub(crate) fn matches_in<'a>(
    alloc: Global,
    words: &'a [&'a str],
) -> Result<Option<ArgMatches<'a>>, AllocError>
    ensures { IfOk result (λ found. MatchOption found (fault_of app (map (λ w. w.now) words.entry.now) ≢ [])
        (λ matches. (fault_of app (map (λ w. w.now) words.entry.now) ≡ [])
        × (rows_of (found_of matches) ≡ matches_of app (map (λ w. w.now) words.entry.now)))) }
{
    let command = grammar(alloc)?;
    match command.try_get_matches_from(words) {
        Ok(matches) => Ok(Some(matches)),
        Err(error) if error.kind() == ErrorKind::OutOfMemory => Err(AllocError),
        Err(_) => Ok(None),
    }
}
