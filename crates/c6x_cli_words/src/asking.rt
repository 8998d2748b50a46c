ghost use Rattle.std.specs.Prelude.{◌≡◌, IfOk, map, option_map};
ghost use Rattle.std.specs.List.{list_all};
ghost use Rattle.clap.specs.Words.{found_of, rows_of};
ghost use Rattle.c6x_cli_words.specs.Arguments.{is_positional};
ghost use Rattle.c6x_cli_words.specs.Asked.{asked, generated_by, kind_in, request_told, seed_in, with_file, with_one, with_two};
ghost use Rattle.c6x_cli_words.specs.Found.{Shows};
ghost use Rattle.c6x_cli_words.specs.Told.{Told};

use crate::argument::{is_file_name, kind_named};
use crate::request::Request;
use c6x_base::Name;
use c6x_plan::number_in;
use c6x_ports::Kind;
use clap::ArgMatches;
use std::alloc::{AllocError, Global};

/// The greatest number that `gen` takes.
const MOST_NUMBER: u32 = 999_999;

/// The seed where the words give none.
const FIRST_SEED: u32 = 1;

/// What is asked for by what clap found.
pub(crate) fn request_in(alloc: Global, matches: &ArgMatches) -> Result<Option<Request>, AllocError>
    ensures { (said : Told) → Shows (rows_of (found_of matches.now)) said → IfOk result (λ request. request ≡ request_told said) }
{
    let Some(words) = matches.get_strs("words") else {
        return Ok(None);
    };
    let Some(kind) = kind_in(matches.get_str("policy")) else {
        return Ok(None);
    };
    let Some(seed) = seed_in(matches.get_str("seed")) else {
        return Ok(None);
    };
    if !are_files(words) {
        return Ok(None);
    }
    asked(alloc, words, kind, seed, matches.get_flag("turns"))
}

/// The kind that the option names, if it is there. `None` where it names none.
fn kind_in(name: Option<&str>) -> Option<Option<Kind>>
    ensures { result ≡ kind_in (option_map (λ name. name.now) name.entry) }
{
    match name {
        Some(name) => Some(Some(kind_named(name.as_bytes())?)),
        None => Some(None),
    }
}

/// The number that the option spells, if it is there. `None` where it spells none.
#[tactic(auto, unfolding(crate::specs::Arguments::number_of))]
fn seed_in(digits: Option<&str>) -> Option<Option<u32>>
    ensures { result ≡ seed_in (option_map (λ digits. digits.now) digits.entry) }
{
    match digits {
        Some(digits) => Some(Some(number_in(digits.as_bytes(), 0, u32::MAX)?)),
        None => Some(None),
    }
}

/// Whether each word may stand for a file.
fn are_files(words: &[&str]) -> bool
    ensures { result ≡ list_all is_positional (map (λ w. w.now) words.now) }
{
    for word in words {
        if !is_file_name(word.as_bytes()) {
            return false;
        }
    }
    true
}

/// What is asked for by words, a kind, a number and the flag.
#[tactic(auto, unfolding(crate::specs::Asked::asked))]
fn asked(
    alloc: Global,
    words: &[&str],
    kind: Option<Kind>,
    seed: Option<u32>,
    turns: bool,
) -> Result<Option<Request>, AllocError>
    ensures { IfOk result (λ request. request ≡ asked (map (λ w. w.now) words.now) kind seed turns) }
{
    let bare = kind.is_none() && seed.is_none() && !turns;
    match words {
        [verb, first, second] if bare => with_two(alloc, verb, first, second),
        [verb, plan] if *verb == "run" => {
            let plan = Name::from_bytes(alloc, plan.as_bytes())?;
            Ok(Some(Request::Run {
                plan,
                policy: kind.unwrap_or(Kind::Round),
                seed: seed.unwrap_or(FIRST_SEED),
                turns,
            }))
        }
        [verb, file] if bare => with_one(alloc, verb, file),
        _ => Ok(None),
    }
}

/// What a verb asks for with two files.
fn with_two(
    alloc: Global,
    verb: &str,
    first: &str,
    second: &str,
) -> Result<Option<Request>, AllocError>
    ensures { IfOk result (λ request. request ≡ with_two verb.now first.now second.now) }
{
    let first = Name::from_bytes(alloc, first.as_bytes())?;
    let second = Name::from_bytes(alloc, second.as_bytes())?;
    Ok(if verb == "as" {
        Some(Request::Assemble {
            input: first,
            output: second,
        })
    } else if verb == "ld" {
        Some(Request::Link {
            plan: first,
            output: second,
        })
    } else {
        None
    })
}

/// What a verb asks for with a file or a number.
fn with_one(alloc: Global, verb: &str, word: &str) -> Result<Option<Request>, AllocError>
    ensures { IfOk result (λ request. request ≡ with_one verb.now word.now) }
{
    if verb == "gen" {
        return Ok(generated_by(word));
    }
    with_file(alloc, verb, word)
}

/// What a number asks for.
#[tactic(auto, unfolding(crate::specs::Arguments::generator_number))]
fn generated_by(digits: &str) -> Option<Request>
    ensures { result ≡ generated_by digits.now }
{
    let number = number_in(digits.as_bytes(), 0, MOST_NUMBER)?;
    Some(Request::Generate { number })
}

/// What a verb asks for with one file.
fn with_file(alloc: Global, verb: &str, file: &str) -> Result<Option<Request>, AllocError>
    ensures { IfOk result (λ request. request ≡ with_file verb.now file.now) }
{
    let file = Name::from_bytes(alloc, file.as_bytes())?;
    Ok(if verb == "dis" {
        Some(Request::Dis { input: file })
    } else if verb == "show" {
        Some(Request::Show { input: file })
    } else if verb == "map" {
        Some(Request::Map { plan: file })
    } else {
        None
    })
}
