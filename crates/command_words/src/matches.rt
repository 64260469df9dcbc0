//! The command that clap's matches name.
ghost use Rattle.std.specs.Prelude.{ℕ, List, Some, codes, map, IfOk, IfSome, IfNone};
ghost use Rattle.clap.specs.Words.{all_of, found_of, one_of, rows_of, subcommand_rows_of};
ghost use Rattle.command_words.specs.Named.{Names, NamesNone, HasWorkers, IsWorkers, IsObject, AreObjects, workers_id, objects_id};

use crate::Command;
use clap::ArgMatches;
use std::alloc::{AllocError, Global};
use trace_types::limits::{MAX_ID, MAX_WORKERS};
use trace_types::sequence::Sequence;

/// The command, where the matches name one. May take memory.
pub fn named(alloc: Global, matches: &ArgMatches<'_>) -> Result<Option<Command>, AllocError>
    ensures some { IfOk result (λ found. IfSome found (Names (subcommand_rows_of matches.now))) }
    ensures workers { IfOk result (λ found. IfSome found HasWorkers) }
    ensures none { IfOk result (λ found. IfNone found (NamesNone (subcommand_rows_of matches.now))) }
{
    let Some((name, own)) = matches.subcommand() else {
        return Ok(None);
    };
    match name {
        "replay" => Ok(Some(Command::Replay)),
        "script" => Ok(Some(Command::Script)),
        "whatif" => Ok(Some(Command::Whatif)),
        "race" => Ok(race(own)),
        "explain" => explain(alloc, own),
        "picture" => picture(alloc, own),
        _ => Ok(None),
    }
}

// What the matches of `race` say.
fn race(own: &ArgMatches<'_>) -> Option<Command>
    ensures some { IfSome result (Names (Some (codes "race", rows_of (found_of own.now)))) }
    ensures workers { IfSome result HasWorkers }
    ensures none { IfNone result (NamesNone (Some (codes "race", rows_of (found_of own.now)))) }
{
    Some(Command::Race(workers(own)?))
}

// What the matches of `explain` say.
fn explain(alloc: Global, own: &ArgMatches<'_>) -> Result<Option<Command>, AllocError>
    ensures some { IfOk result (λ found. IfSome found (Names (Some (codes "explain", rows_of (found_of own.now))))) }
    ensures workers { IfOk result (λ found. IfSome found HasWorkers) }
    ensures none { IfOk result (λ found. IfNone found (NamesNone (Some (codes "explain", rows_of (found_of own.now))))) }
{
    match objects(alloc, own)? {
        Some(objects) => Ok(Some(Command::Explain(objects, own.get_flag("life")))),
        None => Ok(None),
    }
}

// What the matches of `picture` say.
fn picture(alloc: Global, own: &ArgMatches<'_>) -> Result<Option<Command>, AllocError>
    ensures some { IfOk result (λ found. IfSome found (Names (Some (codes "picture", rows_of (found_of own.now))))) }
    ensures workers { IfOk result (λ found. IfSome found HasWorkers) }
    ensures none { IfOk result (λ found. IfNone found (NamesNone (Some (codes "picture", rows_of (found_of own.now))))) }
{
    match objects(alloc, own)? {
        Some(objects) => Ok(Some(Command::Picture(objects, own.get_flag("all")))),
        None => Ok(None),
    }
}

// The numbers of objects that the matches of `explain` or `picture` have, in their order.
fn objects(alloc: Global, matches: &ArgMatches<'_>) -> Result<Option<Sequence<u32>>, AllocError>
    ensures some { IfOk result (λ found. IfSome found
        (AreObjects (all_of objects_id (rows_of (found_of matches.now))))) }
    ensures none { IfOk result (λ found. IfNone found ((objects : List ℕ)
        → AreObjects (all_of objects_id (rows_of (found_of matches.now))) objects → ⊥)) }
{
    match matches.get_raw("objects") {
        Some(texts) => numbers(alloc, texts),
        None => Ok(Some(Sequence::empty(alloc))),
    }
}

// The numbers of objects that texts are, one by one.
fn numbers(alloc: Global, texts: &[&str]) -> Result<Option<Sequence<u32>>, AllocError>
    ensures some { IfOk result (λ found. IfSome found
        (AreObjects (Some (map (λ t. t.now) texts.now)))) }
    ensures none { IfOk result (λ found. IfNone found ((objects : List ℕ)
        → AreObjects (Some (map (λ t. t.now) texts.now)) objects → ⊥)) }
{
    let mut objects = Vec::new(alloc);
    for text in texts {
        match number(text) {
            Some(object) => objects.push(object)?,
            None => return Ok(None),
        }
    }
    Ok(Some(Sequence::from_vec(objects)))
}

// The number of an object that a text is.
fn number(text: &str) -> Option<u32>
    ensures some { IfSome result (IsObject text.now) }
    ensures none { IfNone result ((n : ℕ) → IsObject text.now n → ⊥) }
{
    let object = text.parse::<u32>().ok()?;
    if object < 1 || MAX_ID < object {
        return None;
    }
    Some(object)
}

// The number of workers that the matches of `race` have.
fn workers(matches: &ArgMatches<'_>) -> Option<u32>
    ensures some { IfSome result (IsWorkers (one_of workers_id (rows_of (found_of matches.now)))) }
    ensures none { IfNone result ((n : ℕ)
        → IsWorkers (one_of workers_id (rows_of (found_of matches.now))) n → ⊥) }
{
    let workers = matches.get_one::<u32>("workers")?;
    if workers < 1 {
        return None;
    }
    if MAX_WORKERS < workers {
        return None;
    }
    Some(workers)
}
