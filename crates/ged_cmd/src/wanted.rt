// What the words of the command line say as a whole.
ghost use Rattle.std.specs.Prelude.{◌≡◌, [], List, IfOk, IfErr, IfSome, false, codes, map, option_and_then, option_map, string_bytes};
ghost use Rattle.std.specs.Option.{option_map_or};
ghost use Rattle.std.specs.Result.{result_ok};
ghost use Rattle.clap.specs.Words.{Row, Text, found_of, rows_of, subcommand_of, subcommand_rows_of, fault_of};
ghost use Rattle.clap.specs.Kinds.{HasKind};
ghost use Rattle.ged_cmd.specs.CommandLine as line;
ghost use Rattle.ged_cmd.specs.Tasks.{digest_asked, is_set, single_asked, task_of_match};
ghost use Rattle.ged_cmd.specs.inner.Tasks.{IsReadOnce, mistake_in, wanted_task};

use crate::arguments::{EXPLAIN, FAULT};
use crate::digest_words::{Digests, digests_asked};
use crate::grammar::command_line;
use crate::words::{Request, is_flagged, request_of};
use clap::{ArgMatches, Error};
use std::alloc::Global;

/// What the words say.
#[derive(Clone, Copy)]
pub(crate) struct Asked<'m, 'a> {
    /// What the program is asked for, or a mistake that clap doesn't know.
    pub(crate) wanted: Result<Wanted<'m, 'a>, Mistake>,
    /// Whether faults and notices are explained.
    pub(crate) explains: bool,
    /// The word of `explain`, which a mistake in it quotes.
    pub(crate) word: Option<&'a str>,
}

/// What is wrong with words that clap takes.
#[derive(Clone, Copy)]
pub(crate) enum Mistake {
    /// Both files of `same` would be standard input.
    TwoInputs,
    /// Two files of `digest` would be standard input.
    InputTwice,
    /// The word of `explain` is of no fault.
    NoFault,
}

/// What the program is asked for.
#[derive(Clone, Copy)]
pub(crate) enum Wanted<'m, 'a> {
    /// What has one answer.
    Request(Request<'a>),
    /// The digests of files.
    Digests(Digests<'m, 'a>),
}

/// Reads the words, of which the first is the program's name. The error is clap's: a mistake in
/// the words, a request for help or the version, or want of memory.
pub(crate) fn read_words<'a>(alloc: Global, words: &'a [String]) -> Result<ArgMatches<'a>, Error>
    ensures no_mistake { IfOk result (λ _. fault_of line.gedtool (map string_bytes words.entry.now) ≡ []) }
    ensures matched { IfOk result (λ matches. subcommand_rows_of matches ≡ subcommand_of line.gedtool (map string_bytes words.entry.now)) }
    ensures refused { IfErr result (HasKind (fault_of line.gedtool (map string_bytes words.entry.now))) }
{
    let matches = command_line(alloc)?.try_get_matches_from(words)?;
    Ok(matches)
}

/// What the matches of the words say. No request is a mistake that clap doesn't know: `same` where both files would be standard
/// input, `digest` where two would be, or `explain` where the word is of no fault. Words without a mistake have a subcommand,
/// since clap requires one, so that there is a request for all others.
pub(crate) fn asked_of<'m, 'a>(matches: &'m ArgMatches<'a>) -> Asked<'m, 'a>
    ensures asked { option_map wanted_task (result_ok result.wanted) ≡ option_and_then task_of_match (subcommand_rows_of matches.now) }
    ensures mistake { IfErr result.wanted (λ mistake. mistake ≡ mistake_in (subcommand_rows_of matches.now)) }
    ensures once { IfOk result.wanted IsReadOnce }
    ensures explained { result.explains ≡ option_map_or (λ (found : Text × List Row). is_set (codes "explain") found.1)
        (subcommand_rows_of matches.now) false }
{
    Asked {
        wanted: wanted_of(matches).ok_or(mistake_of(matches)),
        explains: is_explained(matches),
        word: word_of(matches),
    }
}

/// What is wrong with words that ask for nothing.
fn mistake_of(matches: &ArgMatches<'_>) -> Mistake
    ensures { result ≡ mistake_in (subcommand_rows_of matches.now) }
{
    match matches.subcommand() {
        Some((name, _)) if name == "explain" => Mistake::NoFault,
        Some((name, _)) if name == "digest" => Mistake::InputTwice,
        _ => Mistake::TwoInputs,
    }
}

/// Whether the subcommand is asked for explanations.
fn is_explained(matches: &ArgMatches<'_>) -> bool
    ensures { result ≡ option_map_or (λ (found : Text × List Row). is_set (codes "explain") found.1)
        (subcommand_rows_of matches.now) false }
{
    match matches.subcommand() {
        Some((_, inner)) => is_flagged(inner, EXPLAIN),
        None => false,
    }
}

/// The word of `explain`; `None` where none is given, and for any other subcommand.
fn word_of<'a>(matches: &ArgMatches<'a>) -> Option<&'a str> {
    match matches.subcommand() {
        Some((name, inner)) if name == "explain" => inner.get_str(FAULT),
        _ => None,
    }
}

/// What the matches of the words ask for.
fn wanted_of<'m, 'a>(matches: &'m ArgMatches<'a>) -> Option<Wanted<'m, 'a>>
    ensures asked { option_map wanted_task result ≡ option_and_then task_of_match (subcommand_rows_of matches.now) }
    ensures once { IfSome result IsReadOnce }
{
    let (name, inner) = matches.subcommand()?;
    wanted_by(name, inner)
}

/// What the matches of a subcommand ask for.
fn wanted_by<'m, 'a>(name: &str, matches: &'m ArgMatches<'a>) -> Option<Wanted<'m, 'a>>
    ensures asked { option_map wanted_task result ≡ task_of_match (name.now, rows_of (found_of matches.now)) }
    ensures once { IfSome result IsReadOnce }
{
    if name == "digest" {
        return digests_wanted(matches);
    }
    request_wanted(name, matches)
}

/// What the matches of `digest` ask for.
fn digests_wanted<'m, 'a>(matches: &'m ArgMatches<'a>) -> Option<Wanted<'m, 'a>>
    ensures asked { option_map wanted_task result ≡ digest_asked (rows_of (found_of matches.now)) }
    ensures once { IfSome result IsReadOnce }
{
    Some(Wanted::Digests(digests_asked(matches)?))
}

/// What the matches of any other subcommand ask for.
fn request_wanted<'m, 'a>(name: &str, matches: &'m ArgMatches<'a>) -> Option<Wanted<'m, 'a>>
    ensures asked { option_map wanted_task result ≡ single_asked name.now (rows_of (found_of matches.now)) }
    ensures once { IfSome result IsReadOnce }
{
    Some(Wanted::Request(request_of(name, matches)?))
}
