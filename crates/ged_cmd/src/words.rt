// What the words of the command line ask for.
ghost use Rattle.std.specs.Prelude.{◌≡◌, false, option_map};
ghost use Rattle.std.specs.Prelude.{if◌then◌else◌};
ghost use Rattle.clap.specs.Words.{rows_of, found_of};
ghost use Rattle.ged_cmd.specs.CommandLine as line;
ghost use Rattle.ged_tool.specs.Settings.{profile_of, edition_of};
ghost use Rattle.ged_cmd.specs.Tasks.{explain_asked, explanation as explanation_of, single_asked};
ghost use Rattle.ged_cmd.specs.Tasks.{canon_keeping as canon_keeping_of, command_of, comparison as comparison_task, edition_asked, file_named as file_of, is_input as is_input_word, is_set};
ghost use Rattle.ged_cmd.specs.Tasks.{form_asked, form_keeping as form_keeping_of, profile_asked, run_asked, same_asked};
ghost use Rattle.ged_cmd.specs.inner.Tasks.{task_of};

use crate::arguments::{FAULT, FILE, FIRST_FILE, KEEP_NAMES, OUTPUT, SECOND, SECOND_FILE, STRICT};
use crate::meanings::meaning_called;
use clap::ArgMatches;
use ged_explain::{Meaning, meanings};
use ged_tool::{Command, Comparison, Edition, Form, Profile, Settings};

/// What has one answer.
#[derive(Clone, Copy)]
pub(crate) enum Request<'a> {
    /// A command over one file, or over standard input where none is named; its answer goes into a file, or to standard
    /// output where none is named.
    Run {
        command: Command,
        settings: Settings,
        file: Option<&'a str>,
        into: Option<&'a str>,
    },
    /// Whether two files are the same; the second is standard input where none is named.
    Same {
        comparison: Comparison,
        first: &'a str,
        second: Option<&'a str>,
    },
    /// Whether standard input is the same as a file.
    SameInput {
        comparison: Comparison,
        second: &'a str,
    },
    /// What a fault means, or what all mean where none is named.
    Explain {
        meaning: Option<&'static Meaning>,
    },
}

/// What a subcommand asks for that has one answer.
pub(crate) fn request_of<'a>(name: &str, matches: &ArgMatches<'a>) -> Option<Request<'a>>
    ensures { option_map task_of result ≡ single_asked name.now (rows_of (found_of matches.now)) }
{
    if name == "same" {
        return same_request(matches);
    }
    if name == "explain" {
        return explain_request(matches);
    }
    run_request(name, matches)
}

/// What `same` asks for, or `None` where both files would be standard input.
fn same_request<'a>(matches: &ArgMatches<'a>) -> Option<Request<'a>>
    ensures { option_map task_of result ≡ same_asked (rows_of (found_of matches.now)) }
{
    let first = file_named(matches.get_str(FIRST_FILE));
    let second = file_named(matches.get_str(SECOND_FILE));
    comparing(comparison_of(matches), first, second)
}

/// How the flags of `same` ask for its files to be compared.
fn comparison_of(matches: &ArgMatches<'_>) -> Comparison
    ensures form { result.form ≡ form_asked (rows_of (found_of matches.now)) }
    ensures profile { profile_of result.settings ≡ profile_asked (rows_of (found_of matches.now)) }
    ensures edition { edition_of result.settings ≡ edition_asked (rows_of (found_of matches.now)) }
{
    Comparison {
        settings: settings_of(matches),
        form: form_keeping(is_flagged(matches, KEEP_NAMES)),
    }
}

/// The form in which files are compared: that in which identifiers count, where their names are to be kept.
fn form_keeping(keeps_names: bool) -> Form
    ensures { result ≡ form_keeping_of keeps_names }
{
    if keeps_names {
        Form::Tidy
    } else {
        Form::Canonical
    }
}

/// The request to compare two files, or `None` where both would be standard input.
fn comparing<'a>(
    comparison: Comparison,
    first: Option<&'a str>,
    second: Option<&'a str>,
) -> Option<Request<'a>>
    ensures { option_map task_of result ≡ comparison_task comparison.form (profile_of comparison.settings) (edition_of comparison.settings)
        (option_map (λ name. name.now) first.entry) (option_map (λ name. name.now) second.entry) }
{
    match first {
        Some(first) => Some(Request::Same {
            comparison,
            first,
            second,
        }),
        None => Some(Request::SameInput {
            comparison,
            second: second?,
        }),
    }
}

/// What `explain` asks for, or `None` where its word is of no fault.
fn explain_request<'a>(matches: &ArgMatches<'a>) -> Option<Request<'a>>
    ensures { option_map task_of result ≡ explain_asked (rows_of (found_of matches.now)) }
{
    explanation(matches.get_str(FAULT))
}

/// The request to explain what a word is of, or `None` where it is of no fault.
fn explanation<'a>(word: Option<&str>) -> Option<Request<'a>>
    ensures { option_map task_of result ≡ explanation_of (option_map (λ word. word.now) word.entry) }
{
    match word {
        None => Some(Request::Explain { meaning: None }),
        Some(word) => Some(Request::Explain {
            meaning: Some(meaning_called(meanings(), word)?),
        }),
    }
}

/// What any other subcommand asks for.
fn run_request<'a>(name: &str, matches: &ArgMatches<'a>) -> Option<Request<'a>>
    ensures { option_map task_of result ≡ run_asked name.now (rows_of (found_of matches.now)) }
{
    Some(Request::Run {
        command: command_named(name, is_flagged(matches, KEEP_NAMES))?,
        settings: settings_of(matches),
        file: file_named(matches.get_str(FILE)),
        into: file_named(matches.get_str(OUTPUT)),
    })
}

/// The file that a word names: `None` where the word is left out or stands for standard input, or output.
pub(crate) fn file_named(word: Option<&str>) -> Option<&str>
    ensures { option_map (λ name. name.now) result ≡ file_of (option_map (λ word. word.now) word.entry) }
{
    let word = word?;
    if is_input(word) { None } else { Some(word) }
}

/// Whether a word stands for standard input, or output.
pub(crate) fn is_input(word: &str) -> bool
    ensures { result ≡ is_input_word word.now }
{
    word == "-"
}

/// The command over one file that has this name. The flag asks `canon` to keep the names of identifiers.
fn command_named(name: &str, keeps_names: bool) -> Option<Command>
    ensures { result ≡ command_of name.now keeps_names }
{
    match name {
        "lines" => Some(Command::Lines),
        "check" => Some(Command::Check),
        "show" => Some(Command::Show),
        "canon" => Some(canon_keeping(keeps_names)),
        _ => None,
    }
}

/// `canon`, which keeps the names of identifiers or gives them new ones.
fn canon_keeping(keeps_names: bool) -> Command
    ensures { result ≡ canon_keeping_of keeps_names }
{
    if keeps_names {
        Command::Tidy
    } else {
        Command::Canon
    }
}

/// The settings that the flags of a subcommand ask for: lenient and of the first edition where it
/// has none.
pub(crate) fn settings_of(matches: &ArgMatches<'_>) -> Settings
    ensures profile { profile_of result ≡ profile_asked (rows_of (found_of matches.now)) }
    ensures edition { edition_of result ≡ edition_asked (rows_of (found_of matches.now)) }
{
    settings_asked(is_flagged(matches, STRICT), is_flagged(matches, SECOND))
}

/// The settings under these flags.
fn settings_asked(strict: bool, second: bool) -> Settings
    ensures profile { profile_of result ≡ (if strict then Profile.Strict else Profile.Lenient) }
    ensures edition { edition_of result ≡ (if second then Edition.Second else Edition.First) }
{
    let settings = Settings::new();
    let settings = if strict { settings.strict() } else { settings };
    if second { settings.second() } else { settings }
}

/// Whether a flag is set.
pub(crate) fn is_flagged(matches: &ArgMatches<'_>, flag: &str) -> bool
    ensures { result ≡ is_set flag.now (rows_of (found_of matches.now)) }
{
    matches.get_one::<bool>(flag).unwrap_or(false)
}
