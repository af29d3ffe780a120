// What the words of `digest` ask for.
ghost use Rattle.std.specs.Prelude.{◌≡◌, ◌≤◌, IfSome, count_by, option_and_then, option_map};
ghost use Rattle.clap.specs.Words.{found_of, rows_of};
ghost use Rattle.ged_tool.specs.Settings.{profile_of, edition_of};
ghost use Rattle.ged_cmd.specs.Tasks.{digest_asked, digests as digests_task_of, is_input as is_input_word};
ghost use Rattle.ged_cmd.specs.inner.Tasks.{digests_task, names_of};

use crate::arguments::FILE;
use crate::words::{is_input, settings_of};
use clap::ArgMatches;
use ged_tool::Settings;

/// The digests that are asked for.
#[derive(Clone, Copy)]
pub(crate) struct Digests<'m, 'a> {
    pub(crate) settings: Settings,
    /// The files in their order. At most one stands for standard input.
    pub(crate) files: &'m [&'a str],
}

/// What `digest` asks for, or `None` where two files would be standard input.
pub(crate) fn digests_asked<'m, 'a>(matches: &'m ArgMatches<'a>) -> Option<Digests<'m, 'a>>
    ensures asked { option_map digests_task result ≡ digest_asked (rows_of (found_of matches.now)) }
    ensures once { IfSome result (λ digests. count_by is_input_word (names_of digests.files.now) ≤ 1) }
{
    digests_of(settings_of(matches), matches.get_strs(FILE))
}

/// The digests of files, or `None` where two of them would be standard input, or there are none.
fn digests_of<'m, 'a>(settings: Settings, files: Option<&'m [&'a str]>) -> Option<Digests<'m, 'a>>
    ensures asked { option_map digests_task result ≡ option_and_then (digests_task_of (profile_of settings) (edition_of settings))
        (option_map (λ files. names_of files.now) files.entry) }
    ensures once { IfSome result (λ digests. count_by is_input_word (names_of digests.files.now) ≤ 1) }
{
    let files = files?;
    if inputs(files) > 1 {
        return None;
    }
    Some(Digests { settings, files })
}

/// How often standard input is among files.
fn inputs(files: &[&str]) -> usize
    ensures { result ≡ count_by is_input_word (names_of files.now) }
{
    files.iter().filter(|name| is_input(name)).count()
}
