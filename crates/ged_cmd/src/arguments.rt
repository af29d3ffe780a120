// The arguments of the commands: files, a fault, flags and the option of the output.
ghost use Rattle.std.specs.Prelude.{true};
ghost use Rattle.clap.specs.Words.{new_rule};
ghost use Rattle.ged_cmd.specs.CommandLine as line;
ghost use Rattle.ged_cmd.specs.inner.CommandLine.{IsArg, rule_given};

use crate::help;
use clap::{Arg, ArgAction};
use std::alloc::Global;

/// The file that is read, or one of many.
pub(crate) const FILE: &str = "FILE";

/// The first of two files.
pub(crate) const FIRST_FILE: &str = "A";

/// The second of two files.
pub(crate) const SECOND_FILE: &str = "B";

/// The word of a fault.
pub(crate) const FAULT: &str = "FAULT";

/// The flag under which a notice refuses a file.
pub(crate) const STRICT: &str = "strict";

/// The flag for the second edition of the canonical form.
pub(crate) const SECOND: &str = "second";

/// The flag for the form that keeps the names of identifiers.
pub(crate) const KEEP_NAMES: &str = "keep-names";

/// The option that names the file that an answer goes into.
pub(crate) const OUTPUT: &str = "output";

/// The flag under which faults and notices are explained.
pub(crate) const EXPLAIN: &str = "explain";

/// An argument of a command.
#[derive(Clone, Copy)]
pub(crate) enum Argument {
    /// The file to read, which may be left out.
    File,
    /// The first of two files.
    FirstFile,
    /// The second of two files, which may be left out.
    SecondFile,
    /// The files to read, of which there is one at least.
    Files,
    /// The word of a fault, which may be left out.
    Fault,
    /// The flag under which a notice refuses a file.
    Strict,
    /// The flag for the second edition of the canonical form.
    SecondEdition,
    /// The flag for the form that keeps the names of identifiers.
    KeepNames,
    /// The option that names the file that the answer goes into.
    Output,
    /// The flag under which faults and notices are explained.
    Explain,
}

/// An argument, as clap is told of it.
pub(crate) fn told_argument<'a>(alloc: Global, argument: Argument) -> Arg<'a>
    ensures { IsArg (rule_given argument) result }
{
    match argument {
        Argument::File => optional_argument(alloc, FILE, help::OF_FILE),
        Argument::FirstFile => required_argument(alloc, FIRST_FILE, help::OF_FIRST_FILE),
        Argument::SecondFile => optional_argument(alloc, SECOND_FILE, help::OF_SECOND_FILE),
        Argument::Files => files_argument(alloc),
        Argument::Fault => optional_argument(alloc, FAULT, help::OF_FAULT),
        Argument::Strict => flag(alloc, STRICT, help::OF_STRICT),
        Argument::SecondEdition => flag(alloc, SECOND, help::OF_SECOND),
        Argument::KeepNames => flag(alloc, KEEP_NAMES, help::OF_KEEP_NAMES),
        Argument::Output => output_option(alloc),
        Argument::Explain => flag(alloc, EXPLAIN, help::OF_EXPLAIN),
    }
}

/// A flag `--name`.
fn flag<'a>(alloc: Global, name: &'a str, help: &'a str) -> Arg<'a>
    ensures { IsArg (line.flag name.entry.now) result }
{
    Arg::new(alloc, name)
        .long(name)
        .action(ArgAction::SetTrue)
        .help(help)
}

/// The option that names the file that the answer goes into.
fn output_option<'a>(alloc: Global) -> Arg<'a>
    ensures { IsArg line.output_option result }
{
    Arg::new(alloc, OUTPUT)
        .long(OUTPUT)
        .short('o')
        .value_name("FILE")
        .help(help::OF_OUTPUT)
}

/// An argument that may be left out.
fn optional_argument<'a>(alloc: Global, name: &'a str, help: &'a str) -> Arg<'a>
    ensures { IsArg (new_rule name.entry.now) result }
{
    Arg::new(alloc, name).help(help)
}

/// An argument that may not be left out.
fn required_argument<'a>(alloc: Global, name: &'a str, help: &'a str) -> Arg<'a>
    ensures { IsArg (record (new_rule name.entry.now) { required = true }) result }
{
    Arg::new(alloc, name).required(true).help(help)
}

/// The files, of which there is one at least.
fn files_argument<'a>(alloc: Global) -> Arg<'a>
    ensures { IsArg line.files result }
{
    required_argument(alloc, FILE, help::OF_FILES).action(ArgAction::Append)
}
