// The command line that clap is told of: the program, its commands and their arguments.
ghost use Rattle.std.specs.Prelude.{◌≡◌, IfOk};
ghost use Rattle.clap.specs.Words.{new_app};
ghost use Rattle.ged_cmd.specs.CommandLine as line;
ghost use Rattle.ged_cmd.specs.inner.CommandLine.{IsCommand, app_listed, with_commands};

use crate::arguments::{Argument, told_argument};
use crate::help::{self, Help};
use std::alloc::{AllocError, Global};

/// The name that help and usage give the program, whatever file it lies in.
const NAME: &str = "gedtool";

/// What `--version` tells after the program's name: the version of the file VERSION, the editions of the canonical form, and the sum
/// of the logic under which the program is proved, as `rt --version` tells it.
const VERSION: &str = "0.1.0
canonical form: editions 1 and 2
proved by Rattle, logic dac8208d650f15bf";

/// A command of the program.
#[derive(Clone, Copy)]
struct Listed {
    name: &'static str,
    help: Help,
    /// What it may be given, in the order of help.
    arguments: &'static [Argument],
}

static COMMANDS: [Listed; 7] = [
    Listed {
        name: "lines",
        help: help::LINES,
        arguments: &[Argument::File, Argument::Output, Argument::Explain],
    },
    Listed {
        name: "check",
        help: help::CHECK,
        arguments: &[Argument::File, Argument::Strict, Argument::Explain],
    },
    Listed {
        name: "show",
        help: help::SHOW,
        arguments: &[
            Argument::File,
            Argument::Strict,
            Argument::Output,
            Argument::Explain,
        ],
    },
    Listed {
        name: "canon",
        help: help::CANON,
        arguments: &[
            Argument::File,
            Argument::Strict,
            Argument::SecondEdition,
            Argument::KeepNames,
            Argument::Output,
            Argument::Explain,
        ],
    },
    Listed {
        name: "same",
        help: help::SAME,
        arguments: &[
            Argument::FirstFile,
            Argument::SecondFile,
            Argument::Strict,
            Argument::SecondEdition,
            Argument::KeepNames,
            Argument::Explain,
        ],
    },
    Listed {
        name: "explain",
        help: help::EXPLAIN,
        arguments: &[Argument::Fault],
    },
    Listed {
        name: "digest",
        help: help::DIGEST,
        arguments: &[
            Argument::Files,
            Argument::Strict,
            Argument::SecondEdition,
            Argument::Explain,
        ],
    },
];

/// The commands of the program, in the order of help.
fn commands() -> &'static [Listed]
    ensures { with_commands line.bare_program result.now ≡ line.gedtool }
{
    &COMMANDS
}

/// What the program understands.
pub(crate) fn command_line<'a>(alloc: Global) -> Result<clap::Command<'a>, AllocError>
    ensures { IfOk result (IsCommand line.gedtool) }
{
    let mut program = bare_program(alloc)?;
    for listed in commands() {
        let command = command_listed(alloc, listed)?;
        program = program.subcommand(command)?;
    }
    Ok(program)
}

/// A command with its arguments.
fn command_listed<'a>(alloc: Global, listed: &Listed) -> Result<clap::Command<'a>, AllocError>
    ensures { IfOk result (IsCommand (app_listed listed.now)) }
{
    let mut command = named_command(alloc, listed.name, listed.help);
    for argument in listed.arguments {
        command = command.arg(told_argument(alloc, *argument))?;
    }
    Ok(command)
}

/// The program without its commands, of which it needs one. It tells its version.
fn bare_program<'a>(alloc: Global) -> Result<clap::Command<'a>, AllocError>
    ensures { IfOk result (IsCommand line.bare_program) }
{
    named_command(alloc, NAME, help::PROGRAM)
        .subcommand_required(true)
        .version(VERSION)
        .bin_name(NAME)
}

/// A command that takes nothing.
fn named_command<'a>(alloc: Global, name: &'a str, help: Help) -> clap::Command<'a>
    ensures { IsCommand (new_app name.entry.now) result }
{
    clap::Command::new(alloc, name)
        .about(help.about)
        .long_about(help.purpose)
        .after_long_help(help.more)
}
