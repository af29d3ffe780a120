// What faults mean: the one of a word, and how it is printed.
ghost use Rattle.std.specs.Prelude.{◌≡◌, List, None, Some, false, map, option_map, if◌then◌else◌};
ghost use Rattle.std.specs.Option.{option_copied};
ghost use Rattle.std.specs.Io.KnownBytes.{Appends};
ghost use Rattle.ged_explain.specs.declared.faults.Meaning.{Meaning as AnyMeaning};
ghost use Rattle.ged_cmd.specs.Telling.{faults_asked, meaning_text, meanings_text, next_text};
ghost use Rattle.ged_explain.specs.Names.{as_named};
ghost use Rattle.ged_cmd.specs.Tasks.{called};

use crate::commands::failed;
use crate::tells::print_all;
use ged_devices::{Output, Sink};
use ged_explain::{Meaning, meanings};
use ged_tool::{Fault, Outcome};
use itoa::Buffer;
use std::fmt::{Display, Formatter};
use std::io::Write;
use std::{fmt, slice};

/// What the fault means whose name or number is a word.
pub(crate) fn meaning_called(among: &'static [Meaning], word: &str) -> Option<&'static Meaning>
    ensures { option_map as_named (option_copied result) ≡ called word.now (map as_named among.now) }
{
    for meaning in among {
        if meaning.name == word {
            return Some(meaning);
        }
        let mut buffer = Buffer::new();
        if buffer.format(meaning.number) == word {
            return Some(meaning);
        }
    }
    None
}

/// Prints what a fault means, or what all mean where none is named, and gives the outcome.
pub(crate) fn tell_meanings<W: Write>(
    meaning: Option<&'static Meaning>,
    output: &mut Output<W>,
) -> Outcome
    requires { ⟦<Output<W> as Sink>⟧.failed output.old ≡ false }
    ensures outcome { result ≡ (if ⟦<Output<W> as Sink>⟧.failed output.new
        then Outcome.Failed None Fault.WriteFailed else Outcome.Done) }
    ensures printed { ⟦<Output<W> as Sink>⟧.failed output.new ≡ false → (meanings : List AnyMeaning)
        × (map as_named meanings ≡ faults_asked (option_map as_named (option_copied meaning.entry)))
        × Appends (⟦<Output<W> as Sink>⟧.taken output.old) (⟦<Output<W> as Sink>⟧.taken output.new) (meanings_text meanings) }
{
    match meaning {
        Some(meaning) => print_meanings(slice::from_ref(meaning), output),
        None => print_meanings(meanings(), output),
    }
}

/// Prints what faults mean, and gives the outcome.
fn print_meanings<W: Write>(meanings: &[Meaning], output: &mut Output<W>) -> Outcome
    requires { ⟦<Output<W> as Sink>⟧.failed output.old ≡ false }
    ensures outcome { result ≡ (if ⟦<Output<W> as Sink>⟧.failed output.new
        then Outcome.Failed None Fault.WriteFailed else Outcome.Done) }
    ensures printed { ⟦<Output<W> as Sink>⟧.failed output.new ≡ false
        → Appends (⟦<Output<W> as Sink>⟧.taken output.old) (⟦<Output<W> as Sink>⟧.taken output.new) (meanings_text meanings.now) }
{
    match print_all(Meanings { meanings }, output) {
        Ok(()) => Outcome::Done,
        Err(_) => failed(Fault::WriteFailed),
    }
}

/// What a fault means, as it is printed.
#[derive(Clone, Copy)]
struct ShownMeaning<'a> {
    meaning: &'a Meaning,
}

impl Display for ShownMeaning<'_> {
    ghost output = { λ s. Some (meaning_text s.meaning.now) };

    fn fmt<W: fmt::Write>(&self, f: &mut Formatter<W>) -> fmt::Result {
        let meaning = self.meaning;
        write!(f, "fault {}: {}", meaning.number, meaning.name)?;
        write!(f, "\n  meaning: {}", meaning.title)?;
        write!(f, "\n  cause: {}", meaning.cause)?;
        writeln!(f, "\n  example:\n{}", meaning.example)
    }
}

/// The same behind an empty line.
#[derive(Clone, Copy)]
struct NextMeaning<'a> {
    meaning: &'a Meaning,
}

impl Display for NextMeaning<'_> {
    ghost output = { λ s. Some (next_text s.meaning.now) };

    fn fmt<W: fmt::Write>(&self, f: &mut Formatter<W>) -> fmt::Result {
        let shown = ShownMeaning {
            meaning: self.meaning,
        };
        write!(f, "\n{shown}")
    }
}

/// What faults mean, with an empty line between two.
#[derive(Clone, Copy)]
struct Meanings<'a> {
    meanings: &'a [Meaning],
}

impl Display for Meanings<'_> {
    ghost output = { λ m. Some (meanings_text m.meanings.now) };

    fn fmt<W: fmt::Write>(&self, f: &mut Formatter<W>) -> fmt::Result {
        let [meaning, others @ ..] = self.meanings else {
            return Ok(());
        };
        write!(f, "{}", ShownMeaning { meaning })?;
        for meaning in others {
            write!(f, "{}", NextMeaning { meaning })?;
        }
        Ok(())
    }
}
