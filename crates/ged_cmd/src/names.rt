// Names of files, and other words of the command line, as standard error shows them.
ghost use Rattle.std.specs.Prelude.{◌≡◌, codes, option_map, string_bytes, IfOk, IsUtf8, Some};
ghost use Rattle.ged_cmd.specs.inner.Tasks.{name_or};
ghost use Rattle.ged_cmd.specs.inner.Names.{IsHarmless, shown_character, shown_text};

use ged_explain::is_harmless;
use std::alloc::{AllocError, Global};
use std::fmt;
use std::fmt::{Display, Formatter, Write as _};

/// The name of the file that is read, or of standard input where none is named.
pub(crate) fn input_name(file: Option<&str>) -> &str
    ensures { result.now ≡ name_or (option_map (λ name. name.now) file.entry) (codes "standard input") }
{
    file.unwrap_or("standard input")
}

/// The name of the file that is written, or of standard output where none is named.
pub(crate) fn output_name(file: Option<&str>) -> &str
    ensures { result.now ≡ name_or (option_map (λ name. name.now) file.entry) (codes "standard output") }
{
    file.unwrap_or("standard output")
}

/// A character as standard error shows it: as `U+NNNN` where it could change how what stands around it is shown.
#[derive(Clone, Copy)]
struct ShownCharacter {
    character: char,
}

impl Display for ShownCharacter {
    ghost output = { λ s. Some (shown_character s.character) };

    fn fmt<W: fmt::Write>(&self, f: &mut Formatter<W>) -> fmt::Result {
        let character = self.character;
        if is_harmless(character) {
            write!(f, "{character}")
        } else {
            write!(f, "U+{:04X}", u32::from(character))
        }
    }
}

/// A name as standard error shows it.
#[derive(Clone, Copy)]
pub(crate) struct ShownName<'a> {
    name: &'a str,
    // it is a text
    ghost text: { ∥ IsUtf8 name.now ∥₁ },
}

impl<'a> ShownName<'a> {
    pub(crate) fn new(name: &'a str) -> ShownName<'a>
        ensures { result.name.now ≡ name.now }
    {
        ShownName { name }
    }
}

impl Display for ShownName<'_> {
    ghost output = { λ s. Some (shown_text s.name.now) };

    fn fmt<W: fmt::Write>(&self, f: &mut Formatter<W>) -> fmt::Result {
        for character in self.name.chars() {
            let shown = ShownCharacter { character };
            write!(f, "{shown}")?;
        }
        Ok(())
    }
}

/// A text of several lines as standard error shows it: its line feeds stay, and any other character is shown as in a name.
#[derive(Clone, Copy)]
pub(crate) struct ShownLines<D> {
    text: D,
}

impl<D> ShownLines<D> {
    pub(crate) fn new(text: D) -> ShownLines<D> {
        ShownLines { text }
    }
}

impl<D: Display> Display for ShownLines<D> {
    fn fmt<W: fmt::Write>(&self, f: &mut Formatter<W>) -> fmt::Result {
        let mut shower = Shower { writer: f };
        write!(shower, "{}", &self.text)
    }
}

/// A writer that passes on each text as it is shown.
#[derive(Drop)]
struct Shower<'a, W> {
    writer: &'a mut W,
}

impl<W: fmt::Write> fmt::Write for Shower<'_, W> {
    fn write_str(&mut self, text: &str) -> fmt::Result {
        for character in text.chars() {
            if character == '\n' {
                self.writer.write_char(character)?;
            } else {
                write!(self.writer, "{}", ShownCharacter { character })?;
            }
        }
        Ok(())
    }
}

/// A name as it is shown. Grows.
pub(crate) fn shown_name(alloc: Global, name: &str) -> Result<String, AllocError>
    ensures shown { IfOk result (λ text. string_bytes text ≡ shown_text name.now) }
    ensures harmless { IfOk result (λ text. IsHarmless (string_bytes text)) }
{
    let shown = ShownName::new(name);
    format!(in alloc; "{shown}")
}
