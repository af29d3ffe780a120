// The name of a fault, and what it means, by its number: in a room that the caller hands.
ghost use Rattle.std.specs.Prelude.{◌≡◌, ◌<◌, None, IfSome, option_map};
ghost use Rattle.std.specs.Option.{option_copied};
ghost use Rattle.ged_explain.specs.Names.{as_named, named_faults, with_number};
ghost use Rattle.ged_c.specs.Texts.{NameMeans, PartMeans, last_part, part_number, part_text};

use crate::answering::{Ended, put};
use ged_explain::{Meaning, meaning_numbered};

/// A part of what a fault means.
#[derive(Clone, Copy, PartialEq, Eq, Debug)]
pub enum Part {
    /// What is wrong, in a few words.
    Title,
    /// What usually causes it, and what helps.
    Cause,
    /// Lines of a file that has it.
    Example,
}

/// The part of a number, from 0; `None` for a number above 2. Takes no memory.
fn part_of(number: u32) -> Option<Part>
    ensures some { IfSome result (λ part. number ≡ part_number part) }
    ensures none { result ≡ None → last_part < number }
{
    match number {
        0 => Some(Part::Title),
        1 => Some(Part::Cause),
        2 => Some(Part::Example),
        _ => None,
    }
}

/// The text of a part. Takes no memory.
fn text_of(part: Part, meaning: &Meaning) -> &'static str
    ensures { result.now ≡ part_text part meaning.now }
{
    match part {
        Part::Title => meaning.title,
        Part::Cause => meaning.cause,
        Part::Example => meaning.example,
    }
}

/// What the fault with a number means, or `None` where no fault has it. C may hand any number. Takes no memory.
fn meaning_of(fault: u32) -> Option<&'static Meaning>
    ensures { option_map as_named (option_copied result) ≡ with_number fault named_faults }
{
    let Ok(number) = u8::try_from(fault) else {
        return None;
    };
    meaning_numbered(number)
}

/// Puts the name of the fault with a number at the front of the room. Takes no memory.
pub(crate) fn name_into(fault: u32, room: &mut [u8]) -> Ended
    ensures { NameMeans fault room.old room.new result }
{
    let Some(meaning) = meaning_of(fault) else {
        return Ended::NotFound;
    };
    put(meaning.name.as_bytes(), room)
}

/// Puts a part of what the fault with a number means at the front of the room. Takes no memory.
pub(crate) fn part_into(fault: u32, part: u32, room: &mut [u8]) -> Ended
    ensures { PartMeans fault part room.old room.new result }
{
    let Some(meaning) = meaning_of(fault) else {
        return Ended::NotFound;
    };
    let Some(part) = part_of(part) else {
        return Ended::NotFound;
    };
    put(text_of(part, meaning).as_bytes(), room)
}
