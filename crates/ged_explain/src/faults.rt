// What each fault means, found by its number, by its name, or by a fault.
ghost use Rattle.std.specs.Prelude.{◌≡◌, map, option_map};
ghost use Rattle.std.specs.Option.{option_copied};
ghost use Rattle.ged_explain.specs.Names.{as_named, named_fault, named_faults, with_number, with_name};

use crate::table::MEANINGS;
use ged_faults::Fault;

/// What a fault means. The texts are English, and of one line if nothing else is said.
#[derive(Clone, Copy, Debug)]
pub struct Meaning {
    /// The number by which the fault is told, from 1 to 29.
    pub number: u8,
    /// The name by which it is told.
    pub name: &'static str,
    /// What is wrong, in a few words.
    pub title: &'static str,
    /// What usually causes it, and what helps: a few sentences.
    pub cause: &'static str,
    /// Lines of a file, with line feeds between them; behind the one at which the fault is told stands `<- here`. For 24
    /// to 27, a command that runs into it.
    pub example: &'static str,
}

/// What each fault means, by the order of the numbers, of which none is left out. Takes no memory.
#[tactic(auto, unfolding(crate::specs::Names::named_faults))]
pub fn meanings() -> &'static [Meaning]
    ensures { map as_named result.now ≡ named_faults }
{
    &MEANINGS
}

/// What the fault with a number means, or `None` where no fault has it. Takes no memory.
pub fn meaning_numbered(number: u8) -> Option<&'static Meaning>
    ensures { option_map as_named (option_copied result) ≡ with_number number named_faults }
{
    find_numbered(meanings(), number)
}

fn find_numbered(among: &'static [Meaning], number: u8) -> Option<&'static Meaning>
    ensures { option_map as_named (option_copied result) ≡ with_number number (map as_named among.now) }
{
    for meaning in among {
        if meaning.number == number {
            return Some(meaning);
        }
    }
    None
}

/// What the fault with a name means, or `None` where no fault is called so. Takes no memory.
pub fn meaning_named(name: &str) -> Option<&'static Meaning>
    ensures { option_map as_named (option_copied result) ≡ with_name name.now named_faults }
{
    find_named(meanings(), name)
}

fn find_named(among: &'static [Meaning], name: &str) -> Option<&'static Meaning>
    ensures { option_map as_named (option_copied result) ≡ with_name name.now (map as_named among.now) }
{
    for meaning in among {
        if meaning.name == name {
            return Some(meaning);
        }
    }
    None
}

/// What a fault means. Takes no memory.
pub fn meaning_of(fault: &Fault) -> &'static Meaning
    ensures { as_named result.now ≡ named_fault fault.now }
{
    match meaning_numbered(fault.number()) {
        Some(meaning) => meaning,
        None => unreachable!(),
    }
}
