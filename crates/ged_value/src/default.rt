// The words of a text without the default calendar's.
ghost use Rattle.std.specs.Prelude.{◌≡◌};
ghost use Rattle.std.specs.Iterator.{YieldsFirstBy, item_count};
ghost use Rattle.ged_value.specs.Texts.{bytes_of};
ghost use Rattle.ged_value.specs.Default.{without_default};

use crate::split::first_word;
use std::marker::Model;

/// The words of a text that are left, from the first, without each `GREGORIAN`. Contracts see them as the list of their
/// bytes.
#[derive(Debug, Drop)]
pub struct Words<'a> {
    rest: Option<&'a str>,
}

impl<'a> Model for Words<'a> {
    ghost use Rattle.std.specs.Prelude.{List};
    ghost use Rattle.ged_value.specs.Words.{Bytes};
    ghost use Rattle.ged_value.specs.Left.{left_of};

    ghost Value = { List Bytes };

    ghost view = { λ words. left_of words.rest };
}

impl<'a> Iterator for Words<'a> {
    type Item = &'a str;

    ghost next_gives = { YieldsFirstBy bytes_of (λ words. words) };

    ghost remaining = { item_count (λ words. words) };

    fn next(&mut self) -> Option<&'a str> {
        while let Some(rest) = self.rest {
            let (word, rest) = first_word(rest);
            self.rest = rest;
            if word != "GREGORIAN" {
                return Some(word);
            }
        }
        None
    }
}

/// The words of a text between single spaces, in order, without each `GREGORIAN`. In a text that
/// [`read_date`](crate::read_date) or [`read_period`](crate::read_period) reads this is the word of the default
/// calendar. The words are slices of the text. Takes no memory (FamilySearch GEDCOM 7.0, "Date").
pub fn without_default(text: &str) -> Words<'_>
    ensures { result ≡ without_default text.now }
{
    Words { rest: Some(text) }
}
