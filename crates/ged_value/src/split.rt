// The words of a text, between single spaces.
ghost use Rattle.std.specs.Prelude.{◌≡◌, ◌<◌, ◌≤◌, ◌∷◌, take, length, MatchOption};
ghost use Rattle.std.specs.Option.{option_map};
ghost use Rattle.ged_value.specs.Words.{words_of};
ghost use Rattle.ged_value.specs.Left.{words_left};
ghost use Rattle.ged_value.specs.inner.WordReading.{around};
ghost use Rattle.ged_value.specs.inner.Texts.{texts};
ghost use Rattle.ged_value.specs.declared.split.TheConstants.{MOST};

use crate::cut::cut_at;

/// The most words that a value has: two keywords, each before a date of five words.
const MOST: usize = 12;

/// The first word of a text, and what stands behind the space after it, or `None` where there is no space. Words stand between single
/// spaces, so one may be empty. Takes no memory (FamilySearch GEDCOM 7.0, "Data types").
#[inline(always)]
pub fn first_word(text: &str) -> (&str, Option<&str>)
    ensures { words_of text.now ≡ result.0.now ∷ words_left result.1 }
{
    cut_at(text, b' ')
}

/// The words of a text that has no more than a value may have.
#[derive(Drop)]
pub(crate) struct WordList<'a> {
    words: [&'a str; MOST],
    count: usize,
    ghost in_range: { count ≤ MOST },
}

impl<'a> WordList<'a> {
    pub(crate) fn as_slice(&self) -> &[&'a str]
        ensures { result.now ≡ take self.now.count self.now.words }
    {
        &self.words[..self.count]
    }
}

/// The words of a text, or `None` where there are more than a value may have. The text is read up to the first word too
/// many.
pub(crate) fn words_of(text: &str) -> Option<WordList<'_>>
    ensures { MatchOption result (MOST < length (words_of text.now))
        (λ list. texts (take list.count list.words) ≡ words_of text.now) }
{
    let mut words = [""; MOST];
    let mut count = 0;
    let mut rest = Some(text);
    while let Some(left) = rest {
        if count == MOST {
            return None;
        }
        let (word, behind) = first_word(left);
        words[count] = word;
        count += 1;
        rest = behind;
    }
    Some(WordList { words, count })
}

/// The words before and after the first one that is the given word.
pub(crate) fn around<'w, 'a>(
    words: &'w [&'a str],
    word: &str,
) -> Option<(&'w [&'a str], &'w [&'a str])>
    ensures { option_map (λ parts. (texts parts.0.now, texts parts.1.now)) result
        ≡ around word.now (texts words.now) }
{
    for (place, other) in words.iter().enumerate() {
        if *other == word {
            return Some((&words[..place], &words[place + 1..]));
        }
    }
    None
}
