// A text, cut at a character.
ghost use Rattle.std.specs.Prelude.{◌≡◌, ◌≢◌, ◌<◌, ℕ, length, slice_index, MatchOption};
ghost use Rattle.std.specs.Option.{option_map};
ghost use Rattle.ged_value.specs.inner.Cuts.{cut_at as cuts_at};
ghost use Rattle.ged_value.specs.Texts.{bytes_of};

/// The place of the first such byte.
fn place_of(bytes: &[u8], wanted: u8) -> Option<usize>
    ensures { MatchOption result ((k : ℕ) → k < length bytes.now → slice_index bytes.now k ≢ wanted)
        (λ place. (place < length bytes.now) × (slice_index bytes.now place ≡ wanted) × ((k : ℕ) → k < place → slice_index bytes.now k ≢ wanted)) }
{
    for (place, byte) in bytes.iter().enumerate() {
        if *byte == wanted {
            return Some(place);
        }
    }
    None
}

/// What stands before the first such character, and what stands behind it.
pub(crate) fn cut_at(text: &str, character: u8) -> (&str, Option<&str>)
    requires { character < 128 }
    ensures { (result.0.now, option_map bytes_of result.1) ≡ cuts_at character text.now }
{
    match place_of(text.as_bytes(), character) {
        Some(place) => (&text[..place], Some(&text[place + 1..])),
        None => (text, None),
    }
}
