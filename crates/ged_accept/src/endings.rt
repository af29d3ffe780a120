// What stands behind the tag in the line of a structure.
ghost use Rattle.std.specs.Prelude.{◌≡◌, ◌≤◌, ◌++◌, ◌∷◌, [], take, option_map, slice_index_or};
ghost use Rattle.std.specs.Option.{option_copied};
ghost use Rattle.ged_line.specs.Bytes.{space, line_feed};
ghost use Rattle.ged_value.specs.Kinds.{kind_word};
ghost use Rattle.ged_schema.specs.Rows.{as_row};
ghost use Rattle.ged_accept.specs.Shown.{row_word as word_of_row};

use ged_schema::Rule;
use ged_value::Kind;

/// For each kind, in their order, a space, the kind's word and a line end, with zeros behind them; the last byte tells how many bytes
/// stand before the zeros. A text of a fixed length is copied by one move.
static ENDINGS: [[u8; 16]; 24] = [
    *b" Nothing\n\0\0\0\0\0\0\x09",
    *b" Text\n\0\0\0\0\0\0\0\0\0\x06",
    *b" Free\n\0\0\0\0\0\0\0\0\0\x06",
    *b" EventFlag\n\0\0\0\0\x0b",
    *b" Integer\n\0\0\0\0\0\0\x09",
    *b" Version\n\0\0\0\0\0\0\x09",
    *b" DateValue\n\0\0\0\0\x0b",
    *b" DatePeriod\n\0\0\0\x0c",
    *b" DateExact\n\0\0\0\0\x0b",
    *b" Time\n\0\0\0\0\0\0\0\0\0\x06",
    *b" Age\n\0\0\0\0\0\0\0\0\0\0\x05",
    *b" Name\n\0\0\0\0\0\0\0\0\0\x06",
    *b" EnumAny\n\0\0\0\0\0\0\x09",
    *b" SexEnum\n\0\0\0\0\0\0\x09",
    *b" PediEnum\n\0\0\0\0\0\x0a",
    *b" StatEnum\n\0\0\0\0\0\x0a",
    *b" NameTypeEnum\n\0\x0e",
    *b" ResnList\n\0\0\0\0\0\x0a",
    *b" ToFam\n\0\0\0\0\0\0\0\0\x07",
    *b" ToIndi\n\0\0\0\0\0\0\0\x08",
    *b" ToSubm\n\0\0\0\0\0\0\0\x08",
    *b" ToSnote\n\0\0\0\0\0\0\x09",
    *b" ToSour\n\0\0\0\0\0\0\0\x08",
    *b" ToObje\n\0\0\0\0\0\0\0\x08",
];

/// The same for a structure without a row, which has a hyphen for a word.
static NO_ROW: [u8; 16] = *b" -\n\0\0\0\0\0\0\0\0\0\0\0\0\x03";

/// The bytes of a kind among [`ENDINGS`].
#[inline(always)]
fn kind_ending(kind: Kind) -> &'static [u8; 16]
    ensures within { slice_index_or result.now 15 0 ≤ 16 }
    ensures text { take (slice_index_or result.now 15 0) result.now ≡ space ∷ (kind_word kind ++ line_feed ∷ []) }
{
    // The proof asks for the index as the result of a call, so it is no cast to usize.
    &ENDINGS[usize::from(kind as u8)]
}

/// What stands behind the tag in the line of a structure with a row, or with none: as many bytes as the last byte says, with others
/// behind them.
#[inline(always)]
pub(crate) fn row_ending(rule: Option<&Rule>) -> &'static [u8; 16]
    ensures within { slice_index_or result.now 15 0 ≤ 16 }
    ensures text { take (slice_index_or result.now 15 0) result.now
        ≡ space ∷ (word_of_row (option_map as_row (option_copied rule.entry)) ++ line_feed ∷ []) }
{
    match rule {
        Some(rule) => kind_ending(rule.kind),
        None => &NO_ROW,
    }
}
