// A quick test for the times that most payloads are. Where it answers `false`, nothing is said: the reader decides.
ghost use Rattle.std.specs.Prelude.{◌≡◌, ◌∷◌, ◌&&◌, [], nat_le};
ghost use Rattle.std.specs.Bool.{OnTrue};
ghost use Rattle.ged_value.specs.Words.{is_integer, number};
ghost use Rattle.ged_value.specs.Times.{TimeParts, TimeText};

use crate::words::two_digits;

/// Whether two digits are a number up to the greatest.
fn is_number_to(ten: u8, one: u8, greatest: u8) -> bool
    ensures { result ≡ (is_integer (ten ∷ one ∷ []) && nat_le (number (ten ∷ one ∷ [])) greatest) }
{
    match two_digits(ten, one) {
        Some(number) => number <= greatest,
        None => false,
    }
}

/// Whether the bytes are an hour, a minute and a second in two digits each.
fn is_clock(bytes: &[u8]) -> bool
    ensures { OnTrue result ((time : TimeParts) × TimeText time bytes.now) }
{
    match bytes {
        [hours, hour, b':', minutes, minute, b':', seconds, second] => {
            is_number_to(*hours, *hour, 23)
                && is_number_to(*minutes, *minute, 59)
                && is_number_to(*seconds, *second, 59)
        }
        _ => false,
    }
}

/// Whether a text is an hour, a minute and a second in two digits each, without `Z`. Fractions, times in UTC and hours
/// of one digit are left to the reader.
pub(crate) fn is_plain_time(text: &str) -> bool
    ensures { OnTrue result ((time : TimeParts) × TimeText time text.now) }
{
    is_clock(text.as_bytes())
}
