// Tests on the words of a payload.
ghost use Rattle.std.specs.Prelude.{◌≡◌, ◌∷◌, [], if◌then◌else◌, min, IsTrue};
ghost use Rattle.std.specs.List.{list_all};
ghost use Rattle.std.specs.Char.{is_ascii_digit};
ghost use Rattle.ged_value.specs.Words.{is_integer, is_tag_character, is_standard_tag, is_extension_tag, number};

/// One or more digits.
pub(crate) fn is_integer(text: &str) -> bool
    ensures { result ≡ is_integer text.now }
{
    !text.is_empty() && all_digits(text.as_bytes())
}

fn all_digits(bytes: &[u8]) -> bool
    ensures { result ≡ list_all is_ascii_digit bytes.now }
{
    bytes.iter().all(|b| b.is_ascii_digit())
}

fn all_tag_characters(bytes: &[u8]) -> bool
    ensures { result ≡ list_all is_tag_character bytes.now }
{
    bytes.iter().all(|b| is_tag_character(*b))
}

fn is_tag_character(byte: u8) -> bool
    ensures { result ≡ is_tag_character byte }
{
    byte.is_ascii_uppercase() || byte.is_ascii_digit() || byte == b'_'
}

/// A capital letter and any tag characters.
pub(crate) fn is_standard_tag(text: &str) -> bool
    ensures { result ≡ is_standard_tag text.now }
{
    match text.as_bytes().split_first() {
        Some((first, others)) => first.is_ascii_uppercase() && all_tag_characters(others),
        None => false,
    }
}

/// An underscore and one or more tag characters.
pub(crate) fn is_extension_tag(text: &str) -> bool
    ensures { result ≡ is_extension_tag text.now }
{
    match text.as_bytes().split_first() {
        Some((first, others)) => {
            *first == b'_' && !others.is_empty() && all_tag_characters(others)
        }
        None => false,
    }
}

/// The number that digits spell, or 1000 where it is more. There may be any number of digits.
pub(crate) fn small_number(digits: &str) -> u16
    requires { IsTrue (is_integer digits.now) }
    ensures { result ≡ min 1000 (number digits.now) }
{
    let mut value: u16 = 0;
    for digit in digits.as_bytes() {
        value = if value < 100 {
            value * 10 + u16::from(*digit - b'0')
        } else {
            1000
        };
    }
    value
}

/// The number that two digits spell, or `None` where one is no digit.
pub(crate) fn two_digits(ten: u8, one: u8) -> Option<u8>
    ensures { result ≡ (if is_integer (ten ∷ one ∷ []) then Some (number (ten ∷ one ∷ [])) else None) }
{
    if ten.is_ascii_digit() && one.is_ascii_digit() {
        Some((ten - b'0') * 10 + (one - b'0'))
    } else {
        None
    }
}
