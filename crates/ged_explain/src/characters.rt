// Characters that are not shown as they are.
ghost use Rattle.std.specs.Prelude.{◌≡◌, not};
ghost use Rattle.ged_explain.specs.Characters.{is_blank as is_blank_code, is_no_character as is_no_character_code, is_unseen, misleads, takes_no_room as takes_no_room_code};

/// Whether a character leaves what stands around it as it is: it ends no line, controls no terminal, and does not turn the direction
/// of a text. The name of a file may have any of these: a space other than the one of ASCII, or a character that is not seen, is a fair
/// part of it. Takes no memory.
pub fn is_harmless(character: char) -> bool
    ensures { result ≡ not (misleads character) }
{
    !matches!(
        character,
        '\0'..='\u{1F}'
            | '\u{7F}'..='\u{9F}'
            | '\u{61C}'
            | '\u{200E}'..='\u{200F}'
            | '\u{2028}'..='\u{202E}'
            | '\u{2066}'..='\u{2069}'
    )
}

/// Whether a character of a file is seen as it is. Unlike in a name, one that takes no room is not, nor is a space but the one of ASCII,
/// which it could be taken for: it may be what is wrong with a line.
pub(crate) fn is_seen(character: char) -> bool
    ensures { result ≡ not (is_unseen character) }
{
    is_harmless(character) && !is_blank(character) && !takes_no_room(character)
}

fn is_blank(character: char) -> bool
    ensures { result ≡ is_blank_code character }
{
    matches!(
        character,
        '\u{A0}'
            | '\u{115F}'..='\u{1160}'
            | '\u{1680}'
            | '\u{2000}'..='\u{200A}'
            | '\u{202F}'
            | '\u{205F}'
            | '\u{2800}'
            | '\u{3000}'
            | '\u{3164}'
            | '\u{FFA0}'
            | '\u{13441}'..='\u{13442}'
            | '\u{1D159}'
    )
}

/// Whether a code is no character in any version of Unicode.
fn is_no_character(character: char) -> bool
    ensures { result ≡ is_no_character_code character }
{
    matches!(character, '\u{FDD0}'..='\u{FDEF}') || u32::from(character) % 0x1_0000 >= 0xFFFE
}

fn takes_no_room(character: char) -> bool
    ensures { result ≡ takes_no_room_code character }
{
    matches!(
        character,
        '\u{AD}'
            | '\u{34F}'
            | '\u{17B4}'..='\u{17B5}'
            | '\u{180B}'..='\u{180F}'
            | '\u{200B}'..='\u{200D}'
            | '\u{2060}'..='\u{2065}'
            | '\u{206A}'..='\u{206F}'
            | '\u{FE00}'..='\u{FE0F}'
            | '\u{FEFF}'
            | '\u{FFF0}'..='\u{FFFB}'
            | '\u{1BCA0}'..='\u{1BCA3}'
            | '\u{1D173}'..='\u{1D17A}'
            | '\u{E0000}'..='\u{E0FFF}'
    ) || is_no_character(character)
}
