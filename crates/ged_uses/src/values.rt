// On ged_value.
ghost use Rattle.std.specs.Prelude.{◌≡◌, ◌⊎◌, None};
ghost use Rattle.std.specs.Option.{option_copied};
ghost use Rattle.ged_value.specs.Values.{ValueParts, DateValueText};
ghost use Rattle.ged_uses.specs.Years.{year_in};

use ged_value::{DateValue, read_date};

/// The year of a date without a keyword or behind `ABT`, as the text spells it; `None` for any other text. Takes no memory.
pub fn year_of(text: &str) -> Option<&str>
    ensures { (((parts : ValueParts) → ¬ DateValueText parts text.now) × (result ≡ None))
        ⊎ ((parts : ValueParts) × DateValueText parts text.now × (option_copied result ≡ year_in parts)) }
{
    match read_date(text)? {
        DateValue::Plain(date) => Some(date.year),
        DateValue::About(date) => Some(date.year),
        _ => None,
    }
}
