// The settings that C tells by a number.
ghost use Rattle.std.specs.Prelude.{◌≡◌, ◌<◌, ◌↔◌, None, IfSome, IsTrue};
ghost use Rattle.ged_tool.specs.Settings.{profile_of, edition_of};
ghost use Rattle.ged_tool.specs.Limits.{greatest_limit as most};
ghost use Rattle.ged_c.specs.Settings.{settings_number, last_settings};

use ged_tool::{GREATEST_LIMIT, Settings};

/// The settings of a number: 1 for the strict profile, 2 for the second edition, 3 for both; `None` for a larger number. Takes
/// no memory.
pub(crate) fn settings_of(number: u32) -> Option<Settings>
    ensures some { IfSome result (λ settings. number ≡ settings_number (profile_of settings) (edition_of settings)) }
    ensures none { result ≡ None → last_settings < number }
{
    match number {
        0 => Some(Settings::new()),
        1 => Some(Settings::new().strict()),
        2 => Some(Settings::new().second()),
        3 => Some(Settings::new().strict().second()),
        _ => None,
    }
}

/// The most bytes that a file may have.
const LIMIT: usize = GREATEST_LIMIT as usize;

/// Whether a file has more bytes than one may have. Takes no memory.
pub(crate) fn is_too_long(length: usize) -> bool
    ensures { IsTrue result ↔ (most < length) }
{
    length > LIMIT
}
