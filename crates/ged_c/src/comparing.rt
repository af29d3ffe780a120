// Whether two files say the same, told by numbers.
ghost use Rattle.std.specs.Prelude.{◌≡◌};
ghost use Rattle.ged_c.specs.Comparisons.{ComparisonMeans, same_status, same_flag, which_number, same_line_of};

use crate::answering::{BAD_SETTINGS, line_of_fault};
use crate::settings::{is_too_long, settings_of};
use ged_tool::{Fault, Which, same_as};
use std::alloc::Global;

/// How a call on two files ended.
#[derive(Clone, Copy, PartialEq, Eq, Debug)]
pub enum Compared {
    /// Both files are accepted, and this is whether they say the same.
    Known(bool),
    /// One of the files has this fault.
    Refused(Which, Fault),
    /// The number of the settings has no meaning.
    BadSettings,
}

impl Compared {
    /// The status by which C is told. Takes no memory.
    pub fn status(&self) -> u32
        ensures { result ≡ same_status self.now }
    {
        match self {
            Compared::Known(_) => 0,
            Compared::Refused(_, fault) => u32::from(fault.number()),
            Compared::BadSettings => BAD_SETTINGS,
        }
    }

    /// 1 where the files are known to say the same, else 0. Takes no memory.
    pub fn same(&self) -> u32
        ensures { result ≡ same_flag self.now }
    {
        match self {
            Compared::Known(true) => 1,
            _ => 0,
        }
    }

    /// The number of the file with the fault, or 0 where there is none. Takes no memory.
    pub fn which(&self) -> u32
        ensures { result ≡ which_number self.now }
    {
        match self {
            Compared::Refused(Which::First, _) => 1,
            Compared::Refused(Which::Second, _) => 2,
            _ => 0,
        }
    }

    /// The line of that fault, counted from 1, or 0. Takes no memory.
    pub fn line(&self) -> u64
        ensures { result ≡ same_line_of self.now }
    {
        match self {
            Compared::Refused(_, fault) => line_of_fault(fault),
            _ => 0,
        }
    }
}

/// Compares two files. Grows.
pub(crate) fn compare(alloc: Global, settings: u32, first: &[u8], second: &[u8]) -> Compared
    ensures { ComparisonMeans settings first.now second.now result }
{
    let Some(settings) = settings_of(settings) else {
        return Compared::BadSettings;
    };
    if is_too_long(first.len()) {
        return Compared::Refused(Which::First, Fault::TooLong);
    }
    if is_too_long(second.len()) {
        return Compared::Refused(Which::Second, Fault::TooLong);
    }
    match same_as(alloc, settings, first, second) {
        Ok(same) => Compared::Known(same),
        Err(at) => Compared::Refused(at.which, at.fault),
    }
}
