// How a call ended, and an answer about one file in a room that the caller hands.
ghost use Rattle.std.specs.Prelude.{◌≡◌, ◌≤◌, length};
ghost use Rattle.ged_tool.specs.Settings.{profile_of, edition_of};
ghost use Rattle.ged_tool.specs.Limits.{greatest_limit};
ghost use Rattle.ged_c.specs.Calls.{IsPut, EndMeans, MeansAs, IsCall, call_status, length_of, line_of, line_of_fault as line_told};

use crate::respelling::respell_into;
use crate::settings::{is_too_long, settings_of};
use ged_tool::{Command, Fault, Settings, answer};
use std::alloc::Global;

/// The status where the room is too small for the answer.
const ROOM_TOO_SMALL: u32 = 64;

/// The status where the number of the settings has no meaning.
pub(crate) const BAD_SETTINGS: u32 = 65;

/// The status where there is no such text.
const NOT_FOUND: u32 = 66;

/// How a call on one file, or for a text about a fault, ended.
#[derive(Clone, Copy, PartialEq, Eq, Debug)]
pub enum Ended {
    /// The answer stands at the front of the room, and has this many bytes.
    Answered(usize),
    /// There is an answer of this many bytes, for which the room is too small.
    NoRoom(usize),
    /// There is no answer, and this is why.
    Refused(Fault),
    /// The number of the settings has no meaning.
    BadSettings,
    /// There is no such text: no fault has the number, or no part of what it means.
    NotFound,
}

impl Ended {
    /// The status by which C is told. Takes no memory.
    pub fn status(&self) -> u32
        ensures { result ≡ call_status self.now }
    {
        match self {
            Ended::Answered(_) => 0,
            Ended::NoRoom(_) => ROOM_TOO_SMALL,
            Ended::Refused(fault) => u32::from(fault.number()),
            Ended::BadSettings => BAD_SETTINGS,
            Ended::NotFound => NOT_FOUND,
        }
    }

    /// The length of the answer in bytes, or 0 where there is none. Takes no memory.
    pub fn length(&self) -> usize
        ensures { result ≡ length_of self.now }
    {
        match self {
            Ended::Answered(length) | Ended::NoRoom(length) => *length,
            Ended::Refused(_) | Ended::BadSettings | Ended::NotFound => 0,
        }
    }

    /// The line of a fault of the file, counted from 1, or 0. Takes no memory.
    pub fn line(&self) -> u64
        ensures { result ≡ line_of self.now }
    {
        match self {
            Ended::Refused(fault) => line_of_fault(fault),
            _ => 0,
        }
    }
}

/// The line of a fault of the file, counted from 1; 0 for any other fault. Takes no memory.
pub(crate) fn line_of_fault(fault: &Fault) -> u64
    ensures { result ≡ line_told fault.now }
{
    match fault {
        Fault::InFile { line, kind: _ } => *line,
        Fault::TooLong | Fault::ReadFailed | Fault::WriteFailed | Fault::Memory(_) => 0,
    }
}

/// Answers a file into the room, and tells by three numbers how that ended. Grows.
pub(crate) fn answer_file(
    alloc: Global,
    command: Command,
    settings: u32,
    file: &[u8],
    room: &mut [u8],
    length: &mut usize,
    line: &mut u64,
) -> u32
    ensures { IsCall command settings file.now room.old room.new result length.new line.new }
{
    let ended = answer_into(alloc, command, settings, file, room);
    *length = ended.length();
    *line = ended.line();
    ended.status()
}

/// Answers a file into the room. Grows.
fn answer_into(
    alloc: Global,
    command: Command,
    settings: u32,
    file: &[u8],
    room: &mut [u8],
) -> Ended
    ensures { EndMeans command settings file.now room.old room.new result }
{
    let Some(settings) = settings_of(settings) else {
        return Ended::BadSettings;
    };
    if is_too_long(file.len()) {
        return Ended::Refused(Fault::TooLong);
    }
    match command {
        Command::Lines => respell_into(alloc, file, room),
        _ => answer_text(alloc, settings, command, file, room),
    }
}

/// Answers a file that is not too long into the room, by one text. Grows.
fn answer_text(
    alloc: Global,
    settings: Settings,
    command: Command,
    file: &[u8],
    room: &mut [u8],
) -> Ended
    requires { length file.now ≤ greatest_limit }
    ensures { MeansAs (profile_of settings) (edition_of settings) command file.now room.old room.new result }
{
    match answer(alloc, settings, command, file) {
        Ok(text) => put(&text, room),
        Err(fault) => Ended::Refused(fault),
    }
}

/// Puts an answer at the front of the room, if it has room for all of it. Takes no memory.
pub(crate) fn put(text: &[u8], room: &mut [u8]) -> Ended
    ensures { IsPut text.now room.old room.new result }
{
    let length = text.len();
    if length > room.len() {
        return Ended::NoRoom(length);
    }
    room[..length].copy_from_slice(text);
    Ended::Answered(length)
}
