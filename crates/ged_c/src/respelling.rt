// The lines of a file, put into the room part by part: the answer stands nowhere else as a whole.
ghost use Rattle.std.specs.Prelude.{◌≡◌, ◌≤◌, ◌+◌, ◌++◌, length, take, drop};
ghost use Rattle.ged_line.specs.Files.{joined_parts};
ghost use Rattle.ged_schema.specs.declared.profile.Profile.{Profile};
ghost use Rattle.ged_canon.specs.declared.edition.Edition.{Edition};
ghost use Rattle.ged_tool.specs.declared.runs.answer.Command.{Command};
ghost use Rattle.ged_tool.specs.Limits.{greatest_limit};
ghost use Rattle.ged_c.specs.Calls.{IsPut, MeansAs};

use crate::answering::Ended;
use ged_line::{SpelledPart, respell_parts};
use ged_tool::Fault;
use std::alloc::Global;

/// Answers a file's lines into the room. Grows.
pub(crate) fn respell_into(alloc: Global, file: &[u8], room: &mut [u8]) -> Ended
    requires { length file.now ≤ greatest_limit }
    ensures { MeansAs Profile.Lenient Edition.First Command.Lines file.now room.old room.new result }
{
    let parts = match respell_parts(alloc, file) {
        Ok(parts) => parts,
        Err(fault) => return Ended::Refused(fault.into()),
    };
    put_parts(&parts, room)
}

/// Puts parts at the front of the room, one after the other, if it has room for all of them. Takes no memory.
fn put_parts(parts: &[SpelledPart<'_>], room: &mut [u8]) -> Ended
    requires { length (joined_parts parts.now) ≤ greatest_limit + 4 }
    ensures { IsPut (joined_parts parts.now) room.old room.new result }
{
    let length = length_of(parts);
    if length > room.len() {
        return Ended::NoRoom(length);
    }
    let mut at = 0usize;
    for part in parts {
        at = put_at(at, &part.made, room);
        at = put_at(at, part.kept, room);
    }
    Ended::Answered(length)
}

/// The bytes of parts, counted. Takes no memory.
fn length_of(parts: &[SpelledPart<'_>]) -> usize
    requires { length (joined_parts parts.now) ≤ greatest_limit + 4 }
    ensures { result ≡ length (joined_parts parts.now) }
{
    let mut length = 0usize;
    for part in parts {
        length += part.made.len() + part.kept.len();
    }
    length
}

/// Puts bytes into the room at a place, counted from 0, and tells the place after them. Takes no memory.
fn put_at(at: usize, bytes: &[u8], room: &mut [u8]) -> usize
    requires { at + length bytes.now ≤ length room.old }
    ensures place { result ≡ at + length bytes.now }
    ensures bytes { room.new ≡ take at room.old ++ (bytes.now ++ drop (at + length bytes.now) room.old) }
{
    let end = at + bytes.len();
    room[at..end].copy_from_slice(bytes);
    end
}
