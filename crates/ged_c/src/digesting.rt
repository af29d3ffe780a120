// The digest of a file, in a room that the caller hands.
ghost use Rattle.ged_c.specs.Digests.{DigestMeans};

use crate::answering::{Ended, put};
use crate::settings::{is_too_long, settings_of};
use ged_tool::{Fault, digest_as};
use std::alloc::Global;

/// The length of a digest, in bytes.
const DIGEST_LENGTH: usize = 32;

/// Puts a file's digest at the front of the room. Where that has fewer than 32 bytes the file is not judged. Grows.
pub(crate) fn digest_into(alloc: Global, settings: u32, file: &[u8], room: &mut [u8]) -> Ended
    ensures { DigestMeans settings file.now room.old room.new result }
{
    let Some(settings) = settings_of(settings) else {
        return Ended::BadSettings;
    };
    if room.len() < DIGEST_LENGTH {
        return Ended::NoRoom(DIGEST_LENGTH);
    }
    if is_too_long(file.len()) {
        return Ended::Refused(Fault::TooLong);
    }
    match digest_as(alloc, settings, file) {
        Ok(digest) => put(&digest, room),
        Err(fault) => Ended::Refused(fault),
    }
}
