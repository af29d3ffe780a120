// The reading of a whole file.
ghost use Rattle.std.specs.Prelude.{◌≡◌, ◌+◌, ◌≤◌, ◌↔◌, false, IsTrue, IfOk, IfErr, IsErrOf, [], length, vec_len};
ghost use Rattle.std.specs.Io.KnownBytes.{Consumes};
ghost use Rattle.ged_line.specs.Bytes.{Bytes};
ghost use Rattle.ged_tool.specs.Limits.{greatest_limit, greatest_read};
ghost use Rattle.ged_tool.specs.Run.{IsWhole};
ghost use Rattle.ged_tool.specs.inner.Reading.{came_of};
ghost use Rattle.ged_tool.specs.inner.Steps.{StopsReading};

use crate::runs::whole_file::{Validation, WholeFile};
use ged_devices::{Failed, Source};
use ged_faults::Fault;
use ged_tree::room_in_large_pages;
use std::alloc::{AllocError, Global};

/// The most bytes that one call of read is asked for.
const CHUNK: usize = 131072;

/// The whole file: reads to the reader's end, or until more than the limit came. As long as what comes is the front of the file that was read
/// before, it is not kept.
pub(crate) fn read_whole<'f, R: Source>(
    alloc: Global,
    limit: u64,
    validation: Validation,
    before: &'f [u8],
    reader: &mut R,
) -> Result<WholeFile<'f>, Fault>
    requires limit { limit ≤ greatest_limit }
    requires unread { R.reads reader.old ≡ 0 }
    requires no_failure { R.failed reader.old ≡ false }
    ensures calls { R.reads reader.new ≤ limit + 1 }
    ensures once_at_the_end { IfOk result (λ file. R.reads reader.new ≤ length (came_of file) + 1) }
    ensures read_failed { IsTrue (R.failed reader.new) ↔ IsErrOf result Fault.ReadFailed }
    ensures before { IfOk result (λ file. file.before.now ≡ before.now) }
    ensures whole { IfOk result (λ file. IsWhole limit (came_of file) (R.to_come reader.new)
        × Consumes (R.to_come reader.old) (R.to_come reader.new) (came_of file)) }
    ensures stopped { IfErr result (λ fault. (came : Bytes)
        × Consumes (R.to_come reader.old) (R.to_come reader.new) came
        × StopsReading limit came fault) }
{
    let (bytes, mut chunk) = match make_room(alloc, reader.expected(), limit) {
        Ok(room) => room,
        Err(error) => return Err(Fault::Memory(error)),
    };
    let mut file = WholeFile::start(bytes, before, validation);
    for _ in 0..=limit {
        let count = match reader.read(&mut chunk) {
            Ok(count) => count,
            Err(Failed) => return Err(Fault::ReadFailed),
        };
        if count == 0 {
            file.fit();
            return Ok(file);
        }
        if (file.len() + count) as u64 > limit {
            return Err(Fault::TooLong);
        }
        if let Err(error) = file.push(&chunk[..count]) {
            return Err(Fault::Memory(error));
        }
    }
    Err(Fault::TooLong)
}

/// An empty vector with room for the bytes that are thought to come, if these are no more than the limit, and room for one call of read.
/// What came is copied from there, so that the vector that holds the file is never filled with zeros, and only as much of it is touched
/// as came.
fn make_room(alloc: Global, expected: u64, limit: u64) -> Result<(Vec<u8>, Vec<u8>), AllocError>
    ensures { IfOk result (λ room. (room.0.items ≡ []) × (vec_len room.1 ≡ greatest_read)) }
{
    let first = if expected <= limit { expected } else { 0 };
    let bytes = Vec::with_capacity(alloc, room_in_large_pages(first as usize))?;
    let chunk = vec![in alloc; 0; CHUNK]?;
    Ok((bytes, chunk))
}
