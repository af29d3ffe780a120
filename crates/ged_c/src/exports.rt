// What C calls. Each call is declared in ffi/c/gedtool.h, which also says what a caller owes. C passes nothing for the allocator,
// and a slice as a pointer and a length.
ghost use Rattle.std.specs.Prelude.{◌≡◌, ◌≤◌, ◌+◌, length as length_of_list};
ghost use Rattle.ged_c.specs.Calls.{IsCall};
ghost use Rattle.ged_c.specs.Comparisons.{IsComparison};
ghost use Rattle.ged_c.specs.Digests.{IsDigestCall};
ghost use Rattle.ged_c.specs.Texts.{IsNameCall, IsPartCall};

use crate::answering::answer_file;
use crate::comparing::compare;
use crate::digesting::digest_into;
use crate::explaining::{name_into, part_into};
use ged_tool::Command;
use std::alloc::Global;

/// The file's lines in their canonical spelling, after a byte order mark. Each line is judged by itself, so faults 1 to 8 are told.
/// The answer has at most 4 bytes more than the file.
///
/// Answers 0 where the answer, of `length` bytes, stands at the front of the room; 64 where it has `length` bytes, for which the
/// room is too small; the number of the file's first fault, which stands at `line`; 24 where the file is longer than
/// 1,073,741,824 bytes; 27 where memory is refused; 65 where the settings are above 3. Behind the answer, and after any other
/// status, the room is as it was. Grows.
#[unsafe(no_mangle)]
pub extern "C" fn gedtool_lines(
    alloc: Global,
    settings: u32,
    file: &[u8],
    room: &mut [u8],
    length: &mut usize,
    line: &mut u64,
) -> u32
    ensures answered { IsCall Command.Lines settings file.now room.old room.new result length.new line.new }
    ensures short { length.new ≤ length_of_list file.now + 4 }
{
    answer_file(alloc, Command::Lines, settings, file, room, length, line)
}

/// A line for each notice of an accepted file, and the line `accepted`.
///
/// Answers 0 where the answer, of `length` bytes, stands at the front of the room; 64 where it has `length` bytes, for which the
/// room is too small; the number of the file's first fault, which stands at `line`; 24 where the file is longer than
/// 1,073,741,824 bytes; 27 where memory is refused; 65 where the settings are above 3. Behind the answer, and after any other
/// status, the room is as it was. Grows.
#[unsafe(no_mangle)]
pub extern "C" fn gedtool_check(
    alloc: Global,
    settings: u32,
    file: &[u8],
    room: &mut [u8],
    length: &mut usize,
    line: &mut u64,
) -> u32
    ensures { IsCall Command.Check settings file.now room.old room.new result length.new line.new }
{
    answer_file(alloc, Command::Check, settings, file, room, length, line)
}

/// A line for each structure of an accepted file.
///
/// Answers 0 where the answer, of `length` bytes, stands at the front of the room; 64 where it has `length` bytes, for which the
/// room is too small; the number of the file's first fault, which stands at `line`; 24 where the file is longer than
/// 1,073,741,824 bytes; 27 where memory is refused; 65 where the settings are above 3. Behind the answer, and after any other
/// status, the room is as it was. Grows.
#[unsafe(no_mangle)]
pub extern "C" fn gedtool_show(
    alloc: Global,
    settings: u32,
    file: &[u8],
    room: &mut [u8],
    length: &mut usize,
    line: &mut u64,
) -> u32
    ensures { IsCall Command.Show settings file.now room.old room.new result length.new line.new }
{
    answer_file(alloc, Command::Show, settings, file, room, length, line)
}

/// The canonical bytes of an accepted file.
///
/// Answers 0 where the answer, of `length` bytes, stands at the front of the room; 64 where it has `length` bytes, for which the
/// room is too small; the number of the file's first fault, which stands at `line`; 24 where the file is longer than
/// 1,073,741,824 bytes; 27 where memory is refused; 65 where the settings are above 3. Behind the answer, and after any other
/// status, the room is as it was. Grows.
#[unsafe(no_mangle)]
pub extern "C" fn gedtool_canon(
    alloc: Global,
    settings: u32,
    file: &[u8],
    room: &mut [u8],
    length: &mut usize,
    line: &mut u64,
) -> u32
    ensures { IsCall Command.Canon settings file.now room.old room.new result length.new line.new }
{
    answer_file(alloc, Command::Canon, settings, file, room, length, line)
}

/// Whether two accepted files say the same.
///
/// Answers 0 where both are accepted: `same` is 1 where they say the same, else 0. Else `same` is 0, and the status is one of
/// those of a call on one file, but for 64; `which` is 1 or 2 for the file that has the fault, that is too long or for which
/// memory was refused, and `line` is the line of a fault of that file. Where they have nothing to tell, both are 0. Grows.
#[unsafe(no_mangle)]
pub extern "C" fn gedtool_same(
    alloc: Global,
    settings: u32,
    first: &[u8],
    second: &[u8],
    same: &mut u32,
    which: &mut u32,
    line: &mut u64,
) -> u32
    ensures { IsComparison settings first.now second.now result same.new which.new line.new }
{
    let compared = compare(alloc, settings, first, second);
    *same = compared.same();
    *which = compared.which();
    *line = compared.line();
    compared.status()
}

/// The digest of an accepted file: the 32 bytes of the SHA-256 of its canonical bytes.
///
/// Answers 0 where it stands at the front of the room; 64 where the room has fewer than 32 bytes, and then the file is not
/// judged; else a status of a call on one file, with the line of a fault of the file. Behind the digest, and after any other
/// status, the room is as it was. Grows.
#[unsafe(no_mangle)]
pub extern "C" fn gedtool_digest(
    alloc: Global,
    settings: u32,
    file: &[u8],
    room: &mut [u8],
    line: &mut u64,
) -> u32
    ensures { IsDigestCall settings file.now room.old room.new result line.new }
{
    let ended = digest_into(alloc, settings, file, room);
    *line = ended.line();
    ended.status()
}

/// The name of the fault with a number, as `LevelJump`.
///
/// Answers 0 where the name, of `length` bytes, stands at the front of the room; 64 where it has `length` bytes, for which the
/// room is too small; 66 where no fault has the number, and then `length` is 0. Behind the name, and after any other status, the
/// room is as it was. Takes no memory.
#[unsafe(no_mangle)]
pub extern "C" fn gedtool_fault_name(fault: u32, room: &mut [u8], length: &mut usize) -> u32
    ensures { IsNameCall fault room.old room.new result length.new }
{
    let ended = name_into(fault, room);
    *length = ended.length();
    ended.status()
}

/// A part of what the fault with a number means: for 0 what is wrong, for 1 what usually causes it and what helps, for 2 lines of a
/// file that has it, or for 24 to 27 a command that runs into it.
///
/// Answers 0 where the part, of `length` bytes, stands at the front of the room; 64 where it has `length` bytes, for which the
/// room is too small; 66 where no fault has the number, or the part is above 2, and then `length` is 0. Behind the part, and after
/// any other status, the room is as it was. Takes no memory.
#[unsafe(no_mangle)]
pub extern "C" fn gedtool_explain(fault: u32, part: u32, room: &mut [u8], length: &mut usize) -> u32
    ensures { IsPartCall fault part room.old room.new result length.new }
{
    let ended = part_into(fault, part, room);
    *length = ended.length();
    ended.status()
}

/// The number of the form that these calls have. Takes no memory.
#[unsafe(no_mangle)]
pub extern "C" fn gedtool_abi() -> u32
    ensures { result ≡ 1 }
{
    1
}

/// The version: its first number times 10,000, its second times 100, and its third. Takes no memory.
#[unsafe(no_mangle)]
pub extern "C" fn gedtool_version() -> u32
    ensures { result ≡ 100 }
{
    100
}
