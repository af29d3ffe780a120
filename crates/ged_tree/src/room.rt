// How much memory to ask for at once, so that it fills whole large pages.
ghost use Rattle.std.specs.Prelude.{◌≡◌, ◌≤◌, ◌<◌, ◌+◌, ◌%◌, ◌^◌};

/// How many bytes a large page of memory has on most systems.
const LARGE_PAGE: usize = 2_097_152;

/// At least as many bytes as an allocator keeps for itself beside those that it hands out.
const BESIDE: usize = 32;

/// How many bytes to take room for where so many are wanted: from a large page on as many as fill whole large pages, with what an allocator
/// keeps for itself beside them.
///
/// Memory of such a length can begin where a large page does, and then a system that has large pages gives no small ones at its ends. That
/// saves time alone. Takes no memory.
pub fn room_in_large_pages(bytes: usize) -> usize
    ensures enough { bytes ≤ result }
    ensures near { result < bytes + 2097152 }
    ensures whole { 2097152 ≤ bytes → bytes < 2 ^ 62 → (result + 32) % 2097152 ≡ 0 }
{
    if bytes < LARGE_PAGE || bytes > usize::MAX / 2 {
        return bytes;
    }
    let last = (bytes + BESIDE - 1) % LARGE_PAGE;
    bytes + (LARGE_PAGE - 1 - last)
}

/// A vector of so many elements gives back the room that it did not fill; the room of a shorter one is not worth a request.
const MANY: usize = 262_144;

/// Gives back the room that a vector of 262,144 elements or more did not fill, as far as the system takes it; a shorter one stays as it is.
/// Takes no memory.
pub fn give_back<T>(filled: &mut Vec<T>)
    ensures { filled.new.items ≡ filled.old.items }
{
    if filled.len() >= MANY {
        filled.shrink_to_fit();
    }
}
