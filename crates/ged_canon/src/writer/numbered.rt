// Lines of a record with a new number: those of the pointers that name it, and its own.
ghost use Rattle.std.specs.Prelude.{◌≡◌, ◌<◌, ◌≤◌, ◌++◌, ◌∷◌, [], None, Some, OnOk, decimal, length};
ghost use Rattle.std.specs.Option.{option_copied};
ghost use Rattle.ged_line.specs.Bytes.{at_sign, line_feed, space};
ghost use Rattle.ged_line.specs.Lines.{Pointer, line_parts, xref_part};
ghost use Rattle.ged_line.specs.Spelling.{spelling};
ghost use Rattle.ged_canon.specs.Normal.{numbered as spells_number};

use ged_line::write_head;
use itoa::Buffer;
use std::alloc::AllocError;

/// Appends a line whose value is a pointer to the record with a new number. After an `Err` the vector is no shorter than before; what
/// then stands in it no clause says, here and below.
#[inline(always)]
pub(crate) fn push_pointer(
    level: u8,
    xref: Option<&str>,
    tag: &str,
    number: usize,
    out: &mut Vec<u8>,
) -> Result<(), AllocError>
    requires level { level ≤ 99 }
    requires number { 0 < number }
    ensures ok { OnOk result (out.new.items ≡ out.old.items ++ (spelling (line_parts level (option_copied xref.entry) tag.now (Pointer (spells_number number))) ++ line_feed ∷ [])) }
    ensures kept { length out.old.items ≤ length out.new.items }
{
    match xref {
        None => push_usual_pointer(level, tag, number, out),
        Some(_) => push_any_pointer(level, xref, tag, number, out),
    }
}

/// The same where there is no identifier. If the level has one digit and the tag four letters, as most have, what stands before the
/// digits has a fixed length, so it is not copied by a call.
#[inline(never)]
fn push_usual_pointer(
    level: u8,
    tag: &str,
    number: usize,
    out: &mut Vec<u8>,
) -> Result<(), AllocError>
    requires level { level ≤ 99 }
    requires number { 0 < number }
    ensures ok { OnOk result (out.new.items ≡ out.old.items ++ (spelling (line_parts level None tag.now (Pointer (spells_number number))) ++ line_feed ∷ [])) }
    ensures kept { length out.old.items ≤ length out.new.items }
{
    if level > 9 {
        return push_any_pointer(level, None, tag, number, out);
    }
    let &[a, b, c, d] = tag.as_bytes() else {
        return push_any_pointer(level, None, tag, number, out);
    };
    out.extend_from_slice(&[b'0' + level, b' ', a, b, c, d, b' ', b'@', b'X'])?;
    push_closed(number, b'\n', out)
}

/// The same for any level, identifier and tag.
#[cold]
#[inline(never)]
fn push_any_pointer(
    level: u8,
    xref: Option<&str>,
    tag: &str,
    number: usize,
    out: &mut Vec<u8>,
) -> Result<(), AllocError>
    requires level { level ≤ 99 }
    requires number { 0 < number }
    ensures ok { OnOk result (out.new.items ≡ out.old.items ++ (spelling (line_parts level (option_copied xref.entry) tag.now (Pointer (spells_number number))) ++ line_feed ∷ [])) }
    ensures kept { length out.old.items ≤ length out.new.items }
{
    write_head(level, xref, out)?;
    out.extend_from_slice(tag.as_bytes())?;
    out.extend_from_slice(b" @X")?;
    push_closed(number, b'\n', out)
}

/// Appends the own line of a record with a new number, which has this rest: its tag, and behind that its payload. A tag of four letters alone,
/// as most have, is not copied by a call.
#[inline(never)]
pub(crate) fn push_record(number: usize, rest: &str, out: &mut Vec<u8>) -> Result<(), AllocError>
    requires { 0 < number }
    ensures ok { OnOk result (out.new.items ≡ out.old.items ++ ((decimal 0 ++ space ∷ (xref_part (Some (spells_number number)) ++ rest.now)) ++ line_feed ∷ [])) }
    ensures kept { length out.old.items ≤ length out.new.items }
{
    out.extend_from_slice(b"0 @X")?;
    push_closed(number, b' ', out)?;
    if let &[a, b, c, d] = rest.as_bytes() {
        out.extend_from_slice(&[a, b, c, d, b'\n'])?;
        return Ok(());
    }
    out.extend_from_slice(rest.as_bytes())?;
    out.push(b'\n')?;
    Ok(())
}

/// Appends the digits of a number, the sign that closes its name, and the byte behind that. Where there are at most four digits, how many
/// there are is known in each branch, so that neither `itoa` nor the vector needs a loop or a call.
#[inline(always)]
fn push_closed(number: usize, behind: u8, out: &mut Vec<u8>) -> Result<(), AllocError>
    ensures ok { OnOk result (out.new.items ≡ out.old.items ++ (decimal number ++ at_sign ∷ behind ∷ [])) }
    ensures kept { length out.old.items ≤ length out.new.items }
{
    if number > 9_999 {
        return push_any_closed(number, behind, out);
    }
    let mut buffer = Buffer::new();
    match buffer.format(number).as_bytes() {
        &[a, b, c, d] => out.extend_from_slice(&[a, b, c, d, b'@', behind]),
        &[a, b, c] => out.extend_from_slice(&[a, b, c, b'@', behind]),
        &[a, b] => out.extend_from_slice(&[a, b, b'@', behind]),
        &[a] => out.extend_from_slice(&[a, b'@', behind]),
        _ => push_any_closed(number, behind, out),
    }
}

/// The same for any number. Cold, so that the branches for few digits are the ones that are inlined. Where there are five digits or six, the
/// last two are told apart from the others, so that here too it is known in each branch how many there are: digits that `itoa` puts into
/// its buffer by a loop would be read from there before they have arrived.
#[cold]
#[inline(never)]
fn push_any_closed(number: usize, behind: u8, out: &mut Vec<u8>) -> Result<(), AllocError>
    ensures ok { OnOk result (out.new.items ≡ out.old.items ++ (decimal number ++ at_sign ∷ behind ∷ [])) }
    ensures kept { length out.old.items ≤ length out.new.items }
{
    if number < 10_000 || number > 999_999 {
        return push_digits_closed(number, behind, out);
    }
    let pair = (number % 100) as u8;
    let ten = b'0' + pair / 10;
    let unit = b'0' + pair % 10;
    let mut buffer = Buffer::new();
    match buffer.format(number / 100).as_bytes() {
        &[a, b, c, d] => out.extend_from_slice(&[a, b, c, d, ten, unit, b'@', behind]),
        &[a, b, c] => out.extend_from_slice(&[a, b, c, ten, unit, b'@', behind]),
        _ => push_digits_closed(number, behind, out),
    }
}

/// The same without a branch for a number of digits.
#[inline(never)]
fn push_digits_closed(number: usize, behind: u8, out: &mut Vec<u8>) -> Result<(), AllocError>
    ensures ok { OnOk result (out.new.items ≡ out.old.items ++ (decimal number ++ at_sign ∷ behind ∷ [])) }
    ensures kept { length out.old.items ≤ length out.new.items }
{
    let mut buffer = Buffer::new();
    out.extend_from_slice(buffer.format(number).as_bytes())?;
    out.extend_from_slice(&[b'@', behind])
}
