// Writing lines in their canonical spelling.
ghost use Rattle.std.specs.Prelude.{◌≡◌, ◌≤◌, true, ◌++◌, ◌∷◌, [], OnOk, OnErr, option_map, decimal};
ghost use Rattle.ged_line.specs.Bytes.{Bytes, line_feed, space};
ghost use Rattle.ged_line.specs.Lines.{xref_part, line_parts, is_line};
ghost use Rattle.ged_line.specs.Views.{viewed_value};
ghost use Rattle.ged_line.specs.Spelling.{spelling, value_part};

use crate::line::view::{LineView, ValueView};
use itoa::Buffer;
use std::alloc::AllocError;

/// Appends the two digits of a level, and a space.
#[cold]
#[inline(never)]
fn append_deep_level(level: u8, out: &mut Vec<u8>) -> Result<(), AllocError>
    requires { level ≤ 99 }
    ensures ok { OnOk result (out.new.items ≡ out.old.items ++ (decimal level ++ space ∷ [])) }
    ensures kept { (more : Bytes) × (out.new.items ≡ out.old.items ++ more) }
{
    let mut buffer = Buffer::new();
    out.extend_from_slice(buffer.format(level).as_bytes())?;
    out.push(b' ')?;
    Ok(())
}

/// Appends the digits of a level, and a space. Most levels have one digit.
#[inline(always)]
fn append_level(level: u8, out: &mut Vec<u8>) -> Result<(), AllocError>
    requires { level ≤ 99 }
    ensures ok { OnOk result (out.new.items ≡ out.old.items ++ (decimal level ++ space ∷ [])) }
    ensures kept { (more : Bytes) × (out.new.items ≡ out.old.items ++ more) }
{
    if level < 10 {
        return out.extend_from_slice(&[b'0' + level, b' ']);
    }
    append_deep_level(level, out)
}

#[inline(always)]
fn append_xref(xref: Option<&str>, out: &mut Vec<u8>) -> Result<(), AllocError>
    ensures ok { OnOk result (out.new.items ≡ out.old.items ++ xref_part (option_map (λ name. name.now) xref.entry)) }
    ensures kept { (more : Bytes) × (out.new.items ≡ out.old.items ++ more) }
{
    if let Some(name) = xref {
        out.push(b'@')?;
        out.extend_from_slice(name.as_bytes())?;
        out.extend_from_slice(b"@ ")?;
    }
    Ok(())
}

/// Appends what stands before the tag of a line: the level, a space, and the cross-reference identifier, if there is one, with
/// its signs and a space. Grows; after an `Err` the vector is unchanged (FamilySearch GEDCOM 7.0, "Lines").
#[inline(always)]
pub fn write_head(level: u8, xref: Option<&str>, out: &mut Vec<u8>) -> Result<(), AllocError>
    requires { level ≤ 99 }
    ensures ok { OnOk result (out.new.items ≡ out.old.items ++ (decimal level ++ space ∷ xref_part (option_map (λ name. name.now) xref.entry))) }
    ensures err { OnErr result (out.new.items ≡ out.old.items) }
{
    let before = out.len();
    let result = append_head(level, xref, out);
    if result.is_err() {
        out.truncate(before);
    }
    result
}

fn append_value(value: ValueView<'_>, out: &mut Vec<u8>) -> Result<(), AllocError>
    ensures ok { OnOk result (out.new.items ≡ out.old.items ++ value_part (viewed_value value.entry)) }
    ensures kept { (more : Bytes) × (out.new.items ≡ out.old.items ++ more) }
{
    match value {
        ValueView::Empty => {}
        ValueView::Void => out.extend_from_slice(b" @VOID@")?,
        ValueView::Pointer(name) => {
            out.extend_from_slice(b" @")?;
            out.extend_from_slice(name.as_bytes())?;
            out.push(b'@')?;
        }
        ValueView::Text(text) => {
            out.push(b' ')?;
            if text.as_bytes().first() == Some(&b'@') {
                out.push(b'@')?;
            }
            out.extend_from_slice(text.as_bytes())?;
        }
    }
    Ok(())
}

#[inline(always)]
fn append_head(level: u8, xref: Option<&str>, out: &mut Vec<u8>) -> Result<(), AllocError>
    requires { level ≤ 99 }
    ensures ok { OnOk result (out.new.items ≡ out.old.items ++ (decimal level ++ space ∷ xref_part (option_map (λ name. name.now) xref.entry))) }
    ensures kept { (more : Bytes) × (out.new.items ≡ out.old.items ++ more) }
{
    append_level(level, out)?;
    append_xref(xref, out)
}

fn append_line(
    level: u8,
    xref: Option<&str>,
    tag: &str,
    value: ValueView<'_>,
    out: &mut Vec<u8>,
) -> Result<(), AllocError>
    requires { level ≤ 99 }
    ensures ok { OnOk result (out.new.items ≡ out.old.items ++ (spelling (line_parts level (option_map (λ name. name.now) xref.entry) tag.now (viewed_value value.entry)) ++ line_feed ∷ [])) }
    ensures kept { (more : Bytes) × (out.new.items ≡ out.old.items ++ more) }
{
    append_head(level, xref, out)?;
    out.extend_from_slice(tag.as_bytes())?;
    append_value(value, out)?;
    out.push(b'\n')?;
    Ok(())
}

/// Appends the canonical spelling of the line of parts that are known to be a line's, and LF: a name is a tag or a
/// cross-reference identifier, and a text has no banned character. They aren't tested again. Grows; after an `Err` the
/// vector is unchanged (FamilySearch GEDCOM 7.0, "Lines").
pub fn write_parts(
    level: u8,
    xref: Option<&str>,
    tag: &str,
    value: ValueView<'_>,
    out: &mut Vec<u8>,
) -> Result<(), AllocError>
    requires { is_line (line_parts level (option_map (λ name. name.now) xref) tag.now (viewed_value value)) ≡ true }
    ensures ok { OnOk result (out.new.items ≡ out.old.items ++ (spelling (line_parts level (option_map (λ name. name.now) xref.entry) tag.now (viewed_value value.entry)) ++ line_feed ∷ [])) }
    ensures err { OnErr result (out.new.items ≡ out.old.items) }
{
    let start = out.len();
    let result = append_line(level, xref, tag, value, out);
    if result.is_err() {
        out.truncate(start);
    }
    result
}

/// Appends the canonical spelling of a line and LF. Grows; after an `Err` the vector is unchanged
/// (FamilySearch GEDCOM 7.0, "Lines").
pub fn write_view(view: &LineView<'_>, out: &mut Vec<u8>) -> Result<(), AllocError>
    ensures ok { OnOk result (out.new.items ≡ out.old.items ++ (spelling view.now ++ line_feed ∷ [])) }
    ensures err { OnErr result (out.new.items ≡ out.old.items) }
    ensures line { is_line view.now ≡ true }
{
    write_parts(view.level(), view.xref(), view.tag(), view.value(), out)
}
