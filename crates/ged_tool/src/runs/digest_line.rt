// The line that tells the digest of a file, in the form of sha256sum.
ghost use Rattle.std.specs.Prelude.{◌≡◌, ◌++◌, IfOk, OnOk};
ghost use Rattle.std.specs.List.{list_any};
ghost use Rattle.ged_tool.specs.DigestRun.{digest_line as line_of_digest, is_escaped as is_escaped_byte};
ghost use Rattle.ged_tool.specs.DigestRun.{name_byte, name_on_line};

use std::alloc::{AllocError, Global};

/// The line of a digest and a name: a backslash where a byte of the name is escaped, the digest in hexadecimal, two spaces, and
/// the name. Grows.
pub(crate) fn digest_line(
    alloc: Global,
    digest: &[u8; 32],
    name: &str,
) -> Result<Vec<u8>, AllocError>
    ensures { IfOk result (λ line. line.items ≡ line_of_digest digest.now name.now) }
{
    let mut line = Vec::new(alloc);
    if has_escaped(name) {
        line.push(b'\\')?;
    }
    line.extend_from_slice(hex::encode(alloc, digest)?.as_bytes())?;
    line.extend_from_slice(b"  ")?;
    push_name(name, &mut line)?;
    line.push(b'\n')?;
    Ok(line)
}

/// Whether a byte of a name is escaped.
fn has_escaped(name: &str) -> bool
    ensures { result ≡ list_any is_escaped_byte name.now }
{
    name.as_bytes().iter().any(|byte| is_escaped(*byte))
}

fn is_escaped(byte: u8) -> bool
    ensures { result ≡ is_escaped_byte byte }
{
    byte == b'\\' || byte == b'\n' || byte == b'\r'
}

/// Appends a name, so that it stays on its line.
fn push_name(name: &str, line: &mut Vec<u8>) -> Result<(), AllocError>
    ensures { OnOk result (line.new.items ≡ line.old.items ++ name_on_line name.now) }
{
    for byte in name.as_bytes() {
        push_byte(*byte, line)?;
    }
    Ok(())
}

fn push_byte(byte: u8, line: &mut Vec<u8>) -> Result<(), AllocError>
    ensures { OnOk result (line.new.items ≡ line.old.items ++ name_byte byte) }
{
    match byte {
        b'\\' => line.extend_from_slice(b"\\\\")?,
        b'\n' => line.extend_from_slice(b"\\n")?,
        b'\r' => line.extend_from_slice(b"\\r")?,
        _ => line.push(byte)?,
    }
    Ok(())
}
