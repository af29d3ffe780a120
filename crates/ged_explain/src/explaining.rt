// The lines that explain a fault or a notice.
ghost use Rattle.std.specs.Prelude.{◌≡◌, ◌++◌, IfOk, OnOk, option_map, string_bytes};
ghost use Rattle.ged_explain.specs.Showing.{Begins, IsPieceAt};
ghost use Rattle.ged_explain.specs.Openings.{Opens, ShowsLine, cause_head, file_line as line_of_file, opening, reason_line};

use crate::explanation::Explanation;
use crate::faults::meaning_of;
use crate::path::{Step, Walk};
use crate::pieces::piece_at;
use crate::shown::shown_line;
use crate::site::Site;
use crate::version::say_other_version;
use crate::wrong_lines::{say_cut_off, say_wrong_line};
use crate::wrong_links::say_wrong_link;
use crate::wrong_structures::say_wrong_structure;
use crate::wrong_tables::say_wrong_by_tables;
use ged_faults::{Fault, FileFault};
use ged_link::{Notice, NoticeKind};
use itoa::Buffer;
use std::alloc::{AllocError, Global};

/// The lines that explain a fault, each with its line feed: the name of the file, which is handed in and told as it is, the
/// line as it stands, the structures above it, what belongs there, and what usually causes the fault. That the file ends within the
/// line, or says in its header that it is of another version, is told too.
///
/// `bytes` are those of the file in which the fault was found; of any others the text has no meaning. Of a long line its first
/// 120 columns or a few more are told; a byte that is not UTF-8 is told as `\xNN`, and a character that is not seen as `U+NNNN`.
/// A fault that is not of the file is told as [`explain_device`] tells it, without a reason. Grows by the answer, and by parts of it
/// while it is put together.
pub fn explain_fault(
    alloc: Global,
    bytes: &[u8],
    fault: &Fault,
    name: &str,
) -> Result<String, AllocError>
    ensures { IfOk result (λ text. Opens name.now bytes.now fault.now (string_bytes text)) }
{
    match *fault {
        Fault::InFile { line, kind } => explain_kind(alloc, bytes, line, kind, name),
        _ => explain_device(alloc, fault, name, ""),
    }
}

/// The lines that explain a notice of an accepted file, as [`explain_fault`] gives those of a fault. Grows as that does.
pub fn explain_notice(
    alloc: Global,
    bytes: &[u8],
    notice: &Notice,
    name: &str,
) -> Result<String, AllocError>
    ensures { IfOk result (λ text. ShowsLine name.now bytes.now notice.now.line (string_bytes text)) }
{
    let kind = fault_of(notice.kind);
    explain_kind(alloc, bytes, notice.line, kind, name)
}

/// The fault that a notice is under the strict profile.
pub(crate) fn fault_of(kind: NoticeKind) -> FileFault {
    match kind {
        NoticeKind::OneWay => FileFault::OneWayLink,
        NoticeKind::Unlisted => FileFault::UnlistedTag,
    }
}

/// The lines that explain a fault of a device, of the limit or of memory: the name of the file and the reason, which are handed
/// in and told as they are, and what usually causes the fault. An empty reason is left out. Grows by the answer alone.
pub fn explain_device(
    alloc: Global,
    fault: &Fault,
    name: &str,
    reason: &str,
) -> Result<String, AllocError>
    ensures { IfOk result (λ text. Begins (line_of_file name.now ++ (reason_line reason.now ++ cause_head)) (string_bytes text)) }
{
    let mut text = file_line(alloc, name)?;
    push_reason(reason, &mut text)?;
    text.push_str("  cause: ")?;
    text.push_str(meaning_of(fault).cause)?;
    text.push_str("\n")?;
    Ok(text)
}

/// The line that names the file.
fn file_line(alloc: Global, name: &str) -> Result<String, AllocError>
    ensures { IfOk result (λ text. string_bytes text ≡ line_of_file name.now) }
{
    let mut text = String::from_str(alloc, "  file: ")?;
    text.push_str(name)?;
    text.push_str("\n")?;
    Ok(text)
}

/// Appends the line that tells a reason, if there is one.
fn push_reason(reason: &str, text: &mut String) -> Result<(), AllocError>
    ensures { OnOk result (string_bytes text.new ≡ string_bytes text.old ++ reason_line reason.now) }
{
    if reason.is_empty() {
        return Ok(());
    }
    text.push_str("  reason: ")?;
    text.push_str(reason)?;
    text.push_str("\n")
}

/// What is told of a line and its fault.
fn explain_kind(
    alloc: Global,
    bytes: &[u8],
    line: u64,
    kind: FileFault,
    name: &str,
) -> Result<String, AllocError>
    ensures { IfOk result (λ text. ShowsLine name.now bytes.now line (string_bytes text)) }
{
    let mut walk = Walk::new(bytes);
    walk.go_to(line);
    let site = Site {
        bytes,
        line,
        piece: piece_at(bytes, line),
        path: walk.path(),
        known: None,
    };
    explain_site(alloc, &site, kind, name)
}

/// The same of a line that has been found.
pub(crate) fn explain_site(
    alloc: Global,
    site: &Site<'_, '_>,
    kind: FileFault,
    name: &str,
) -> Result<String, AllocError>
    requires { IsPieceAt site.now.bytes.now site.now.line (option_map (λ piece. piece.now) site.now.piece) }
    ensures { IfOk result (λ text. ShowsLine name.now site.now.bytes.now site.now.line (string_bytes text)) }
{
    let shown = shown_line(alloc, site.piece)?;
    let details = details_of(alloc, site, kind)?;
    let mut text = numbered_line(alloc, site.line, name)?;
    text.push_str(shown.as_str())?;
    text.push_str(details.as_str())?;
    Ok(text)
}

/// The line that names the file, and the number of a line at the head of the next one.
fn numbered_line(alloc: Global, line: u64, name: &str) -> Result<String, AllocError>
    ensures { IfOk result (λ text. string_bytes text ≡ opening name.now line) }
{
    let mut text = file_line(alloc, name)?;
    let mut buffer = Buffer::new();
    text.push_str("  line ")?;
    text.push_str(buffer.format(line))?;
    Ok(text)
}

/// What is told below the line.
fn details_of(alloc: Global, site: &Site<'_, '_>, kind: FileFault) -> Result<String, AllocError> {
    let mut told = Explanation::new(alloc);
    say_place(site, &mut told);
    told.say("  wrong: ");
    say_wrong(kind, site, &mut told);
    told.say("\n");
    say_cut_off(kind, site, &mut told);
    say_other_version(kind, site.bytes, &mut told);
    told.say("  cause: ");
    let line = site.line;
    told.say(meaning_of(&Fault::InFile { line, kind }).cause);
    told.say("\n");
    told.into_text()
}

/// Says where the line stands. One that is no line has no level that can be relied on, so that the place of the line before it
/// is said.
fn say_place(site: &Site<'_, '_>, told: &mut Explanation) {
    let Some(last) = site.path.last() else {
        return;
    };
    told.say(match site.own() {
        Some(_) => "  place: ",
        None => "  after: ",
    });
    site.path.say(last.level, told);
    told.say("\n");
}

fn say_wrong(kind: FileFault, site: &Site<'_, '_>, told: &mut Explanation) {
    match site.own() {
        Some(own) => say_wrong_here(kind, site, own, told),
        None => match site.piece {
            Some(piece) => say_wrong_line(kind, piece, told),
            None => say_end(kind, told),
        },
    }
}

fn say_end(kind: FileFault, told: &mut Explanation) {
    told.say(match kind {
        FileFault::NoTrailer => "the last line has to be 0 TRLR",
        _ => "the first line has to be 0 HEAD",
    });
}

fn say_wrong_here(kind: FileFault, site: &Site<'_, '_>, own: Step<'_>, told: &mut Explanation) {
    match kind {
        FileFault::DuplicateXref
        | FileFault::DanglingPointer
        | FileFault::WrongTarget
        | FileFault::OneWayLink => say_wrong_link(kind, site, own, told),
        FileFault::WrongVersion
        | FileFault::BadPayload
        | FileFault::TooMany
        | FileFault::Missing
        | FileFault::UnlistedTag => say_wrong_by_tables(kind, site, own, told),
        _ => say_wrong_structure(kind, site, own, told),
    }
}
