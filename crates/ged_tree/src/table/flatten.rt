// The flat table of a file.
ghost use Rattle.std.specs.Prelude.{◌≡◌, ◌++◌, ◌∷◌, IfOk, IfErr, OnOk, [], List};
ghost use Rattle.ged_line.specs.Bytes.{Bytes};
ghost use Rattle.ged_line.specs.Lines.{LineParts};
ghost use Rattle.ged_line.specs.Pieces.{IsBehindMark};
ghost use Rattle.ged_tree.specs.Building.{HasFile, TellsFile};
ghost use Rattle.ged_tree.specs.DocumentLines.{document_lines};
ghost use Rattle.ged_tree.specs.inner.Judging.{HasRole};
ghost use Rattle.ged_tree.specs.inner.Tables.{HoldsLines};

use crate::fault::{BuildFault, TreeAt, TreeFault};
use crate::judge::LineRole;
use crate::table::builder::TableBuilder;
use crate::table::flat::Flat;
use crate::table::line_reader::LineReader;
use ged_line::{LineView, first_line, text_behind_mark, view_lines};
use std::alloc::{AllocError, Global};

/// The reader of a table that is made for itself alone. It reads no line, so nothing is told of what it has read.
#[derive(Drop)]
struct NoReader;

impl LineReader for NoReader {
    ghost has_read = { λ _ _. Unit {0} };

    #[inline(always)]
    fn line(&mut self, _line: &LineView<'_>) -> Result<(), AllocError> {
        Ok(())
    }
}

/// The document of a file as a table, whose texts are slices of the file. A byte order mark at the start is skipped.
///
/// Answers the first fault of the file, at the lowest line and there the one that [`TreeFault`] has first. Grows: no
/// payload is copied (FamilySearch GEDCOM 7.0, "Lines" and "Structures").
pub fn flatten(alloc: Global, bytes: &[u8]) -> Result<Flat<'_>, BuildFault>
    ensures document { IfOk result (λ flat. HasFile flat bytes.now) }
    ensures fault { IfErr result (λ fault. TellsFile fault bytes.now) }
{
    flatten_with(alloc, bytes, &mut NoReader)
}

/// The same document or fault as [`flatten`] answers, for a caller that reads each line while the table is being made.
///
/// Where a table is the answer, a reader that had read no line has read every line of the file once and in order, TRLR too. Of what it
/// has read beside a fault no clause says anything. Lines are handed to it as they pass, and where it answers an error, no more lines are
/// read, and the answer is that a growth was refused; but a clause says of that answer only that there is no table.
/// Grows by the table, and by what the reader takes: no payload is copied (FamilySearch GEDCOM 7.0, "Lines" and "Structures").
pub fn flatten_with<'a, R: LineReader>(
    alloc: Global,
    bytes: &'a [u8],
    reader: &mut R,
) -> Result<Flat<'a>, BuildFault>
    ensures document { IfOk result (λ flat. HasFile flat bytes.now) }
    ensures fault { IfErr result (λ fault. TellsFile fault bytes.now) }
    ensures read { IfOk result (λ flat. R.has_read reader.old [] → R.has_read reader.new (document_lines flat)) }
{
    match text_behind_mark(bytes) {
        Some(text) => flatten_text(alloc, text, reader),
        None => flatten_lines(alloc, bytes, reader),
    }
}

/// What [`flatten_with`] answers, of a file whose bytes are known to be UTF-8, so that they are not validated once more. Grows as
/// [`flatten_with`] does (FamilySearch GEDCOM 7.0, "Lines" and "Structures").
pub fn flatten_text_with<'a, R: LineReader>(
    alloc: Global,
    file: &'a str,
    reader: &mut R,
) -> Result<Flat<'a>, BuildFault>
    ensures document { IfOk result (λ flat. HasFile flat file.now) }
    ensures fault { IfErr result (λ fault. TellsFile fault file.now) }
    ensures read { IfOk result (λ flat. R.has_read reader.old [] → R.has_read reader.new (document_lines flat)) }
{
    flatten_text(alloc, without_mark(file), reader)
}

/// What stands in a file behind its byte order mark, or all of it where it has none.
fn without_mark(file: &str) -> &str
    ensures { IsBehindMark file.now result.now }
{
    file.strip_prefix("\u{FEFF}").unwrap_or(file)
}

/// Hands a line that passed, and has this role, to the reader.
#[inline(always)]
fn hand_over<R: LineReader>(
    reader: &mut R,
    line: &LineView<'_>,
    role: LineRole,
) -> Result<(), AllocError>
    requires { HasRole role line.now }
    ensures { OnOk result ((lines : List LineParts) → R.has_read reader.old lines → R.has_read reader.new (lines ++ line.now ∷ [])) }
{
    match role {
        LineRole::Substructure => reader.substructure(line),
        LineRole::Continuation => reader.continuation(line),
        LineRole::Record => reader.record(line),
        LineRole::Other => reader.line(line),
    }
}

/// What [`flatten_with`] answers, of what stands in a file behind its mark, where that is UTF-8.
fn flatten_text<'a, R: LineReader>(
    alloc: Global,
    text: &'a str,
    reader: &mut R,
) -> Result<Flat<'a>, BuildFault>
    ensures document { (file : Bytes) → IsBehindMark file text.now → IfOk result (λ flat. HasFile flat file) }
    ensures fault { (file : Bytes) → IsBehindMark file text.now → IfErr result (λ fault. TellsFile fault file) }
    ensures read { IfOk result (λ flat. R.has_read reader.old [] → R.has_read reader.new (document_lines flat)) }
{
    match TableBuilder::with_room(alloc, text) {
        Ok(table) => flatten_into(table, text, reader),
        Err(error) => Err(BuildFault::Memory(error)),
    }
}

/// The same, into a table that holds no lines yet.
fn flatten_into<'a, R: LineReader>(
    mut table: TableBuilder<'a>,
    text: &'a str,
    reader: &mut R,
) -> Result<Flat<'a>, BuildFault>
    requires lines { HoldsLines table [] }
    requires file { table.file.now ≡ text.now }
    ensures document { (file : Bytes) → IsBehindMark file text.now → IfOk result (λ flat. HasFile flat file) }
    ensures fault { (file : Bytes) → IsBehindMark file text.now → IfErr result (λ fault. TellsFile fault file) }
    ensures read { IfOk result (λ flat. R.has_read reader.old [] → R.has_read reader.new (document_lines flat)) }
{
    let mut rest = text;
    while let Some((line, after)) = first_line(rest) {
        let start = text.len() - rest.len();
        rest = after;
        match line {
            Ok(line) => {
                let role = match table.take(&line, Some(start)) {
                    Ok(role) => role,
                    Err(fault) => return Err(fault),
                };
                if let Err(error) = hand_over(reader, &line.line, role) {
                    return Err(BuildFault::Memory(error));
                }
            }
            Err(fault) => {
                let line = table.count + 1;
                let fault = TreeFault::Line(fault);
                return Err(BuildFault::At(TreeAt { line, fault }));
            }
        }
    }
    match table.finish() {
        Ok(flat) => Ok(flat),
        Err(fault) => Err(fault),
    }
}

/// The same of any file by its lines alone. It is for a file that is not UTF-8, which has some fault: to find the first
/// one its lines are taken like those of another, and each text is kept apart, which makes no table wrong.
#[cold]
fn flatten_lines<'a, R: LineReader>(
    alloc: Global,
    bytes: &'a [u8],
    reader: &mut R,
) -> Result<Flat<'a>, BuildFault>
    ensures document { IfOk result (λ flat. HasFile flat bytes.now) }
    ensures fault { IfErr result (λ fault. TellsFile fault bytes.now) }
    ensures read { IfOk result (λ flat. R.has_read reader.old [] → R.has_read reader.new (document_lines flat)) }
{
    let mut table = TableBuilder::new(alloc, "");
    for line in view_lines(bytes) {
        match line {
            Ok(line) => {
                let role = match table.take(&line, None) {
                    Ok(role) => role,
                    Err(error) => return Err(error),
                };
                if let Err(error) = hand_over(reader, &line.line, role) {
                    return Err(BuildFault::Memory(error));
                }
            }
            Err(fault) => {
                let line = table.count + 1;
                let fault = TreeFault::Line(fault);
                return Err(BuildFault::At(TreeAt { line, fault }));
            }
        }
    }
    match table.finish() {
        Ok(flat) => Ok(flat),
        Err(fault) => Err(fault),
    }
}
