// Whether two files say the same.
ghost use Rattle.std.specs.Prelude.{◌≡◌, ◌↔◌, IsTrue, IfOk, IfErr};
ghost use Rattle.ged_tool.specs.Settings.{profile_of, edition_of};
ghost use Rattle.ged_line.specs.Bytes.{Bytes};
ghost use Rattle.ged_accept.specs.Accepted.{FileFaultAt, IsRefusal};
ghost use Rattle.ged_tool.specs.Same.{AreCompared, AreComparedBy, IsInForm, IsSameRefusal, relation_of};
ghost use Rattle.ged_tool.specs.inner.FileTexts.{file_bytes};

use crate::calls::accept::accept_file;
use crate::calls::file_text::{FileText, are_equal};
use crate::calls::spell::spell_form;
use crate::comparison::{Comparison, Form};
use crate::settings::Settings;
use ged_canon::{Edition, IndexedDocument, SpelledForm, have_same_form};
use ged_faults::{Fault, Which};
use ged_line::split_pieces;
use ged_schema::Profile;
use std::alloc::Global;

/// How many bytes of a file tell whether its records are numbered as those of a form.
const FRONT: usize = 65_536;

/// Why two files are not compared: what is wrong with one of them.
#[derive(Clone, Copy, PartialEq, Eq, Debug)]
pub struct SameFault {
    /// The file with the fault.
    pub which: Which,
    /// What [`crate::canonicalise_as`] and [`crate::tidy_as`] answer for that file.
    pub fault: Fault,
}

/// What [`same_as`] answers under the lenient profile and in the first edition. Grows.
pub fn same(alloc: Global, first: &[u8], second: &[u8]) -> Result<bool, SameFault>
    ensures compared { IfOk result (AreCompared Profile.Lenient Edition.First first.now second.now) }
    ensures refused { IfErr result (λ at. IsSameRefusal Profile.Lenient first.now second.now at.which at.fault) }
{
    same_as(alloc, Settings::new(), first, second)
}

/// Whether two files that are accepted under the profile of the settings have the same canonical bytes in their edition,
/// so whether one's document becomes the other's by steps: what [`same_by`] answers in [`Form::Canonical`]. Grows.
pub fn same_as(
    alloc: Global,
    settings: Settings,
    first: &[u8],
    second: &[u8],
) -> Result<bool, SameFault>
    ensures compared { IfOk result (AreCompared (profile_of settings) (edition_of settings) first.now second.now) }
    ensures refused { IfErr result (λ at. IsSameRefusal (profile_of settings) first.now second.now at.which at.fault) }
{
    let form = Form::Canonical;
    same_by(alloc, Comparison { settings, form }, first, second)
}

/// Whether two files that are accepted under the profile of the comparison have the same bytes in its form and edition: in
/// the canonical form whether one's document becomes the other's by steps, in the tidy form whether it does by steps at
/// places, which leave each identifier as it is.
///
/// Two files of equal bytes are judged once. In the canonical form two files of which neither may be that form, by its front, are both
/// judged, and then their documents are compared, record by record. Otherwise each file is put into the form, but for one that is the
/// form of the other: the first, where that may be a form by its front, else the second. What stands in a file as the form has it is not
/// copied.
///
/// Answers InFile with the first file's first fault, or where that file is accepted with the second's, or Memory for the file for which
/// none was found, which is the second where it was found for both to be judged; no other fault. Grows; the comparison of two forms takes
/// no memory.
pub fn same_by(
    alloc: Global,
    comparison: Comparison,
    first: &[u8],
    second: &[u8],
) -> Result<bool, SameFault>
    ensures compared { IfOk result (AreComparedBy (profile_of comparison.settings)
        (relation_of comparison.form (edition_of comparison.settings)) first.now second.now) }
    ensures refused { IfErr result (λ at. IsSameRefusal (profile_of comparison.settings) first.now second.now at.which at.fault) }
{
    same_files(
        alloc,
        comparison,
        FileText::Bytes(first),
        FileText::Bytes(second),
    )
}

/// What [`same_by`] answers, of files that may be known to be texts. Grows.
pub(crate) fn same_files(
    alloc: Global,
    comparison: Comparison,
    first: FileText<'_>,
    second: FileText<'_>,
) -> Result<bool, SameFault>
    ensures compared { IfOk result (AreComparedBy (profile_of comparison.settings)
        (relation_of comparison.form (edition_of comparison.settings)) (file_bytes first.entry) (file_bytes second.entry)) }
    ensures refused { IfErr result (λ at. IsSameRefusal (profile_of comparison.settings) (file_bytes first.entry) (file_bytes second.entry) at.which at.fault) }
{
    if are_equal(first.bytes(), second.bytes()) {
        return is_as_its_copy(alloc, comparison, first);
    }
    if comparison.form == Form::Canonical
        && !may_be_canonical(first.bytes())
        && !may_be_canonical(second.bytes())
    {
        return compare_documents(alloc, comparison.settings, first, second);
    }
    if may_be_form_of(first.bytes(), second.bytes()) {
        return compare_to_second(alloc, comparison, first, second);
    }
    compare_to_first(alloc, comparison, first, second)
}

/// Whether the first file may be the form of the second rather than the other way round, as their fronts tell: a form begins with a byte
/// order mark, and where both do, the records of a canonical form are numbered. It says which file is put into the form first, and no
/// clause rests on it.
fn may_be_form_of(first: &[u8], second: &[u8]) -> bool {
    begins_with_mark(first)
        && (!begins_with_mark(second) || is_numbered(first) || !is_numbered(second))
}

/// Whether a file may be a canonical form, as its front tells: it begins with a mark, and the first of its records that has an identifier, if
/// one stands there, has that of a canonical form. No clause rests on it.
fn may_be_canonical(bytes: &[u8]) -> bool {
    begins_with_mark(bytes) && (is_numbered(bytes) || first_identified(bytes).is_none())
}

fn begins_with_mark(bytes: &[u8]) -> bool {
    bytes.starts_with(&[0xEF, 0xBB, 0xBF])
}

/// Whether the first record with an identifier near the front of a file has that of a canonical form.
fn is_numbered(bytes: &[u8]) -> bool {
    match first_identified(bytes) {
        Some(line) => line.starts_with(b"0 @X1@ "),
        None => false,
    }
}

/// The line of the first record with an identifier near the front of a file.
fn first_identified(bytes: &[u8]) -> Option<&[u8]> {
    for line in split_pieces(&bytes[..bytes.len().min(FRONT)]) {
        if line.starts_with(b"0 @") {
            return Some(line);
        }
    }
    None
}

/// One of the two files in the form of a comparison, or why it is not compared.
fn form_of(
    alloc: Global,
    comparison: Comparison,
    which: Which,
    file: FileText<'_>,
) -> Result<SpelledForm<'_>, SameFault>
    ensures form { IfOk result (λ text. IsInForm comparison.form (profile_of comparison.settings) (edition_of comparison.settings) (file_bytes file.entry) text) }
    ensures which { IfErr result (λ at. at.which ≡ which) }
    ensures fault { IfErr result (λ at. IsRefusal (FileFaultAt (profile_of comparison.settings) (file_bytes file.entry)) at.fault) }
{
    match spell_form(alloc, comparison.settings, comparison.form, file) {
        Ok(form) => Ok(form),
        Err(fault) => Err(SameFault { which, fault }),
    }
}

/// What [`same_by`] answers in the canonical form, where neither file is put into it: both are accepted, and their documents compared.
fn compare_documents(
    alloc: Global,
    settings: Settings,
    first: FileText<'_>,
    second: FileText<'_>,
) -> Result<bool, SameFault>
    ensures compared { IfOk result (AreCompared (profile_of settings) (edition_of settings) (file_bytes first.entry) (file_bytes second.entry)) }
    ensures refused { IfErr result (λ at. IsSameRefusal (profile_of settings) (file_bytes first.entry) (file_bytes second.entry) at.which at.fault) }
{
    let one = match accept_file(alloc, settings, first) {
        Ok(accepted) => accepted,
        Err(fault) => return Err(fault_of(Which::First, fault)),
    };
    let other = match accept_file(alloc, settings, second) {
        Ok(accepted) => accepted,
        Err(fault) => return Err(fault_of(Which::Second, fault)),
    };
    let (flat, other_flat) = (one.flat(), other.flat());
    let one = IndexedDocument {
        forest: flat,
        index: one.index(),
        lines: flat.bare_lines(),
    };
    let other = IndexedDocument {
        forest: other_flat,
        index: other.index(),
        lines: other_flat.bare_lines(),
    };
    match have_same_form(alloc, settings.edition, &one, &other) {
        Ok(same) => Ok(same),
        Err(error) => Err(fault_of(Which::Second, Fault::Memory(error))),
    }
}

/// What [`same_by`] answers, where the first file is put into the form before the second. Where the second is that form byte for byte, it
/// is accepted and has itself for its form, so it is not judged.
fn compare_to_first(
    alloc: Global,
    comparison: Comparison,
    first: FileText<'_>,
    second: FileText<'_>,
) -> Result<bool, SameFault>
    ensures compared { IfOk result (AreComparedBy (profile_of comparison.settings)
        (relation_of comparison.form (edition_of comparison.settings)) (file_bytes first.entry) (file_bytes second.entry)) }
    ensures refused { IfErr result (λ at. IsSameRefusal (profile_of comparison.settings) (file_bytes first.entry) (file_bytes second.entry) at.which at.fault) }
{
    let first_form = match form_of(alloc, comparison, Which::First, first) {
        Ok(form) => form,
        Err(at) => return Err(at),
    };
    if is_spelled(&first_form, second.bytes()) {
        return Ok(true);
    }
    let second_form = match form_of(alloc, comparison, Which::Second, second) {
        Ok(form) => form,
        Err(at) => return Err(at),
    };
    Ok(first_form.has_bytes_of(&second_form))
}

/// The same, where the second file is put into the form before the first. Where the first is that form, it is not judged.
fn compare_to_second(
    alloc: Global,
    comparison: Comparison,
    first: FileText<'_>,
    second: FileText<'_>,
) -> Result<bool, SameFault>
    ensures compared { IfOk result (AreComparedBy (profile_of comparison.settings)
        (relation_of comparison.form (edition_of comparison.settings)) (file_bytes first.entry) (file_bytes second.entry)) }
    ensures refused { IfErr result (λ at. IsSameRefusal (profile_of comparison.settings) (file_bytes first.entry) (file_bytes second.entry) at.which at.fault) }
{
    let second_form = match form_of(alloc, comparison, Which::Second, second) {
        Ok(form) => form,
        Err(at) => return Err(told_before(alloc, comparison.settings, first, at)),
    };
    if is_spelled(&second_form, first.bytes()) {
        return Ok(true);
    }
    let first_form = match form_of(alloc, comparison, Which::First, first) {
        Ok(form) => form,
        Err(at) => return Err(at),
    };
    Ok(first_form.has_bytes_of(&second_form))
}

/// Which fault is told where the second file has one: that of the first, if it has one too.
fn told_before(
    alloc: Global,
    settings: Settings,
    first: FileText<'_>,
    second: SameFault,
) -> SameFault
    ensures { (bytes : Bytes) → second.which ≡ Which.Second → IsRefusal (FileFaultAt (profile_of settings) bytes) second.fault
        → IsSameRefusal (profile_of settings) (file_bytes first.entry) bytes result.which result.fault }
{
    match accept_file(alloc, settings, first) {
        Ok(_) => second,
        Err(fault) => fault_of(Which::First, fault),
    }
}

/// What [`same_by`] answers for a file and a copy of it: they are the same where the file is accepted, so neither is put into
/// the form.
fn is_as_its_copy(
    alloc: Global,
    comparison: Comparison,
    file: FileText<'_>,
) -> Result<bool, SameFault>
    ensures compared { IfOk result (AreComparedBy (profile_of comparison.settings)
        (relation_of comparison.form (edition_of comparison.settings)) (file_bytes file.entry) (file_bytes file.entry)) }
    ensures refused { IfErr result (λ at. IsSameRefusal (profile_of comparison.settings) (file_bytes file.entry) (file_bytes file.entry) at.which at.fault) }
{
    match accept_file(alloc, comparison.settings, file) {
        Ok(_) => Ok(true),
        Err(fault) => Err(fault_of(Which::First, fault)),
    }
}

fn fault_of(which: Which, fault: Fault) -> SameFault
    ensures which { result.which ≡ which }
    ensures fault { result.fault ≡ fault }
{
    SameFault { which, fault }
}

/// Whether a form is spelled by these bytes.
fn is_spelled(form: &SpelledForm<'_>, bytes: &[u8]) -> bool
    ensures { IsTrue result ↔ (form.now ≡ bytes.now) }
{
    let mut reader = form.reader();
    reader.passes(bytes) && reader.next_up_to(1).is_empty()
}
