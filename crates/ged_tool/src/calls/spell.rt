// The form of a file in slices of it.
ghost use Rattle.std.specs.Prelude.{◌≡◌, IfOk, IfErr, MatchResult, alloc_error};
ghost use Rattle.ged_tool.specs.Settings.{profile_of, edition_of};
ghost use Rattle.ged_accept.specs.Accepted.{FileFaultAt, IsRefusal};
ghost use Rattle.ged_tool.specs.Same.{IsInForm};
ghost use Rattle.ged_tool.specs.inner.FileTexts.{file_bytes};
ghost use Rattle.ged_tool.specs.inner.Forms.{IsFormOf};

use crate::calls::accept::accept_file;
use crate::calls::file_text::FileText;
use crate::calls::made::made_or_memory;
use crate::comparison::Form;
use crate::settings::Settings;
use ged_accept::Accepted;
use ged_canon::{Edition, SpelledForm, spell_canonical_in, spell_tidy_in};
use ged_faults::Fault;
use std::alloc::Global;

/// A file that is accepted under the profile of the settings, in a form and in their edition, or why it is not accepted. What
/// stands in the file as the form has it is not copied. Grows.
pub(crate) fn spell_form(
    alloc: Global,
    settings: Settings,
    form: Form,
    file: FileText<'_>,
) -> Result<SpelledForm<'_>, Fault>
    ensures { MatchResult result
        (λ text. IsInForm form (profile_of settings) (edition_of settings) (file_bytes file.entry) text)
        (IsRefusal (FileFaultAt (profile_of settings) (file_bytes file.entry))) }
{
    match accept_file(alloc, settings, file) {
        Ok(accepted) => spell_accepted(alloc, settings.edition, form, &accepted),
        Err(fault) => Err(fault),
    }
}

/// An accepted document in a form, of which slices of its file are not copied.
fn spell_accepted<'f>(
    alloc: Global,
    edition: Edition,
    form: Form,
    accepted: &Accepted<'f>,
) -> Result<SpelledForm<'f>, Fault>
    ensures form { IfOk result (IsFormOf form edition accepted.now) }
    ensures memory { IfErr result (λ fault. fault ≡ Fault.Memory alloc_error) }
{
    let (flat, index) = (accepted.flat(), accepted.index());
    let lines = flat.bare_lines();
    made_or_memory(match form {
        Form::Canonical => spell_canonical_in(alloc, edition, flat, index, lines),
        Form::Tidy => spell_tidy_in(alloc, edition, flat, index, lines),
    })
}

/// The same as [`spell_form`] answers, in one vector.
pub(crate) fn bytes_in_form(
    alloc: Global,
    settings: Settings,
    form: Form,
    bytes: &[u8],
) -> Result<Vec<u8>, Fault>
    ensures { MatchResult result
        (λ text. IsInForm form (profile_of settings) (edition_of settings) bytes.now text.items)
        (IsRefusal (FileFaultAt (profile_of settings) bytes.now)) }
{
    match spell_form(alloc, settings, form, FileText::Bytes(bytes)) {
        Ok(spelled) => made_or_memory(spelled.into_bytes(alloc)),
        Err(fault) => Err(fault),
    }
}
