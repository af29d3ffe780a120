// Faults and notices in words, behind the line of a fault and the answer of check.
ghost use Rattle.std.specs.Prelude.{◌≡◌, ◌≢◌, ◌++◌, [], Some, codes, decimal, string_bytes, true, false, option_map, IfErr, IfOk};
ghost use Rattle.std.specs.Io.KnownBytes.{Keeps};
ghost use Rattle.ged_faults.specs.Faults.{status_of};
ghost use Rattle.ged_cmd.specs.Streams.{writer as writer_of};
ghost use Rattle.ged_cmd.specs.Telling.{Tells, may_follow};
ghost use Rattle.ged_cmd.specs.inner.Names.{IsHarmless, shown_text};
ghost use Rattle.ged_cmd.specs.inner.Told.{Explains, Wrote, WroteExplanation, WroteSome};
ghost use Rattle.ged_cmd.specs.inner.Tasks.{file_with_fault, file_written, name_or, task_of};

use crate::names::{input_name, output_name, shown_name};
use crate::tells::finish;
use crate::words::Request;
use ged_devices::{Output, Sink};
use ged_explain::{Explainer, explain_device, explain_fault};
use ged_tool::{Accepted, Command, Fault, Outcome, Settings, Told, Which, accept_as, notices};
use std::alloc::{AllocError, Global};
use std::fmt;
use std::fmt::{Display, Formatter};
use std::io::Write;

/// The most notices that are explained, so that they can be read. How many are left out is told.
const MOST: usize = 100;

/// Tells the outcome's fault, if it has one, and explains it, or the notices of `check`, where that is asked for; gives the
/// outcome's status. An explanation for which no memory is found, or that can't be written, is left out.
pub(crate) fn finish_told<E: Write>(
    alloc: Global,
    request: Request<'_>,
    explains: bool,
    told: &Told,
    reason: &str,
    errors: &mut Output<E>,
) -> u8
    ensures status { result ≡ status_of told.now.outcome }
    ensures told { Tells explains (task_of request.entry) told.now.outcome
        (writer_of ⟦<Output<E> as Sink>⟧.taken ⟦<Output<E> as Sink>⟧.failed errors.old errors.new) }
    ensures quiet { result ≡ 0 → explains ≡ false → Keeps (⟦<Output<E> as Sink>⟧.taken errors.old) (⟦<Output<E> as Sink>⟧.taken errors.new) }
    ensures different { told.now.outcome ≡ Outcome.Different → explains ≡ false
        → Keeps (⟦<Output<E> as Sink>⟧.taken errors.old) (⟦<Output<E> as Sink>⟧.taken errors.new) }
{
    let status = finish(&told.outcome, errors);
    if explains {
        explain(alloc, request, told, reason, errors);
    }
    status
}

/// Explains the outcome's fault, or the notices of `check`.
#[tactic(auto, using(crate::proofs::ToldLemmas::nothing))]
fn explain<E: Write>(
    alloc: Global,
    request: Request<'_>,
    told: &Told,
    reason: &str,
    errors: &mut Output<E>,
)
    ensures some { WroteSome (⟦<Output<E> as Sink>⟧.failed errors.old)
        (writer_of ⟦<Output<E> as Sink>⟧.taken ⟦<Output<E> as Sink>⟧.failed errors.old errors.new) }
    ensures fault { WroteExplanation (⟦<Output<E> as Sink>⟧.failed errors.old)
        (writer_of ⟦<Output<E> as Sink>⟧.taken ⟦<Output<E> as Sink>⟧.failed errors.old errors.new) (task_of request.entry)
        told.now.bytes.items reason.now told.now.outcome }
    ensures none { may_follow true (task_of request.entry) told.now.outcome ≡ false → Wrote (⟦<Output<E> as Sink>⟧.failed errors.old)
        (writer_of ⟦<Output<E> as Sink>⟧.taken ⟦<Output<E> as Sink>⟧.failed errors.old errors.new) [] }
{
    match told.outcome {
        Outcome::Failed { which, fault } => {
            let name = name_of(request, which, fault);
            write_text(text_of(alloc, &told.bytes, fault, name, reason), errors);
        }
        Outcome::Done => explain_done(alloc, request, &told.bytes, errors),
        Outcome::Different => {}
    }
}

/// A fault in words: one of a device with the system's reason.
pub(crate) fn text_of(
    alloc: Global,
    bytes: &[u8],
    fault: Fault,
    name: &str,
    reason: &str,
) -> Result<String, AllocError>
    ensures { IfOk result (λ text. Explains (shown_text name.now) bytes.now fault reason.now (string_bytes text)) }
{
    let shown = shown_name(alloc, name)?;
    match fault {
        Fault::ReadFailed | Fault::WriteFailed => {
            explain_device(alloc, &fault, shown.as_str(), reason)
        }
        _ => explain_fault(alloc, bytes, &fault, shown.as_str()),
    }
}

/// The name of the file of which a fault is told, or of the stream.
fn name_of<'a>(request: Request<'a>, which: Option<Which>, fault: Fault) -> &'a str
    ensures written { fault ≡ Fault.WriteFailed → result.now ≡ name_or (file_written (task_of request.entry)) (codes "standard output") }
    ensures read { fault ≢ Fault.WriteFailed
        → result.now ≡ name_or (file_with_fault (task_of request.entry) which) (codes "standard input") }
{
    if fault == Fault::WriteFailed {
        return output_name(into_of(request));
    }
    input_name(file_of(request, which))
}

/// The name of the file that the answer goes into.
fn into_of<'a>(request: Request<'a>) -> Option<&'a str>
    ensures { option_map (λ name. name.now) result ≡ file_written (task_of request.entry) }
{
    match request {
        Request::Run {
            command: _,
            settings: _,
            file: _,
            into,
        } => into,
        _ => None,
    }
}

/// The name of the file with the fault, which is the first of two if none is named.
fn file_of<'a>(request: Request<'a>, which: Option<Which>) -> Option<&'a str>
    ensures { option_map (λ name. name.now) result ≡ file_with_fault (task_of request.entry) which }
{
    match request {
        Request::Run {
            command: _,
            settings: _,
            file,
            into: _,
        } => file,
        Request::Same {
            comparison: _,
            first,
            second,
        } => match which {
            Some(Which::Second) => second,
            _ => Some(first),
        },
        Request::SameInput {
            comparison: _,
            second,
        } => match which {
            Some(Which::Second) => Some(second),
            _ => None,
        },
        Request::Explain { meaning: _ } => None,
    }
}

/// Explains the notices of a file that `check` has accepted.
#[tactic(auto, using(crate::proofs::ToldLemmas::nothing))]
fn explain_done<E: Write>(alloc: Global, request: Request<'_>, bytes: &[u8], errors: &mut Output<E>)
    ensures some { WroteSome (⟦<Output<E> as Sink>⟧.failed errors.old)
        (writer_of ⟦<Output<E> as Sink>⟧.taken ⟦<Output<E> as Sink>⟧.failed errors.old errors.new) }
    ensures none { may_follow true (task_of request.entry) Outcome.Done ≡ false → Wrote (⟦<Output<E> as Sink>⟧.failed errors.old)
        (writer_of ⟦<Output<E> as Sink>⟧.taken ⟦<Output<E> as Sink>⟧.failed errors.old errors.new) [] }
{
    if let Request::Run {
        command: Command::Check,
        settings,
        file,
        into: _,
    } = request
    {
        if let Ok(shown) = shown_name(alloc, input_name(file)) {
            explain_notices(alloc, settings, bytes, shown.as_str(), errors);
        }
    }
}

/// Explains the first notices of an accepted file. It is judged once more for that, since a run keeps of a file only its bytes.
#[tactic(auto, using(crate::proofs::ToldLemmas::nothing))]
fn explain_notices<E: Write>(
    alloc: Global,
    settings: Settings,
    bytes: &[u8],
    name: &str,
    errors: &mut Output<E>,
)
    requires { IsHarmless name.now }
    ensures { WroteSome (⟦<Output<E> as Sink>⟧.failed errors.old)
        (writer_of ⟦<Output<E> as Sink>⟧.taken ⟦<Output<E> as Sink>⟧.failed errors.old errors.new) }
{
    if let Ok(accepted) = accept_as(alloc, settings, bytes) {
        explain_accepted(alloc, &accepted, bytes, name, errors);
    }
}

/// Explains the first notices of a file that was judged.
#[tactic(auto, using(crate::proofs::ToldLemmas::nothing))]
fn explain_accepted<E: Write>(
    alloc: Global,
    accepted: &Accepted<'_>,
    bytes: &[u8],
    name: &str,
    errors: &mut Output<E>,
)
    requires { IsHarmless name.now }
    ensures { WroteSome (⟦<Output<E> as Sink>⟧.failed errors.old)
        (writer_of ⟦<Output<E> as Sink>⟧.taken ⟦<Output<E> as Sink>⟧.failed errors.old errors.new) }
{
    let Ok(found) = notices(alloc, accepted) else {
        return;
    };
    let mut explainer = Explainer::new(bytes, accepted.flat(), accepted.index());
    for notice in found.as_slice().iter().take(MOST) {
        write_text(explainer.explain(alloc, notice, name), errors);
    }
    tell_more(found.len().saturating_sub(MOST), errors);
}

/// Tells how many more notices there are, if there are any.
#[tactic(auto, using(crate::proofs::ToldLemmas::nothing))]
fn tell_more<E: Write>(more: usize, errors: &mut Output<E>)
    ensures { WroteSome (⟦<Output<E> as Sink>⟧.failed errors.old)
        (writer_of ⟦<Output<E> as Sink>⟧.taken ⟦<Output<E> as Sink>⟧.failed errors.old errors.new) }
{
    // a line that can't be written changes no status
    let _ = match more {
        0 => Ok(()),
        1 => errors.print("1 more notice is not explained\n"),
        _ => errors.print(MoreNotices { count: more }),
    };
}

/// How many notices are not explained.
#[derive(Clone, Copy)]
struct MoreNotices {
    count: usize,
}

impl Display for MoreNotices {
    ghost output = { λ more. Some (decimal more.count ++ codes " more notices are not explained\n") };

    fn fmt<W: fmt::Write>(&self, f: &mut Formatter<W>) -> fmt::Result {
        writeln!(f, "{} more notices are not explained", self.count)
    }
}

/// Writes a text, if there is one. One that can't be written changes no status.
#[tactic(auto, using(crate::proofs::ToldLemmas::nothing))]
pub(crate) fn write_text<E: Write>(text: Result<String, AllocError>, errors: &mut Output<E>)
    ensures text { IfOk text (λ text. Wrote (⟦<Output<E> as Sink>⟧.failed errors.old)
        (writer_of ⟦<Output<E> as Sink>⟧.taken ⟦<Output<E> as Sink>⟧.failed errors.old errors.new) (string_bytes text)) }
    ensures none { IfErr text (λ _. Wrote (⟦<Output<E> as Sink>⟧.failed errors.old)
        (writer_of ⟦<Output<E> as Sink>⟧.taken ⟦<Output<E> as Sink>⟧.failed errors.old errors.new) []) }
    ensures some { WroteSome (⟦<Output<E> as Sink>⟧.failed errors.old)
        (writer_of ⟦<Output<E> as Sink>⟧.taken ⟦<Output<E> as Sink>⟧.failed errors.old errors.new) }
{
    if let Ok(text) = text {
        let _ = errors.print(text.as_str());
    }
}
