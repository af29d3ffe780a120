// The calls that grow and explain a fault or a notice. What they are asked about stands at one line, whatever the file has
// there.
use crate::calls::say_memory;
use crate::growths::Marks;
use ged_examples_answers::Answer;
use ged_explain::{Explainer, explain_device, explain_fault, explain_notice};
use ged_link::{Notice, NoticeKind};
use ged_tool::{Fault, FileFault, accept};
use std::alloc::{AllocError, Global};

/// The name of the file in each explanation.
const NAME: &str = "tree.ged";

/// The line that is explained.
const LINE: u64 = 5;

/// A notice at that line.
const NOTICE: Notice = Notice {
    line: LINE,
    kind: NoticeKind::OneWay,
};

/// Makes a call that explains; false where there is none of this name.
pub(crate) fn call_of_explained(
    alloc: Global,
    name: &str,
    file: &[u8],
    marks: &mut Marks,
    answer: &mut Answer,
) -> bool {
    match name {
        "explain_fault" => call_explain_fault(alloc, file, marks, answer),
        "explain_notice" => call_explain_notice(alloc, file, marks, answer),
        "explain_device" => call_explain_device(alloc, marks, answer),
        "Explainer::explain" => call_explainer(alloc, file, marks, answer),
        _ => return false,
    }
    true
}

/// Says what a call gave that answers a text.
fn say_made_text(answer: &mut Answer, made: Result<String, AllocError>) {
    match made {
        Ok(text) => answer.say(text.as_str()),
        Err(_) => say_memory(answer, None),
    }
}

fn call_explain_fault(alloc: Global, file: &[u8], marks: &mut Marks, answer: &mut Answer) {
    let fault = Fault::InFile {
        line: LINE,
        kind: FileFault::BadPayload,
    };
    marks.begin();
    let made = explain_fault(alloc, file, &fault, NAME);
    marks.end();
    say_made_text(answer, made);
}

fn call_explain_notice(alloc: Global, file: &[u8], marks: &mut Marks, answer: &mut Answer) {
    marks.begin();
    let made = explain_notice(alloc, file, &NOTICE, NAME);
    marks.end();
    say_made_text(answer, made);
}

fn call_explainer(alloc: Global, file: &[u8], marks: &mut Marks, answer: &mut Answer) {
    let Ok(accepted) = accept(alloc, file) else {
        say_memory(answer, None);
        return;
    };
    let mut explainer = Explainer::new(file, accepted.flat(), accepted.index());
    marks.begin();
    let made = explainer.explain(alloc, &NOTICE, NAME);
    marks.end();
    say_made_text(answer, made);
}

fn call_explain_device(alloc: Global, marks: &mut Marks, answer: &mut Answer) {
    marks.begin();
    let made = explain_device(alloc, &Fault::ReadFailed, NAME, "No such file");
    marks.end();
    say_made_text(answer, made);
}
