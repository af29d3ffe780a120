// The parts of a line, as rows have them: `level=1 xref=I1 tag=NOTE text=x`, where what a line does not have is left out, and
// in place of a text may stand `void` or `pointer=F1`.
use ged_examples_answers::Answer;
use ged_line::{Line, LineFault, LineValue, LineView, Tag, Text, ValueView, Xref};
use std::alloc::{AllocError, Global};

/// Parts that may be a line's.
#[derive(Clone, Copy)]
pub(crate) struct Parts<'a> {
    pub(crate) level: u8,
    pub(crate) xref: Option<&'a str>,
    pub(crate) tag: &'a str,
    pub(crate) value: ValueView<'a>,
}

/// The parts that a text tells.
pub(crate) fn read_parts(text: &str) -> Option<Parts<'_>> {
    let (level, rest) = text.strip_prefix("level=")?.split_once(' ')?;
    let level = level.parse::<u8>().ok()?;
    let (xref, rest) = match rest.strip_prefix("xref=") {
        Some(rest) => {
            let (xref, rest) = rest.split_once(' ')?;
            (Some(xref), rest)
        }
        None => (None, rest),
    };
    let rest = rest.strip_prefix("tag=")?;
    let (tag, value) = match rest.split_once(' ') {
        Some((tag, value)) => (tag, read_value(value)?),
        None => (rest, ValueView::Empty),
    };
    Some(Parts {
        level,
        xref,
        tag,
        value,
    })
}

fn read_value(text: &str) -> Option<ValueView<'_>> {
    if text == "void" {
        return Some(ValueView::Void);
    }
    if let Some(name) = text.strip_prefix("pointer=") {
        return Some(ValueView::Pointer(name));
    }
    Some(ValueView::Text(text.strip_prefix("text=")?))
}

/// The identifier of a name, if there is one; `None` where the name is none of an identifier.
fn read_xref(alloc: Global, name: Option<&str>) -> Result<Option<Option<Xref>>, AllocError> {
    match name {
        Some(name) => Ok(Xref::read(alloc, name)?.map(Some)),
        None => Ok(Some(None)),
    }
}

/// The value that shows as a view; `None` where a pointer's name is none of an identifier.
fn copy_value(alloc: Global, value: ValueView<'_>) -> Result<Option<LineValue>, AllocError> {
    match value {
        ValueView::Empty => Ok(Some(LineValue::Empty)),
        ValueView::Void => Ok(Some(LineValue::Void)),
        ValueView::Pointer(name) => Ok(Xref::read(alloc, name)?.map(LineValue::Pointer)),
        ValueView::Text(text) => Ok(Some(LineValue::Text(Text::from_str(alloc, text)?))),
    }
}

impl Parts<'_> {
    /// The line that is made of copies of the parts; `None` also where a name is none.
    pub(crate) fn into_line(self, alloc: Global) -> Result<Option<Line>, AllocError> {
        let (Some(xref), Some(tag), Some(value)) = (
            read_xref(alloc, self.xref)?,
            Tag::read(alloc, self.tag)?,
            copy_value(alloc, self.value)?,
        ) else {
            return Ok(None);
        };
        Ok(Line::new(self.level, xref, tag, value))
    }
}

fn say_parts(answer: &mut Answer, parts: Parts<'_>) {
    answer.say("level=");
    answer.say_number(u64::from(parts.level));
    if let Some(name) = parts.xref {
        answer.say(" xref=");
        answer.say(name);
    }
    answer.say(" tag=");
    answer.say(parts.tag);
    let (word, text) = match parts.value {
        ValueView::Empty => ("", ""),
        ValueView::Void => (" void", ""),
        ValueView::Pointer(name) => (" pointer=", name),
        ValueView::Text(text) => (" text=", text),
    };
    answer.say(word);
    answer.say(text);
}

/// The parts that a view shows.
pub(crate) fn say_view(answer: &mut Answer, view: &LineView<'_>) {
    let parts = Parts {
        level: view.level(),
        xref: view.xref(),
        tag: view.tag(),
        value: view.value(),
    };
    say_parts(answer, parts);
}

/// The parts that a line shows.
pub(crate) fn say_line(answer: &mut Answer, line: &Line) {
    let value = match line.value() {
        LineValue::Empty => ValueView::Empty,
        LineValue::Void => ValueView::Void,
        LineValue::Pointer(name) => ValueView::Pointer(name.as_str()),
        LineValue::Text(text) => ValueView::Text(text.as_str()),
    };
    let parts = Parts {
        level: line.level(),
        xref: line.xref().map(|name| name.as_str()),
        tag: line.tag().as_str(),
        value,
    };
    say_parts(answer, parts);
}

/// `F 3` is said of an empty line.
pub(crate) fn say_line_fault(answer: &mut Answer, fault: LineFault) {
    answer.say("F ");
    answer.say_number(line_fault_number(fault));
}

/// The number of a fault, from 1 on in the order in which they are told.
pub(crate) fn line_fault_number(fault: LineFault) -> u64 {
    match fault {
        LineFault::NotUtf8 => 1,
        LineFault::BannedCharacter => 2,
        LineFault::EmptyLine => 3,
        LineFault::BadLevel => 4,
        LineFault::LevelTooLarge => 5,
        LineFault::BadXref => 6,
        LineFault::BadTag => 7,
        LineFault::BadValue => 8,
    }
}
