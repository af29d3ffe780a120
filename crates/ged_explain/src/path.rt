// The structures above a line.
use crate::explanation::Explanation;
use ged_line::{LineView, LineViews, ValueView, view_lines};
use ged_schema::{Context, context_below, lookup_name};

/// More columns of a tag, of an identifier or of a value are not told.
pub(crate) const NAME_COLUMNS: usize = 60;

/// A line that is one, as slices of its file.
#[derive(Clone, Copy)]
pub(crate) struct Step<'a> {
    /// Counted from 1.
    pub(crate) line: u64,
    pub(crate) level: u8,
    pub(crate) xref: Option<&'a str>,
    pub(crate) tag: &'a str,
    pub(crate) value: ValueView<'a>,
}

impl<'a> Step<'a> {
    pub(crate) fn of(line: u64, view: &LineView<'a>) -> Step<'a> {
        Step {
            line,
            level: view.level(),
            xref: view.xref(),
            tag: view.tag(),
            value: view.value(),
        }
    }

    /// The name of the record at which the line points.
    pub(crate) fn pointer(&self) -> Option<&'a str> {
        match self.value {
            ValueView::Pointer(name) => Some(name),
            _ => None,
        }
    }
}

/// The last line of each level up to a line.
#[derive(Drop)]
pub(crate) struct Path<'a> {
    steps: [Option<Step<'a>>; 100],
    last: Option<Step<'a>>,
    before: Option<Step<'a>>,
}

/// The lines of a file up to one: for a line behind the last that was asked for it reads on from there.
#[derive(Drop)]
pub(crate) struct Walk<'a> {
    bytes: &'a [u8],
    /// Those behind the lines that were read.
    lines: LineViews<'a>,
    /// How many were read.
    number: u64,
    path: Path<'a>,
}

impl<'a> Walk<'a> {
    pub(crate) fn new(bytes: &'a [u8]) -> Walk<'a> {
        Walk {
            bytes,
            lines: view_lines(bytes),
            number: 0,
            path: Path::new(),
        }
    }

    /// Reads up to a line, which is counted from 1.
    pub(crate) fn go_to(&mut self, line: u64) {
        if line <= self.number {
            *self = Walk::new(self.bytes);
        }
        while let Some(spelled) = self.lines.next() {
            self.number = self.number.saturating_add(1);
            if let Ok(spelled) = spelled {
                self.path.take(Step::of(self.number, &spelled.line));
            }
            if self.number >= line {
                break;
            }
        }
    }

    /// The lines up to the one that was asked for last.
    pub(crate) fn path(&self) -> &Path<'a> {
        &self.path
    }
}

impl<'a> Path<'a> {
    fn new() -> Path<'a> {
        Path {
            steps: [None; 100],
            last: None,
            before: None,
        }
    }

    fn take(&mut self, step: Step<'a>) {
        if let Some(slot) = self.steps.get_mut(usize::from(step.level)) {
            *slot = Some(step);
        }
        self.before = self.last;
        self.last = Some(step);
    }

    /// The last line that is one.
    pub(crate) fn last(&self) -> Option<Step<'a>> {
        self.last
    }

    /// The line before the last one.
    pub(crate) fn before(&self) -> Option<Step<'a>> {
        self.before
    }

    /// The last line of level 0.
    pub(crate) fn record(&self) -> Option<Step<'a>> {
        self.steps.first().copied().flatten()
    }

    /// The nearest line above whose level is one less.
    pub(crate) fn superstructure(&self, level: u8) -> Option<Step<'a>> {
        let above = level.checked_sub(1)?;
        self.steps.get(usize::from(above)).copied().flatten()
    }

    /// The context of the structures with a level, where each line up to here has its superstructure.
    pub(crate) fn context(&self, level: u8) -> Context {
        let mut context = Context::File;
        for step in self.steps.iter().take(usize::from(level)) {
            let tag = match step {
                Some(step) => step.tag,
                None => "",
            };
            context = context_below(lookup_name(context, tag).as_ref());
        }
        context
    }

    /// Says the lines from level 0 down to a level: of each the tag and the identifier. A line of a lower level that stands
    /// further down ends what is below one, so that it is left out.
    pub(crate) fn say(&self, level: u8, told: &mut Explanation) {
        let mut line = 0u64;
        for step in self.steps.iter().take(usize::from(level).saturating_add(1)) {
            if let Some(step) = step {
                if step.line > line {
                    say_step(*step, line > 0, told);
                    line = step.line;
                }
            }
        }
    }
}

fn say_step(step: Step<'_>, is_below: bool, told: &mut Explanation) {
    if is_below {
        told.say(" > ");
    }
    told.say_clipped(step.tag.as_bytes(), NAME_COLUMNS);
    if let Some(xref) = step.xref {
        told.say(" ");
        say_identifier(xref, told);
    }
}

/// Says an identifier with its two `@`.
pub(crate) fn say_identifier(name: &str, told: &mut Explanation) {
    told.say("@");
    told.say_clipped(name.as_bytes(), NAME_COLUMNS);
    told.say("@");
}
