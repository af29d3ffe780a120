// The line at which a fault stands, and what stands around it.
use crate::path::{Path, Step};
use crate::pieces::piece_at;
use ged_line::{view_line, view_lines};
use ged_schema::{Context, Rule, context_below, lookup_name};

/// A line of a file.
#[derive(Clone, Copy)]
pub(crate) struct Site<'p, 'a> {
    pub(crate) bytes: &'a [u8],
    /// Counted from 1.
    pub(crate) line: u64,
    /// The line as it stands, or none behind the last one.
    pub(crate) piece: Option<&'a [u8]>,
    /// The lines up to this one.
    pub(crate) path: &'p Path<'a>,
    /// A record that need not be looked for.
    pub(crate) known: Option<Record<'a>>,
}

/// A record that has an identifier.
#[derive(Clone, Copy)]
pub(crate) struct Record<'a> {
    /// Counted from 1.
    pub(crate) line: u64,
    /// Its identifier, without the two `@`.
    pub(crate) xref: &'a str,
    pub(crate) tag: &'a str,
}

impl<'a> Site<'_, 'a> {
    /// The line, where it is one.
    pub(crate) fn own(&self) -> Option<Step<'a>> {
        match self.path.last() {
            Some(last) if last.line == self.line => Some(last),
            _ => None,
        }
    }

    /// The row that the structure tables have for a line of this path.
    pub(crate) fn rule(&self, own: Step<'a>) -> Option<Rule> {
        lookup_name(self.path.context(own.level), own.tag)
    }

    /// The context of the substructures of a line of this path.
    pub(crate) fn context_below(&self, own: Step<'a>) -> Context {
        context_below(self.rule(own).as_ref())
    }

    /// Whether a CONT comes behind the line, one level deeper.
    pub(crate) fn is_continued(&self, own: Step<'a>) -> bool {
        let Some(piece) = piece_at(self.bytes, self.line.saturating_add(1)) else {
            return false;
        };
        match view_line(piece) {
            Ok(next) => next.tag() == "CONT" && next.level() > own.level,
            Err(_) => false,
        }
    }

    /// Whether the file ends within the line, and does not begin with it: no line end stands behind it, nor another line.
    pub(crate) fn ends_file(&self) -> bool {
        if self.line < 2 || piece_at(self.bytes, self.line.saturating_add(1)).is_some() {
            return false;
        }
        match self.bytes {
            [.., last] => *last != b'\n' && *last != b'\r',
            [] => false,
        }
    }

    /// The number of the first line that stands below the same superstructure as this one and has the same tag.
    pub(crate) fn first_sibling(&self, own: Step<'a>) -> u64 {
        let mut first = 0u64;
        let mut number = 0u64;
        for spelled in view_lines(self.bytes) {
            number = number.saturating_add(1);
            if number >= self.line {
                break;
            }
            if let Ok(spelled) = spelled {
                let level = spelled.line.level();
                if level < own.level {
                    first = 0;
                } else if first == 0 && level == own.level && spelled.line.tag() == own.tag {
                    first = number;
                }
            }
        }
        first
    }

    /// Whether a structure with a tag stands below the line, one level deeper.
    pub(crate) fn has_below(&self, own: Step<'a>, tag: &str) -> bool {
        let mut number = 0u64;
        for spelled in view_lines(self.bytes) {
            number = number.saturating_add(1);
            if number <= self.line {
                continue;
            }
            if let Ok(spelled) = spelled {
                let level = spelled.line.level();
                if level <= own.level {
                    return false;
                }
                if level - 1 == own.level && spelled.line.tag() == tag {
                    return true;
                }
            }
        }
        false
    }

    /// The first record that has an identifier of this name.
    pub(crate) fn record_named(&self, name: &str) -> Option<Record<'a>> {
        match self.known {
            Some(record) if record.xref == name => Some(record),
            _ => record_in(self.bytes, name),
        }
    }
}

/// The first record of a file that has an identifier of this name.
fn record_in<'a>(bytes: &'a [u8], name: &str) -> Option<Record<'a>> {
    let mut line = 0u64;
    for spelled in view_lines(bytes) {
        line = line.saturating_add(1);
        if let Ok(spelled) = spelled {
            if let Some(xref) = spelled.line.xref() {
                if xref == name {
                    let tag = spelled.line.tag();
                    return Some(Record { line, xref, tag });
                }
            }
        }
    }
    None
}
