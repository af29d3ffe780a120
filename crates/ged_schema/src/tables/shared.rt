// The rows of what stands below several structures.
use crate::context::Context;
use crate::rule::{Rule, many, one, optional};
use ged_value::Kind;

pub(crate) static DATE_MORE: [Rule; 2] = [
    optional!("TIME", Time, Leaf),
    optional!("PHRASE", Text, Leaf),
];

pub(crate) static PHRASE: [Rule; 1] = [optional!("PHRASE", Text, Leaf)];

pub(crate) static TYPED: [Rule; 1] = [optional!("TYPE", Text, Leaf)];

pub(crate) static NOTES: [Rule; 2] = [many!("NOTE", Text, Note), many!("SNOTE", ToSnote, Leaf)];

pub(crate) static NON_EVENT: [Rule; 4] = [
    optional!("DATE", DatePeriod, Phrase),
    many!("NOTE", Text, Note),
    many!("SNOTE", ToSnote, Leaf),
    many!("SOUR", ToSour, Cite),
];

pub(crate) static CHAN: [Rule; 3] = [
    one!("DATE", DateExact, DateTime),
    many!("NOTE", Text, Note),
    many!("SNOTE", ToSnote, Leaf),
];

pub(crate) static CREA: [Rule; 1] = [one!("DATE", DateExact, DateTime)];

pub(crate) static ASSO: [Rule; 5] = [
    optional!("PHRASE", Text, Leaf),
    one!("ROLE", EnumAny, Phrase),
    many!("NOTE", Text, Note),
    many!("SNOTE", ToSnote, Leaf),
    many!("SOUR", ToSour, Cite),
];

pub(crate) static CITE: [Rule; 7] = [
    optional!("PAGE", Text, Leaf),
    optional!("DATA", Nothing, CiteData),
    optional!("EVEN", EnumAny, Unchecked),
    optional!("QUAY", EnumAny, Leaf),
    many!("NOTE", Text, Note),
    many!("SNOTE", ToSnote, Leaf),
    many!("OBJE", ToObje, Unchecked),
];

pub(crate) static CITE_DATA: [Rule; 2] = [
    optional!("DATE", DateValue, DateMore),
    many!("TEXT", Text, Unchecked),
];

pub(crate) static NOTE: [Rule; 4] = [
    optional!("MIME", Text, Leaf),
    optional!("LANG", Text, Leaf),
    many!("TRAN", Text, Unchecked),
    many!("SOUR", ToSour, Cite),
];

/// No rows. A table of its own, so that the rows of each context are a constant.
pub(crate) static NOTHING: [Rule; 0] = [];
