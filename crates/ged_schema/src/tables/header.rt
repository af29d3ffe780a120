// The rows of a file and of what stands below its HEAD.
use crate::context::Context;
use crate::rule::{Rule, many, one, optional};
use ged_value::Kind;

pub(crate) static FILE: [Rule; 8] = [
    one!("HEAD", Nothing, Head),
    many!("FAM", Nothing, Fam),
    many!("INDI", Nothing, Indi),
    many!("OBJE", Free, Unchecked),
    many!("REPO", Free, Unchecked),
    many!("SNOTE", Free, Unchecked),
    many!("SOUR", Free, Unchecked),
    many!("SUBM", Free, Unchecked),
];

pub(crate) static HEAD: [Rule; 11] = [
    one!("GEDC", Nothing, Gedc),
    optional!("SCHMA", Nothing, Schma),
    optional!("SOUR", Text, HeadSour),
    optional!("DEST", Text, Leaf),
    optional!("DATE", DateExact, DateTime),
    optional!("SUBM", ToSubm, Leaf),
    optional!("COPR", Text, Leaf),
    optional!("LANG", Text, Leaf),
    optional!("PLAC", Nothing, HeadPlac),
    optional!("NOTE", Text, Note),
    optional!("SNOTE", ToSnote, Leaf),
];

pub(crate) static GEDC: [Rule; 1] = [one!("VERS", Version, Leaf)];

pub(crate) static SCHMA: [Rule; 1] = [many!("TAG", Text, Leaf)];

pub(crate) static HEAD_SOUR: [Rule; 4] = [
    optional!("VERS", Text, Leaf),
    optional!("NAME", Text, Leaf),
    optional!("CORP", Text, Unchecked),
    optional!("DATA", Text, HeadData),
];

pub(crate) static HEAD_DATA: [Rule; 2] = [
    optional!("DATE", DateExact, DateTime),
    optional!("COPR", Text, Leaf),
];

pub(crate) static HEAD_PLAC: [Rule; 1] = [one!("FORM", Text, Leaf)];

pub(crate) static DATE_TIME: [Rule; 1] = [optional!("TIME", Time, Leaf)];
