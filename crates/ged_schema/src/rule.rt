// The rows of the structure tables.
use crate::context::Context;
use ged_value::Kind;

/// A row of a context: what the tables ask of the structures with one tag
/// (FamilySearch GEDCOM 7.0, "Structure Organization").
#[derive(Clone, Copy, Debug)]
pub struct Rule {
    /// The tag, a standard one.
    pub tag: &'static str,
    /// The least number of structures with this tag under one superstructure.
    pub least: u32,
    /// The greatest number, where there is one.
    pub most: Option<u32>,
    /// What the payload has to be.
    pub kind: Kind,
    /// The context of the substructures.
    pub below: Context,
}

/// A row for a structure that stands exactly once.
macro_rules! one {
    ($tag:literal, $kind:ident, $below:ident) => {
        Rule {
            tag: $tag,
            least: 1,
            most: Some(1),
            kind: Kind::$kind,
            below: Context::$below,
        }
    };
}

/// A row for a structure that stands once or not at all.
macro_rules! optional {
    ($tag:literal, $kind:ident, $below:ident) => {
        Rule {
            tag: $tag,
            least: 0,
            most: Some(1),
            kind: Kind::$kind,
            below: Context::$below,
        }
    };
}

/// A row for a structure that stands any number of times.
macro_rules! many {
    ($tag:literal, $kind:ident, $below:ident) => {
        Rule {
            tag: $tag,
            least: 0,
            most: None,
            kind: Kind::$kind,
            below: Context::$below,
        }
    };
}

pub(crate) use many;
pub(crate) use one;
pub(crate) use optional;
