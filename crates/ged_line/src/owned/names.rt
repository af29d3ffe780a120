// Tags and cross-reference identifiers that own their text.
ghost use Rattle.std.specs.Prelude.{◌≡◌, ◌<◌, IfOk, MatchOption, true, false};
ghost use Rattle.std.proofs.Common.{rules};
ghost use Rattle.std.specs.Cmp.Rules.{comparing};
ghost use Rattle.std.specs.Str.{bytes_eq};
ghost use Rattle.ged_line.specs.Names.{is_tag as tests_tag, is_xref as tests_xref, tag_order as order_of_tags};

use crate::line::names::{is_tag, is_xref, tag_order};
use std::alloc::{AllocError, Global};
use std::cmp::Ordering;
use std::marker::Model;

/// A tag, standard or of an extension, seen as its bytes (FamilySearch GEDCOM 7.0, "Lines").
#[derive(Debug, Drop)]
pub struct Tag {
    text: String,
}

impl Model for Tag {
    ghost use Rattle.std.specs.Prelude.{◌≡◌, true, string_bytes};
    ghost use Rattle.ged_line.specs.Bytes.{Bytes};
    ghost use Rattle.ged_line.specs.Names.{is_tag};

    ghost Value = { Bytes };

    ghost view = { λ t. string_bytes t.text };

    ghost invariant = { λ t. is_tag (string_bytes t.text) ≡ true };
}

impl Tag {
    /// The tag that a text is, or `None` where it is none. Grows, for a tag.
    pub fn read(alloc: Global, text: &str) -> Result<Option<Tag>, AllocError>
        ensures { IfOk result (λ read. MatchOption read (tests_tag text.now ≡ false)
            (λ tag. (tag ≡ text.now) × (tests_tag text.now ≡ true))) }
    {
        if !is_tag(text) {
            return Ok(None);
        }
        Ok(Some(Tag::of_name(alloc, text)?))
    }

    /// A copy of a text that is known to be a tag. Grows.
    pub(crate) fn of_name(alloc: Global, text: &str) -> Result<Tag, AllocError>
        requires { tests_tag text.now ≡ true }
        ensures { IfOk result (λ copy. copy ≡ text.now) }
    {
        let text = String::from_str(alloc, text)?;
        Ok(Tag { text })
    }

    /// The bytes of the tag as a text. Takes no memory.
    pub fn as_str(&self) -> &str
        ensures text { result.now ≡ self.now }
        ensures tag { tests_tag result.now ≡ true }
    {
        self.text.as_str()
    }

    /// A copy of the tag. Grows.
    pub fn copy(&self, alloc: Global) -> Result<Tag, AllocError>
        ensures { IfOk result (λ copy. copy ≡ self.now) }
    {
        Tag::of_name(alloc, self.as_str())
    }

    /// The order of structures in the canonical form: GEDC before every other tag, then by bytes. Takes no memory.
    pub fn order(&self, other: &Tag) -> Ordering
        ensures { result ≡ order_of_tags self.now other.now }
    {
        tag_order(self.as_str(), other.as_str())
    }
}

impl PartialEq for Tag {
    ghost eq = { bytes_eq };

    ghost laws = { Prim.search (comparing, rules) };

    fn eq(&self, other: &Tag) -> bool {
        self.as_str() == other.as_str()
    }
}

impl Eq for Tag {
    ghost laws = { Prim.search (comparing, rules) };
}

/// The name of a cross-reference identifier, without its `@`, seen as its bytes (FamilySearch GEDCOM 7.0, "Lines").
#[derive(Debug, Drop)]
pub struct Xref {
    name: String,
}

impl Model for Xref {
    ghost use Rattle.std.specs.Prelude.{◌≡◌, true, string_bytes};
    ghost use Rattle.ged_line.specs.Bytes.{Bytes};
    ghost use Rattle.ged_line.specs.Names.{is_xref};

    ghost Value = { Bytes };

    ghost view = { λ x. string_bytes x.name };

    ghost invariant = { λ x. is_xref (string_bytes x.name) ≡ true };
}

impl Xref {
    /// The identifier of a name, or `None` where the text has no tag characters, another character or is `VOID`.
    /// Grows, for an identifier.
    pub fn read(alloc: Global, text: &str) -> Result<Option<Xref>, AllocError>
        ensures { IfOk result (λ read. MatchOption read (tests_xref text.now ≡ false)
            (λ xref. (xref ≡ text.now) × (tests_xref text.now ≡ true))) }
    {
        if !is_xref(text) {
            return Ok(None);
        }
        Ok(Some(Xref::of_name(alloc, text)?))
    }

    /// A copy of a text that is known to be an identifier. Grows.
    pub(crate) fn of_name(alloc: Global, text: &str) -> Result<Xref, AllocError>
        requires { tests_xref text.now ≡ true }
        ensures { IfOk result (λ copy. copy ≡ text.now) }
    {
        let name = String::from_str(alloc, text)?;
        Ok(Xref { name })
    }

    /// The identifier, without its `@`. Takes no memory.
    pub fn as_str(&self) -> &str
        ensures text { result.now ≡ self.now }
        ensures xref { tests_xref result.now ≡ true }
    {
        self.name.as_str()
    }

    /// A copy of the identifier. Grows.
    pub fn copy(&self, alloc: Global) -> Result<Xref, AllocError>
        ensures { IfOk result (λ copy. copy ≡ self.now) }
    {
        Xref::of_name(alloc, self.as_str())
    }
}

impl PartialEq for Xref {
    ghost eq = { bytes_eq };

    ghost laws = { Prim.search (comparing, rules) };

    fn eq(&self, other: &Xref) -> bool {
        self.as_str() == other.as_str()
    }
}

impl Eq for Xref {
    ghost laws = { Prim.search (comparing, rules) };
}
