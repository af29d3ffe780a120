// A text that contracts see as its bytes.
ghost use Rattle.std.specs.Prelude.{◌≡◌, IfOk, string_bytes};
ghost use Rattle.std.proofs.Common.{rules};
ghost use Rattle.std.specs.Cmp.Rules.{comparing};
ghost use Rattle.std.specs.Str.{bytes_eq};

use std::alloc::{AllocError, Global};
use std::marker::Model;

/// A `String` that is compared and seen as its text alone, whatever room it has.
#[derive(Debug, Drop)]
pub struct Text {
    string: String,
}

impl Model for Text {
    ghost use Rattle.std.specs.Prelude.{string_bytes};
    ghost use Rattle.ged_line.specs.Bytes.{Bytes};

    ghost Value = { Bytes };

    ghost view = { λ t. string_bytes t.string };
}

impl Text {
    /// The text of a `String`. Takes no memory.
    pub fn from_string(string: String) -> Text
        ensures { result ≡ string_bytes string }
    {
        Text { string }
    }

    /// The `String` of the text. Takes no memory.
    pub fn into_string(self) -> String
        ensures { string_bytes result ≡ self }
    {
        let Text { string } = self;
        string
    }

    /// A copy of a text. Grows.
    pub fn from_str(alloc: Global, text: &str) -> Result<Text, AllocError>
        ensures { IfOk result (λ copy. copy ≡ text.now) }
    {
        Ok(Text {
            string: String::from_str(alloc, text)?,
        })
    }

    /// The text as a slice. Takes no memory.
    pub fn as_str(&self) -> &str
        ensures { result.now ≡ self.now }
    {
        self.string.as_str()
    }

    /// A copy of the text. Grows.
    pub fn copy(&self, alloc: Global) -> Result<Text, AllocError>
        ensures { IfOk result (λ copy. copy ≡ self.now) }
    {
        Text::from_str(alloc, self.as_str())
    }
}

impl PartialEq for Text {
    ghost eq = { bytes_eq };

    ghost laws = { Prim.search (comparing, rules) };

    fn eq(&self, other: &Text) -> bool {
        self.as_str() == other.as_str()
    }
}

impl Eq for Text {
    ghost laws = { Prim.search (comparing, rules) };
}
