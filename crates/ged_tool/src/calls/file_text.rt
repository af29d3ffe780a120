// The bytes of a file, as a text where they are known to be one.
ghost use Rattle.std.specs.Prelude.{◌≡◌, ◌↔◌, IsTrue};
ghost use Rattle.ged_tool.specs.inner.FileTexts.{file_bytes};

/// The bytes of a file. Where they are known to be UTF-8, no call need validate them.
#[derive(Clone, Copy)]
pub(crate) enum FileText<'a> {
    Text(&'a str),
    Bytes(&'a [u8]),
}

impl<'a> FileText<'a> {
    pub(crate) fn bytes(self) -> &'a [u8]
        ensures { result.now ≡ file_bytes self.entry }
    {
        match self {
            FileText::Text(text) => text.as_bytes(),
            FileText::Bytes(bytes) => bytes,
        }
    }
}

/// Whether two files, or parts of them, have the same bytes.
pub(crate) fn are_equal(first: &[u8], second: &[u8]) -> bool
    ensures { IsTrue result ↔ (first.now ≡ second.now) }
{
    first == second
}
