// What a row asks.

/// A call by its name, and the word behind the `/` in it.
#[derive(Clone, Copy)]
pub struct Question<'a> {
    /// What stands before the `/`, or all where there is none.
    pub name: &'a str,
    /// What stands behind it, or nothing.
    pub word: &'a str,
}

impl Question<'_> {
    /// The question that a call of a row asks.
    pub fn of(call: &str) -> Question<'_> {
        let (name, word) = call.split_once('/').unwrap_or((call, ""));
        Question { name, word }
    }
}

/// The two parts of an argument, which the byte 0 parts.
pub fn two_parts(argument: &[u8]) -> (&[u8], &[u8]) {
    let Some(at) = argument.iter().position(|byte| *byte == 0) else {
        return (argument, b"");
    };
    let first = argument.get(..at).unwrap_or(b"");
    let second = argument.get(at.saturating_add(1)..).unwrap_or(b"");
    (first, second)
}
