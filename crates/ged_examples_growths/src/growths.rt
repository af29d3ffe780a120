// Calls that grow, each between two marks on standard error, so that whoever runs the program can count a call's growths
// and refuse one of them.
//
// The program is run with the words `--growths CALL FILE..`. For each file it makes the call with its first growth
// refused, then with its second, and so on until it answers as usual; and after each once more with memory. It asks for
// a refusal by the mark `refuse growth N`, and ends the call by `growths end`, each a line of its own. Between them it
// takes no memory but the call's. Behind them it tells how the call answered:
// `memory`, `memory first` or `memory second` for a want of memory, `usual` for the answer that it gives with memory, or `other`. Nothing is refused where nobody heeds the marks.
use crate::calls::{MEMORY_WORDS, is_of_lines, make_call};
use ged_examples_answers::Answer;
use ged_line::split_pieces;
use std::alloc::Global;
use std::io;
use std::io::{Cursor, Stderr, Write};

/// Which growth of a call is to be refused.
#[derive(Clone, Copy)]
pub(crate) enum Refused {
    None,
    One(u32),
    Each,
}

/// Standard error, as the place of the marks. It remembers the first error, behind which nothing is marked.
#[derive(Drop)]
pub struct Marks {
    errors: Stderr,
    refused: Refused,
    written: io::Result<()>,
}

impl Marks {
    /// No mark is written yet, and no growth is to be refused.
    pub fn new(errors: Stderr) -> Marks {
        Marks {
            errors,
            refused: Refused::None,
            written: Ok(()),
        }
    }

    /// The error, if there was one.
    pub fn finish(self) -> io::Result<()> {
        self.written
    }

    fn tell_bytes(&mut self, line: &[u8]) {
        if self.written.is_ok() {
            self.written = self.errors.write_all(line);
        }
    }

    fn tell(&mut self, line: &str) {
        self.tell_bytes(line.as_bytes());
    }

    /// Says that the call begins. Takes no memory.
    pub(crate) fn begin(&mut self) {
        match self.refused {
            Refused::None => self.tell("refuse growth 0\n"),
            Refused::One(number) => self.refuse(number),
            Refused::Each => self.tell("refuse growths\n"),
        }
    }

    /// Says that the call is over. Takes no memory.
    pub(crate) fn end(&mut self) {
        self.tell("growths end\n");
    }

    /// Asks for the refusal of a growth, by one write. Takes no memory.
    fn refuse(&mut self, number: u32) {
        let mut line = Cursor::new([0u8; 40]);
        if writeln!(line, "refuse growth {number}").is_ok() {
            let length = line.position() as usize;
            self.tell_bytes(&line.get_ref()[..length.min(40)]);
        }
    }
}

/// The most growths that a call may make, so that one without end is told.
const MOST: u32 = 5000;

/// What a call is, and what it is made on.
#[derive(Clone, Copy)]
struct Call<'a> {
    name: &'a str,
    bytes: &'a [u8],
}

/// What a call answers. It fails the marks where there is no such call, or memory was wanting outside the call.
fn made(alloc: Global, call: Call<'_>, marks: &mut Marks) -> Answer {
    let mut answer = Answer::new(alloc);
    if !make_call(alloc, call.name, call.bytes, marks, &mut answer) {
        marks.written = Err(io::Error::from(io::ErrorKind::InvalidInput));
    }
    if answer.lacks_memory() {
        marks.written = Err(io::Error::from(io::ErrorKind::OutOfMemory));
    }
    answer
}

/// The word for want of memory that a call answered, as a line.
fn memory_word(answered: &[u8]) -> Option<&'static str> {
    for (word, line) in MEMORY_WORDS {
        if answered == word.as_bytes() {
            return Some(line);
        }
    }
    None
}

/// Makes a call, and tells how it answers, beside its usual answer. Whether it answers so is given.
fn tell_call(
    alloc: Global,
    call: Call<'_>,
    refused: Refused,
    usual: &[u8],
    marks: &mut Marks,
) -> bool {
    marks.refused = refused;
    let answer = made(alloc, call, marks);
    let is_usual = answer.as_slice() == usual;
    let other = if is_usual { "usual\n" } else { "other\n" };
    marks.tell(memory_word(answer.as_slice()).unwrap_or(other));
    is_usual
}

/// Makes a call with each of its growths refused.
fn refuse_each(alloc: Global, call: Call<'_>, marks: &mut Marks) {
    marks.tell("part\n");
    marks.refused = Refused::None;
    let answer = made(alloc, call, marks);
    let usual = answer.as_slice();
    if memory_word(usual).is_some() {
        return marks.tell("memory without cause\n");
    }
    for number in 1..=MOST {
        let is_usual = tell_call(alloc, call, Refused::One(number), usual, marks);
        tell_call(alloc, call, Refused::None, usual, marks);
        if is_usual || marks.written.is_err() {
            break;
        }
    }
    tell_call(alloc, call, Refused::Each, usual, marks);
}

/// Makes a call on each line of a file, with each of its growths refused.
fn refuse_on_lines(alloc: Global, name: &str, file: &[u8], marks: &mut Marks) {
    for bytes in split_pieces(file) {
        refuse_each(alloc, Call { name, bytes }, marks);
    }
}

/// Makes a call on each file, or on each line of each file, with each of its growths refused.
pub fn refuse_growths(alloc: Global, name: &str, files: &[Vec<u8>], marks: &mut Marks) {
    for file in files {
        marks.tell("file\n");
        if is_of_lines(name) {
            refuse_on_lines(alloc, name, file, marks);
        } else {
            refuse_each(alloc, Call { name, bytes: file }, marks);
        }
    }
}
