// Answers to the numbers from 0 on, where neighbours with one answer are told together.
use ged_examples_answers::Answer;
use std::alloc::Global;

/// Lines as `3-5 ANSWER`, or `8 ANSWER` for one number.
#[derive(Drop)]
pub(crate) struct Ranges {
    told: Answer,
    current: Answer,
    first: u64,
    last: u64,
}

impl Ranges {
    pub(crate) fn new(alloc: Global) -> Ranges {
        Ranges {
            told: Answer::new(alloc),
            current: Answer::new(alloc),
            first: 0,
            last: 0,
        }
    }

    /// Takes the answer to the next number. It is never empty.
    pub(crate) fn add(&mut self, number: usize, answer: Answer) {
        let number = number as u64;
        if self.current.differs(&answer) {
            self.close();
            self.first = number;
            self.current = answer;
        }
        self.last = number;
    }

    /// Tells the numbers since the answer last changed.
    fn close(&mut self) {
        if self.current.as_slice().is_empty() {
            return;
        }
        self.told.say_number(self.first);
        if self.first != self.last {
            self.told.say("-");
            self.told.say_number(self.last);
        }
        self.told.say(" ");
        self.told.append(&self.current);
        self.told.say("\n");
    }

    /// All lines.
    pub(crate) fn finish(mut self) -> Answer {
        self.close();
        self.told
    }
}
