//! A call as a line of words.
use std::alloc::AllocError;

/// What calls are made of.
pub(crate) trait Part {
    /// Makes a call, and adds what it answers, if it does, to the text.
    fn call(&mut self, text: &mut String, call: Call<'_>) -> Result<(), AllocError>;
}

/// A line: a verb, and words after it.
#[derive(Clone, Copy)]
pub(crate) struct Call<'a> {
    line: &'a str,
}

impl<'a> Call<'a> {
    /// The call of a line.
    pub(crate) fn of(line: &'a str) -> Call<'a> {
        Call { line }
    }

    /// The line.
    pub(crate) fn line(self) -> &'a str {
        self.line
    }

    /// The verb.
    pub(crate) fn verb(self) -> &'a str {
        self.line.split_whitespace().next().unwrap_or("")
    }

    /// The word at a place after the verb, counted from 0; an empty one where there is none.
    pub(crate) fn word(self, place: usize) -> &'a str {
        self.line
            .split_whitespace()
            .skip(1)
            .nth(place)
            .unwrap_or("")
    }

    /// The word at a place as a number; 0 where it is none.
    pub(crate) fn number(self, place: usize) -> u32 {
        number_of(self.word(place))
    }

    /// The word at a place as the number of a thing that an earlier line made.
    pub(crate) fn index(self, place: usize) -> usize {
        self.number(place) as usize
    }

    /// Adds the line with what the call answers.
    pub(crate) fn answer(self, text: &mut String, answer: &str) -> Result<(), AllocError> {
        writeln!(text, "{}: {answer}", self.line)
    }

    /// Adds the line of a call that can't be made.
    pub(crate) fn refuse(self, text: &mut String) -> Result<(), AllocError> {
        self.answer(text, "not made")
    }

    /// Adds the line of a call that answers yes or no, or can't be made.
    pub(crate) fn decide(self, text: &mut String, answer: Option<bool>) -> Result<(), AllocError> {
        match answer {
            Some(true) => self.answer(text, "yes"),
            Some(false) => self.answer(text, "no"),
            None => self.refuse(text),
        }
    }
}

/// The number that a word spells; 0 where it spells none.
pub(crate) fn number_of(word: &str) -> u32 {
    word.parse().unwrap_or(0)
}
