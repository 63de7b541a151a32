//! The words of commands.
use std::alloc::{AllocError, Global};
use tau_cli::{Command, Line, TextCommand, Words, read_words};

/// The words of a line.
pub(crate) fn words_of(alloc: Global, line: &str) -> Result<Words, AllocError> {
    let mut words = Words::new(alloc);
    for word in line.split_whitespace() {
        words.add(Line::of(alloc, word)?)?;
    }
    Ok(words)
}

/// Whether the words are those of a command that may start threads and writes one text all the same: `run` with one worker, or `storm`.
pub(crate) fn writes_one_text(alloc: Global, words: &Words) -> bool {
    match read_words(alloc, words) {
        Ok(Command::Text(TextCommand::Run { workers, .. })) => workers == 1,
        Ok(Command::Text(TextCommand::Storm { .. })) => true,
        _ => false,
    }
}
