//! The words of command lines. A line has the words of one; an empty line has none.
use crate::calls::{Call, Part};
use std::alloc::{AllocError, Global};
use tau_command::{Command, Line, Question, StormNumbers, TextCommand, Words, read_words};

/// What reads command lines.
#[derive(Clone, Copy)]
pub(crate) struct Commands {
    alloc: Global,
}

impl Commands {
    pub(crate) fn new(alloc: Global) -> Commands {
        Commands { alloc }
    }
}

impl Part for Commands {
    fn call(&mut self, text: &mut String, call: Call<'_>) -> Result<(), AllocError> {
        let words = words_of(self.alloc, call.line())?;
        match read_words(self.alloc, &words) {
            Ok(command) => add_command(text, call, command),
            Err(error) => writeln!(text, "{}: {error}", call.line()),
        }
    }
}

fn words_of(alloc: Global, line: &str) -> Result<Words, AllocError> {
    let mut words = Words::new(alloc);
    for word in line.split_whitespace() {
        words.add(Line::of(alloc, word)?)?;
    }
    Ok(words)
}

/// Adds a command with its numbers.
fn add_command(text: &mut String, call: Call<'_>, command: Command) -> Result<(), AllocError> {
    let line = call.line();
    match command {
        Command::Keep { jobs, seed, steps } => {
            writeln!(
                text,
                "{line}: Keep, jobs {jobs}, seed {seed}, steps {steps}"
            )
        }
        Command::Resume { jobs, seed, steps } => {
            writeln!(
                text,
                "{line}: Resume, jobs {jobs}, seed {seed}, steps {steps}"
            )
        }
        Command::Text(command) => add_text_command(text, call, command),
    }
}

/// Adds a command that makes one text, with its numbers.
fn add_text_command(
    text: &mut String,
    call: Call<'_>,
    command: TextCommand,
) -> Result<(), AllocError> {
    let line = call.line();
    match command {
        TextCommand::Run {
            workers,
            jobs,
            seed,
            steps,
        } => writeln!(
            text,
            "{line}: Run, workers {workers}, jobs {jobs}, seed {seed}, steps {steps}"
        ),
        TextCommand::Check => call.answer(text, "Check"),
        TextCommand::Audit => call.answer(text, "Audit"),
        TextCommand::Report => call.answer(text, "Report"),
        TextCommand::Print => call.answer(text, "Print"),
        TextCommand::Gen { number } => writeln!(text, "{line}: Gen, number {number}"),
        TextCommand::Drill { number } => writeln!(text, "{line}: Drill, number {number}"),
        TextCommand::Migrate => call.answer(text, "Migrate"),
        TextCommand::Why { place } => writeln!(text, "{line}: Why, place {place}"),
        TextCommand::Cut => call.answer(text, "Cut"),
        TextCommand::Draw {
            from,
            to,
            ask: Some(place),
        } => writeln!(text, "{line}: Draw, from {from}, to {to}, place {place}"),
        TextCommand::Draw {
            from,
            to,
            ask: None,
        } => writeln!(text, "{line}: Draw, from {from}, to {to}"),
        TextCommand::Storm {
            workers,
            numbers,
            question,
        } => add_storm(text, line, workers, numbers, &question),
    }
}

/// Adds the numbers of a storm, and what is asked of it.
fn add_storm(
    text: &mut String,
    line: &str,
    workers: u32,
    numbers: StormNumbers,
    question: &Question,
) -> Result<(), AllocError> {
    let StormNumbers {
        jobs,
        seed,
        seeds,
        fails,
        losses,
        repeats,
        every,
        steps,
    } = numbers;
    write!(
        text,
        "{line}: Storm, workers {workers}, jobs {jobs}, seed {seed}, seeds {seeds}, fails {fails}, losses {losses}, repeats {repeats}, every {every}, steps {steps}"
    )?;
    match question {
        Question::Outcomes => text.push_str("\n"),
        Question::Claim { name } => writeln!(text, ", claim {}", name.text()),
        Question::Show { outcome } => writeln!(text, ", show {outcome}"),
    }
}
