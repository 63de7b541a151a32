//! Messages in flight. Verbs, where M is a message, WHO a receiver and NODE its node:
//! - `nodes N` takes away all letters and turns, and sets the number of nodes, which is 1 at first;
//! - `letter M WHO NODE` puts a letter in, and `spare M WHO NODE` does so in room that it reserved; `leave M` takes one out, and
//!   writes it;
//! - `open WHO` opens a turn, `close WHO` closes it;
//! - `mail` writes how many nodes, letters, deliverable letters and turns there are; `in_order K` and `deliverable K` write the
//!   letter at a place, `first_for WHO` the first one for a receiver, `of_node NODE` the messages at a node; `empty` and
//!   `busy WHO` answer yes or no.
ghost use Rattle.std.specs.Prelude.{IsTrue};
ghost use Rattle.tau_mailbox.specs.Letters.{AllBelow};

use crate::calls::{Call, Part};
use std::alloc::{AllocError, Global};
use tau_mailbox::{Letter, Mailboxes};

/// Messages in flight.
#[derive(Drop)]
pub(crate) struct Mail {
    alloc: Global,
    mailboxes: Mailboxes,
}

impl Mail {
    pub(crate) fn new(alloc: Global) -> Mail {
        Mail {
            alloc,
            mailboxes: Mailboxes::new(alloc, 1),
        }
    }

    /// Puts a letter in, where its message is above all that are there and its node is one of the nodes.
    fn put(&mut self, text: &mut String, call: Call<'_>) -> Result<(), AllocError> {
        let letter = Letter {
            message: call.number(0),
            who: call.number(1),
            node: call.number(2),
        };
        if letter.node >= self.mailboxes.nodes() || !is_above(&self.mailboxes, letter.message) {
            return call.refuse(text);
        }
        if call.verb() == "letter" {
            return self.mailboxes.arrive(letter);
        }
        self.mailboxes.reserve(letter.who)?;
        self.mailboxes.arrive_spare(letter);
        Ok(())
    }

    /// Opens a turn of a receiver that is in none.
    fn open(&mut self, text: &mut String, call: Call<'_>) -> Result<(), AllocError> {
        let who = call.number(0);
        if self.mailboxes.is_busy(who) {
            return call.refuse(text);
        }
        self.mailboxes.reserve_open()?;
        self.mailboxes.open(who);
        Ok(())
    }

    /// Adds what a reader answers.
    fn tell(&self, text: &mut String, call: Call<'_>) -> Result<(), AllocError> {
        let mailboxes = &self.mailboxes;
        match call.verb() {
            "mail" => add_counts(text, call, mailboxes),
            "in_order" => add_letter(text, call, mailboxes.in_order(call.index(0))),
            "deliverable" => add_letter(text, call, mailboxes.deliverable(call.index(0))),
            "first_for" => add_letter(text, call, mailboxes.first_for(call.number(0))),
            "of_node" => add_letters(text, call, &mailboxes.of_node(call.number(0))?),
            "empty" => call.decide(text, Some(mailboxes.is_empty())),
            "busy" => call.decide(text, Some(mailboxes.is_busy(call.number(0)))),
            _ => call.refuse(text),
        }
    }
}

impl Part for Mail {
    fn call(&mut self, text: &mut String, call: Call<'_>) -> Result<(), AllocError> {
        match call.verb() {
            "nodes" => {
                self.mailboxes = Mailboxes::new(self.alloc, call.number(0));
                Ok(())
            }
            "letter" | "spare" => self.put(text, call),
            "leave" => add_letter(text, call, self.mailboxes.leave(call.number(0))),
            "open" => self.open(text, call),
            "close" => {
                self.mailboxes.close(call.number(0));
                Ok(())
            }
            _ => self.tell(text, call),
        }
    }
}

/// Whether a message is above all that are there.
fn is_above(mailboxes: &Mailboxes, message: u32) -> bool
    ensures { IsTrue result → AllBelow message mailboxes.now.letters }
{
    mailboxes.is_empty() || ends_below(mailboxes, message)
}

/// Whether there is a last letter and its message is below the given one.
fn ends_below(mailboxes: &Mailboxes, message: u32) -> bool
    ensures { IsTrue result → AllBelow message mailboxes.now.letters }
{
    match mailboxes.in_order(mailboxes.len().saturating_sub(1)) {
        Some(letter) => letter.message < message,
        None => false,
    }
}

/// Adds how many nodes, letters, deliverable letters and turns there are.
fn add_counts(text: &mut String, call: Call<'_>, mailboxes: &Mailboxes) -> Result<(), AllocError> {
    writeln!(
        text,
        "{}: nodes {}, letters {}, deliverable {}, turns {}",
        call.line(),
        mailboxes.nodes(),
        mailboxes.len(),
        mailboxes.deliverable_len(),
        mailboxes.busy_len()
    )
}

/// Adds a letter.
fn add_letter(text: &mut String, call: Call<'_>, letter: Option<Letter>) -> Result<(), AllocError> {
    match letter {
        Some(Letter { message, who, node }) => {
            writeln!(
                text,
                "{}: message {message} for {who} at {node}",
                call.line()
            )
        }
        None => call.answer(text, "none"),
    }
}

/// Adds the messages of letters.
fn add_letters(text: &mut String, call: Call<'_>, letters: &[Letter]) -> Result<(), AllocError> {
    write!(text, "{}:", call.line())?;
    for letter in letters {
        write!(text, " {}", letter.message)?;
    }
    text.push('\n')
}
