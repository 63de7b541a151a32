//! Numbers of transactors. Verbs, where K is the number of a list, from 0 in the order in which they were made:
//! - `new` makes a list, and `share K` another one that shares a list's numbers;
//! - `raise K N ..` makes the list its owner's alone and raises its numbers; `raise_one K WHO N` does so with the number of one
//!   transactor;
//! - `numbers K` writes the numbers, `number K WHO` that of a transactor.
use crate::calls::{Call, Part, number_of};
use std::alloc::{AllocError, Global};
use tau_versions::numbers::Numbers;

/// Lists of numbers in the order in which they were made.
#[derive(Drop)]
pub(crate) struct Lists {
    alloc: Global,
    made: Vec<Numbers>,
}

impl Lists {
    pub(crate) fn new(alloc: Global) -> Lists {
        Lists {
            alloc,
            made: Vec::new(alloc),
        }
    }

    /// Makes a list that shares the numbers of another.
    fn share(&mut self, text: &mut String, call: Call<'_>) -> Result<(), AllocError> {
        let shared = match self.made.get_mut(call.index(0)) {
            Some(list) => list.share()?,
            None => return call.refuse(text),
        };
        self.made.push(Numbers::from_shared(shared))?;
        Ok(())
    }
}

impl Part for Lists {
    fn call(&mut self, text: &mut String, call: Call<'_>) -> Result<(), AllocError> {
        match call.verb() {
            "new" => {
                self.made.push(Numbers::new(self.alloc))?;
                return Ok(());
            }
            "share" => return self.share(text, call),
            _ => {}
        }
        let Some(list) = self.made.get_mut(call.index(0)) else {
            return call.refuse(text);
        };
        match call.verb() {
            "raise" => raise(self.alloc, list, call),
            "raise_one" => raise_one(list, call.number(1), call.number(2)),
            "numbers" => add_numbers(text, call, list.items()),
            "number" => writeln!(text, "{}: {}", call.line(), list.number(call.number(1))),
            _ => call.refuse(text),
        }
    }
}

/// Raises the numbers of a list to those of a call.
fn raise(alloc: Global, list: &mut Numbers, call: Call<'_>) -> Result<(), AllocError> {
    let mut others = Vec::new(alloc);
    for word in call.line().split_whitespace().skip(2) {
        others.push(number_of(word))?;
    }
    list.own(others.len())?;
    list.raise(&others);
    Ok(())
}

/// Raises the number of a transactor.
fn raise_one(list: &mut Numbers, who: u32, number: u32) -> Result<(), AllocError> {
    list.own(who as usize + 1)?;
    list.raise_one(who, number);
    Ok(())
}

/// Adds the line of a call with numbers.
fn add_numbers(text: &mut String, call: Call<'_>, numbers: &[u32]) -> Result<(), AllocError> {
    write!(text, "{}:", call.line())?;
    for number in numbers {
        write!(text, " {number}")?;
    }
    text.push('\n')
}
