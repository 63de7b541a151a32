//! The words of the command line.
ghost use Rattle.std.specs.Prelude.{◌≡◌, IfOk};

use std::alloc::{AllocError, Global};
use std::convert::AsStr;
use std::marker::Model;
use tau_lists::{Item, ItemList};

/// One word of the command line: UTF-8 text. Contracts see it as the list of its bytes.
#[derive(Debug, Drop)]
pub struct Line {
    text: String,
}

impl Model for Line {
    ghost use Rattle.std.specs.Prelude.{ℕ, List, string_bytes};
    ghost use Rattle.std.specs.Coded.{coded_ℕ, coded_list};

    ghost Value = { List ℕ };

    ghost coded = { coded_list coded_ℕ };

    ghost view = { λ l. string_bytes l.text };
}

impl AsStr for Line {
    ghost text = { λ l. l };

    fn as_str(&self) -> &str {
        self.text()
    }
}

impl Line {
    /// The word with this text. The error is want of memory.
    pub fn of(alloc: Global, text: &str) -> Result<Line, AllocError>
        ensures { IfOk result (λ l. l ≡ text.now) }
    {
        Ok(Line {
            text: String::from_str(alloc, text)?,
        })
    }

    /// The text of the word.
    pub fn text(&self) -> &str
        ensures { result.now ≡ self.now }
    {
        self.text.as_str()
    }

    /// An equal word. The error is want of memory.
    pub fn copy(&self) -> Result<Line, AllocError>
        ensures { IfOk result (λ l. l ≡ self.now) }
    {
        Ok(Line {
            text: self.text.clone()?,
        })
    }
}

impl Item for Line {
    fn copied(&self) -> Result<Line, AllocError> {
        self.copy()
    }
}

/// The words of a command line, without the program's own name.
pub type Words = ItemList<Line>;
