//! Words.
ghost use Rattle.std.specs.Prelude.{◌≡◌, ◌↔◌, [], ◌∷◌, ◌++◌, length, slice_get, IsTrue, IfOk, IfErr, OnOk, All, option_copied};
ghost use Rattle.tau_sexpr.specs.Bytes.{IsWordByte};

use crate::letters::Letters;
use std::alloc::{AllocError, Global};
use std::marker::Model;

/// A word: bytes that a word may hold (docs/formats.md, "Texts and forms"). Contracts see it as the list of its bytes.
/// Up to 22 bytes stand in the value itself, and take no block of memory.
#[derive(Debug, Drop)]
pub struct Word {
    letters: Letters,
    alloc: Global,
}

impl Model for Word {
    ghost use Rattle.std.specs.Prelude.{ℕ, List, All};
    ghost use Rattle.std.specs.Coded.{coded_ℕ, coded_list};
    ghost use Rattle.tau_sexpr.specs.Bytes.{IsWordByte};

    ghost Value = { List ℕ };

    ghost coded = { coded_list coded_ℕ };

    ghost use Rattle.tau_sexpr.specs.Inner.Letters.{bytes_of};

    ghost view = { λ w. bytes_of w.letters };

    ghost invariant = { λ w. All IsWordByte (bytes_of w.letters) };
}

impl Word {
    /// The empty word. It takes no memory.
    pub fn new(alloc: Global) -> Word
        ensures { result ≡ [] }
    {
        Word {
            letters: Letters::new(),
            alloc,
        }
    }

    /// The word of these bytes. The error is want of memory.
    pub fn of(alloc: Global, bytes: &[u8]) -> Result<Word, AllocError>
        requires { All IsWordByte bytes.now }
        ensures { IfOk result (λ w. w ≡ bytes.now) }
    {
        Ok(Word {
            letters: Letters::of(alloc, bytes)?,
            alloc,
        })
    }

    /// Adds a byte at the end. Without memory the byte comes back, and the word stays as it was.
    pub fn push(&mut self, byte: u8) -> Result<(), (u8, AllocError)>
        requires { IsWordByte byte }
        ensures ok { OnOk result (self.new ≡ self.old ++ byte ∷ []) }
        ensures err { IfErr result (λ e. (e.0 ≡ byte) × (self.new ≡ self.old)) }
    {
        match self.letters.push(self.alloc, byte) {
            Ok(()) => Ok(()),
            Err(failed) => Err((byte, failed)),
        }
    }

    /// How many bytes the word has.
    pub fn len(&self) -> usize
        ensures { result ≡ length self.now }
    {
        self.bytes().len()
    }

    /// Whether the word has no bytes.
    pub fn is_empty(&self) -> bool
        ensures { IsTrue result ↔ (self.now ≡ []) }
    {
        self.bytes().is_empty()
    }

    /// The byte at `k`, counted from 0; `None` where there is none.
    pub fn item(&self, k: usize) -> Option<&u8>
        ensures { option_copied result ≡ slice_get self.now k }
    {
        self.bytes().get(k)
    }

    /// The bytes of the word, each of which a word may hold.
    pub fn bytes(&self) -> &[u8]
        ensures value { result.now ≡ self.now }
        ensures word { All IsWordByte result.now }
    {
        self.letters.bytes()
    }

    /// An equal word. The error is want of memory.
    pub fn copy(&self) -> Result<Word, AllocError>
        ensures { IfOk result (λ w. w ≡ self.now) }
    {
        Word::of(self.alloc, self.bytes())
    }

    /// Whether two words have the same bytes.
    pub fn same(&self, other: &Word) -> bool
        ensures { IsTrue result ↔ (self.now ≡ other.now) }
    {
        self.bytes() == other.bytes()
    }
}
