//! Names, and lists of words with an index.
ghost use Rattle.std.specs.Prelude.{◌≡◌, ◌↔◌, ℕ, List, [], ◌∷◌, ◌++◌, length, slice_get, slice_index, IsTrue, IfOk, IfErr, OnOk, OnErr, option_copied};
ghost use Rattle.std.specs.List.{list_all};
ghost use Rattle.tau_value.specs.Names.{is_name as name_test, is_name_byte as name_byte, is_small_letter, is_reserved as reserved_test, place_of, AreNames};
ghost use Rattle.tau_value.specs.Places.{indexed, noted};

use indexmap::IndexMap;
use std::alloc::{AllocError, Global};
use std::marker::Model;
use tau_sexpr::Word;

/// Whether a word is a name: it has 1 to 64 bytes, begins with `a` to `z`, goes on with `a` to `z`, `0` to `9` and `-`,
/// and is none of `unit`, `true`, `false`, `msg`, `self` (docs/formats.md, "Numbers and names").
pub fn is_name(word: &Word) -> bool
    ensures { result ≡ name_test word.now }
{
    let bytes = word.bytes();
    bytes.len() <= 64 && begins_small(bytes) && are_name_bytes(bytes) && !is_reserved(bytes)
}

fn begins_small(bytes: &[u8]) -> bool
    ensures { result ≡ is_small_letter (slice_index bytes.now 0) }
{
    match bytes {
        [first, ..] => first.is_ascii_lowercase(),
        [] => false,
    }
}

fn are_name_bytes(bytes: &[u8]) -> bool
    ensures { result ≡ list_all name_byte bytes.now }
{
    bytes.iter().all(|byte| is_name_byte(*byte))
}

fn is_name_byte(byte: u8) -> bool
    ensures { result ≡ name_byte byte }
{
    byte.is_ascii_lowercase() || byte.is_ascii_digit() || byte == b'-'
}

fn is_reserved(bytes: &[u8]) -> bool
    ensures { result ≡ reserved_test bytes.now }
{
    bytes == b"unit".as_slice()
        || bytes == b"true".as_slice()
        || bytes == b"false".as_slice()
        || bytes == b"msg".as_slice()
        || bytes == b"self".as_slice()
}

/// A list of words, each found by its bytes. Contracts see it as the list of the words.
#[derive(Drop)]
pub struct Names {
    items: Vec<Word>,
    places: IndexMap<Vec<u8>, usize>,
    alloc: Global,
}

impl Model for Names {
    ghost use Rattle.std.specs.Prelude.{ℕ, List};
    ghost use Rattle.std.specs.Coded.{coded_ℕ, coded_list};
    ghost use Rattle.tau_value.specs.Places.{IsIndex};

    ghost Value = { List (List ℕ) };

    ghost coded = { coded_list (coded_list coded_ℕ) };

    ghost view = { λ n. n.items.items };

    ghost invariant = { λ n. IsIndex n.places.entries n.items.items };
}

impl Names {
    /// The empty list. It takes no memory.
    pub fn new(alloc: Global) -> Names
        ensures { result ≡ [] }
    {
        Names {
            items: Vec::new(alloc),
            places: IndexMap::new(alloc),
            alloc,
        }
    }

    /// Adds a word at the end. Without memory the word comes back, and the list stays as it was.
    pub fn push(&mut self, item: Word) -> Result<(), (Word, AllocError)>
        ensures ok { OnOk result (self.new ≡ self.old ++ item ∷ []) }
        ensures err { IfErr result (λ e. (e.0 ≡ item) × (self.new ≡ self.old)) }
    {
        if self.items.reserve(1).is_err() {
            return Err((item, AllocError));
        }
        if let Err(failed) = note(&mut self.places, self.alloc, item.bytes(), self.items.len()) {
            return Err((item, failed));
        }
        self.items.push_reserved(item);
        Ok(())
    }

    /// Adds a word at the end. Without memory it is dropped, and the list stays as it was.
    pub fn add(&mut self, item: Word) -> Result<(), AllocError>
        ensures ok { OnOk result (self.new ≡ self.old ++ item ∷ []) }
        ensures err { OnErr result (self.new ≡ self.old) }
    {
        match self.push(item) {
            Ok(()) => Ok(()),
            Err((_item, failed)) => Err(failed),
        }
    }

    /// How many words the list has.
    pub fn len(&self) -> usize
        ensures { result ≡ length self.now }
    {
        self.items.len()
    }

    /// Whether the list has no words.
    pub fn is_empty(&self) -> bool
        ensures { IsTrue result ↔ (self.now ≡ []) }
    {
        self.items.is_empty()
    }

    /// The word at `k`, counted from 0; `None` where there is none.
    pub fn item(&self, k: usize) -> Option<&Word>
        ensures { option_copied result ≡ slice_get self.now k }
    {
        self.items.get(k)
    }

    /// The words of the list.
    pub fn items(&self) -> &[Word]
        ensures { result.now ≡ self.now }
    {
        &self.items
    }

    /// The first place of a word, counted from 0; `None` where the word isn't in the list. It hashes the word.
    pub fn find(&self, word: &Word) -> Option<usize>
        ensures { result ≡ place_of self.now word.now }
    {
        self.places.get(word.bytes()).copied()
    }

    /// Whether the words are distinct names, as those of the starts of a program. It hashes each word.
    pub fn are_names(&self) -> bool
        ensures { IsTrue result ↔ AreNames self.now }
    {
        for (k, item) in self.items.iter().enumerate() {
            if !is_name(item) {
                return false;
            }
            if self.find(item) != Some(k) {
                return false;
            }
        }
        true
    }

    /// An equal list. The error is want of memory.
    pub fn copy(&self) -> Result<Names, AllocError>
        ensures { IfOk result (λ n. n ≡ self.now) }
    {
        let mut names = Names::new(self.alloc);
        for item in &self.items {
            names.add(item.copy()?)?;
        }
        Ok(names)
    }
}

/// Notes the place of a word that has none.
fn note(
    places: &mut IndexMap<Vec<u8>, usize>,
    alloc: Global,
    word: &[u8],
    place: usize,
) -> Result<(), AllocError>
    ensures ok { OnOk result ((v : List ℕ) →
        indexed places.new.entries v ≡ noted (indexed places.old.entries v) word.now place v) }
    ensures err { OnErr result (places.new.entries ≡ places.old.entries) }
{
    if places.contains_key(word) {
        return Ok(());
    }
    let key = Vec::from_slice(alloc, word)?;
    places.insert(key, place)?;
    Ok(())
}
