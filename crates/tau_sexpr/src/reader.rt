//! Reading forms.
ghost use Rattle.std.specs.Prelude.{◌≡◌, ◌≢◌, ◌+◌, ◌<◌, ◌≤◌, ◌⊎◌, ℕ, List, [], length, drop, slice_range, slice_index, IsTrue, Result, Ok, Err, IfOk, IfErr, OnOk, All, IfSome, IfNone, ◌∷◌, ◌++◌, true, false};
ghost use Rattle.tau_sexpr.specs.Bytes.{IsWordByte, IsTextByte};
ghost use Rattle.tau_sexpr.specs.Kinds.{is_plain, kind_of};
ghost use Rattle.tau_sexpr.specs.Spelling.{EndsWord, EndsLine, EndsPlain, IsSpelling, IsUnlessNoMemory};
ghost use Rattle.tau_sexpr.specs.Faults.{IsFirstFault};
ghost use Rattle.tau_sexpr.specs.declared.faults.FormError.{FormError};
ghost use Rattle.tau_sexpr.specs.Tree.{Tree, word, text, depths, HasWords};
ghost use Rattle.tau_sexpr.specs.Form.{tree_of};
ghost use Rattle.tau_sexpr.specs.Rest.{forms_from, behind};
ghost use Rattle.tau_sexpr.specs.Inner.Reader.{Stack, stack, stack_of, with_form, step_outside, ended, reading, read_all, outside, in_text, in_pair, IsPairRest, IsPair, IsClosing, ArePlain, IsText, IsWord, Steps, TellsFormFault, Gives};

use crate::bytes::{ByteKind, is_plain as is_plain_byte, is_word_byte, kind, meaning};
use crate::{Form, FormError, Forms, Text, Word};
use std::alloc::{AllocError, Global};
use std::mem;

/// Reads the forms of a text, given by its bytes (docs/formats.md, "Texts and forms").
///
/// The error is the first fault of the text with its place, in bytes counted from 0, or want of memory:
/// `BadByte`, a byte that may not stand outside of texts in quotes and comments; `Unopened`, a `)` where no list is
/// open; `Unclosed`, the length, where the text ends in a list or in quotes; `BadText`, a byte that may not stand in
/// quotes where it does; `TooDeep`, a `(` where 200 lists are open.
pub fn read_forms(alloc: Global, bytes: &[u8]) -> Result<Forms, FormError>
    ensures spelled { IfOk result (λ forms. IsSpelling bytes.now forms) }
    ensures read { (ts : List Tree) → IsSpelling bytes.now ts → IsUnlessNoMemory result (Ok ts) }

    ensures faulty { IfErr result (λ e. e ≢ FormError.NoMemory → IsFirstFault bytes.now e) }
    ensures first_fault { (e : FormError) → IsFirstFault bytes.now e → IsUnlessNoMemory result (Err e) }

    ensures depth { IfOk result (λ forms. depths forms ≤ 200) }
    ensures words { IfOk result (λ forms. All HasWords forms) }
{
    read_whole(alloc, bytes)
}

/// Reads some forms of a text, given by its bytes, from a place on, and gives the place behind them (docs/formats.md, "Texts
/// and forms"): all forms up to the end, or those of at least 16 KiB up to a place outside of lists. So a text that is read
/// from its start, each time from the place that came last, gives its forms in order, and takes memory for some of them at a
/// time; a form at the top is never cut.
///
/// The error is the first fault from that place on, with its place counted from the start of the text, or want of memory.
pub fn read_some(alloc: Global, bytes: &[u8], start: usize) -> Result<(Forms, usize), FormError>
    requires { start ≤ length bytes.now }
    ensures read { IfOk result (λ r. forms_from bytes.now start ≡ behind r.0 (forms_from bytes.now r.1)) }
    ensures within { IfOk result (λ r. r.1 ≤ length bytes.now) }
    ensures moves { IfOk result (λ r. start < length bytes.now → start < r.1) }
    ensures fault { IfErr result (λ e. e ≢ FormError.NoMemory → forms_from bytes.now start ≡ Err e) }
{
    read_piece(alloc, bytes, start, PIECE)
}

/// The forms of at least so many bytes from a place on, up to a place outside of lists or to the end, and the place behind them.
fn read_piece(
    alloc: Global,
    bytes: &[u8],
    start: usize,
    least: usize,
) -> Result<(Forms, usize), FormError>
    requires { start ≤ length bytes.now }
    ensures read { IfOk result (λ r. forms_from bytes.now start ≡ behind r.0 (forms_from bytes.now r.1)) }
    ensures within { IfOk result (λ r. r.1 ≤ length bytes.now) }
    ensures least { IfOk result (λ r. r.1 < length bytes.now → start + least ≤ r.1) }
    ensures fault { IfErr result (λ e. e ≢ FormError.NoMemory → forms_from bytes.now start ≡ Err e) }
{
    let mut held = OpenLists::new(alloc);
    let mut at = start;
    while at < bytes.len() && held.takes_more(at - start, least) {
        at = read_token(alloc, &mut held, bytes, at)?;
    }
    Ok((held.finish(at)?, at))
}

/// How many lists may be open.
const DEPTH: usize = 200;

/// How many forms a list has at most that is copied when it is closed, so that a later one uses its room.
const COPIED: usize = 32;

/// How many bytes a call of `read_some` reads at least, where there are so many: 16 KiB.
const PIECE: usize = 16_384;

/// The lists that are open, outermost first, and the forms of the innermost one, or of the text where none is open.
#[derive(Drop)]
pub struct OpenLists {
    outer: Vec<Forms>,
    forms: Forms,
    /// Rooms of lists that were closed.
    rooms: Vec<Forms>,
    alloc: Global,
}

impl OpenLists {
    fn new(alloc: Global) -> OpenLists
        ensures { stack_of result ≡ stack [] [] }
    {
        OpenLists {
            outer: Vec::new(alloc),
            forms: Forms::new(alloc),
            rooms: Vec::new(alloc),
            alloc,
        }
    }

    fn add(&mut self, form: Form) -> Result<(), AllocError>
        ensures { OnOk result (stack_of self.new ≡ with_form (stack_of self.old) (tree_of form)) }
    {
        self.forms.add(form)
    }

    /// A `(` at this place.
    fn open(&mut self, at: usize) -> Result<(), FormError>
        ensures { Steps result at (stack_of self.new) (step_outside ByteKind.Opening 40 at (stack_of self.old)) }
    {
        if self.outer.len() >= DEPTH {
            return Err(FormError::TooDeep { at: at as u64 });
        }
        let room = self.room();
        let forms = mem::replace(&mut self.forms, room);
        self.outer.push(forms)?;
        Ok(())
    }

    /// An empty list, with the room of one that was closed where there is any.
    fn room(&mut self) -> Forms
        ensures empty { result ≡ [] }
        ensures held { stack_of self.new ≡ stack_of self.old }
    {
        match self.rooms.pop() {
            Some(mut room) => {
                room.clear();
                room
            }
            None => Forms::new(self.alloc),
        }
    }

    /// The forms of a list that is closed, in a list with room for no more.
    fn fitted(&mut self, mut forms: Forms) -> Result<Forms, AllocError>
        ensures forms { IfOk result (λ f. f ≡ forms) }
        ensures held { stack_of self.new ≡ stack_of self.old }
    {
        if forms.len() > COPIED {
            forms.shrink();
            return Ok(forms);
        }
        let fitted = forms.take_all()?;
        let _kept = self.rooms.push(forms);
        Ok(fitted)
    }

    /// A `)` at this place.
    fn close(&mut self, at: usize) -> Result<(), FormError>
        ensures { Steps result at (stack_of self.new) (step_outside ByteKind.Closing 41 at (stack_of self.old)) }
    {
        match self.outer.pop() {
            Some(outer) => {
                let forms = mem::replace(&mut self.forms, outer);
                let fitted = self.fitted(forms)?;
                self.add(Form::List(fitted))?;
                Ok(())
            }
            None => Err(FormError::Unopened { at: at as u64 }),
        }
    }

    /// Whether a piece of a text goes on that has so many bytes: where at least so many are wanted, and where a list is open.
    fn takes_more(&self, len: usize, least: usize) -> bool
        ensures enough { result ≡ false → least ≤ len }
        ensures closed { result ≡ false → (stack_of self.now).lists ≡ [] }
    {
        len < least || !self.outer.is_empty()
    }

    /// The end of the text, at its length.
    fn finish(self, at: usize) -> Result<Forms, FormError>
        ensures { Gives result (ended at (stack_of self).lists (stack_of self).forms) }
    {
        if self.outer.is_empty() {
            Ok(self.forms)
        } else {
            Err(FormError::Unclosed { at: at as u64 })
        }
    }
}

/// The end of the word that goes on at this place.
fn word_end(bytes: &[u8], start: usize) -> usize
    requires { start ≤ length bytes.now }
    ensures least { start ≤ result }
    ensures most { result ≤ length bytes.now }
    ensures word { All IsWordByte (slice_range bytes.now start result) }
    ensures ends { EndsWord (drop result bytes.now) }
{
    for end in start..bytes.len() {
        if !is_word_byte(bytes[end]) {
            return end;
        }
    }
    bytes.len()
}

/// The end of the comment that goes on at this place.
fn line_end(bytes: &[u8], start: usize) -> usize
    requires { start ≤ length bytes.now }
    ensures least { start ≤ result }
    ensures most { result ≤ length bytes.now }
    ensures line { All (λ b. b ≢ 10) (slice_range bytes.now start result) }
    ensures ends { EndsLine (drop result bytes.now) }
{
    for end in start..bytes.len() {
        if bytes[end] == b'\n' {
            return end;
        }
    }
    bytes.len()
}

/// The end of the bytes in quotes that stand for themselves.
fn plain_end(bytes: &[u8], start: usize) -> usize
    requires { start ≤ length bytes.now }
    ensures least { start ≤ result }
    ensures most { result ≤ length bytes.now }
    ensures plain { All (λ b. IsTrue (is_plain b)) (slice_range bytes.now start result) }
    ensures ends { EndsPlain (drop result bytes.now) }
{
    for end in start..bytes.len() {
        if !is_plain_byte(bytes[end]) {
            return end;
        }
    }
    bytes.len()
}

/// What a backslash and the byte at this place mean.
fn read_pair(bytes: &[u8], at: usize) -> Result<u8, FormError>
    requires { at ≤ length bytes.now }
    ensures ok { IfOk result (IsPairRest bytes.now at) }
    ensures err { IfErr result (λ e. (u : List ℕ) (s : Stack) → reading bytes.now at (in_pair u) s ≡ Err e) }
{
    if at == bytes.len() {
        return Err(FormError::Unclosed { at: at as u64 });
    }
    match meaning(bytes[at]) {
        Some(byte) => Ok(byte),
        None => Err(FormError::BadText { at: at as u64 }),
    }
}

/// What stands at this place in quotes, where no byte stands for itself: a pair, or `None` for the closing quote.
fn read_mark(bytes: &[u8], at: usize) -> Result<Option<u8>, FormError>
    requires within { at ≤ length bytes.now }
    requires mark { EndsPlain (drop at bytes.now) }
    ensures pair { IfOk result (λ o. IfSome o (IsPair bytes.now at)) }
    ensures closing { IfOk result (λ o. IfNone o (IsClosing bytes.now at)) }
    ensures err { IfErr result (λ e. (u : List ℕ) (s : Stack) → reading bytes.now at (in_text u) s ≡ Err e) }
{
    if at == bytes.len() {
        return Err(FormError::Unclosed { at: at as u64 });
    }
    let byte = bytes[at];
    if byte == b'"' {
        return Ok(None);
    }
    if byte == b'\\' {
        return match read_pair(bytes, at + 1) {
            Ok(byte) => Ok(Some(byte)),
            Err(error) => Err(error),
        };
    }
    Err(FormError::BadText { at: at as u64 })
}

/// Adds the bytes at this place that stand for themselves, and gives the place after them.
fn put_plain(text: &mut Vec<u8>, bytes: &[u8], at: usize) -> Result<usize, AllocError>
    requires { at ≤ length bytes.now }
    ensures bounds { IfOk result (λ end. (at ≤ end) × (end ≤ length bytes.now)) }
    ensures ends { IfOk result (λ end. EndsPlain (drop end bytes.now)) }
    ensures text_bytes { OnOk result (All IsTextByte text.old.items → All IsTextByte text.new.items) }
    ensures read { IfOk result (λ end. ArePlain bytes.now at end text.old.items text.new.items) }
{
    let end = plain_end(bytes, at);
    text.extend_from_slice(&bytes[at..end])?;
    Ok(end)
}

/// The text whose first byte in quotes is at this place, and the place after its closing quote.
fn read_text(alloc: Global, bytes: &[u8], start: usize) -> Result<(Text, usize), FormError>
    requires { start ≤ length bytes.now }
    ensures ok { IfOk result (λ r. IsText bytes.now start r.1 r.0) }
    ensures err { IfErr result (λ e. (s : Stack) → TellsFormFault e (reading bytes.now start (in_text []) s)) }
{
    let mut text = Vec::new(alloc);
    let mut at = start;
    loop {
        let end = put_plain(&mut text, bytes, at)?;
        match read_mark(bytes, end) {
            Ok(Some(byte)) => {
                text.push(byte)?;
                at = end + 2;
            }
            Ok(None) => return Ok((Text::from_vec(alloc, text)?, end + 1)),
            Err(error) => return Err(error),
        }
    }
}

/// The word that begins at this place, and the place after it.
fn read_word(alloc: Global, bytes: &[u8], at: usize) -> Result<(Word, usize), AllocError>
    requires within { at < length bytes.now }
    requires begins { kind_of (slice_index bytes.now at) ≡ ByteKind.OfWord }
    ensures { IfOk result (λ r. IsWord bytes.now at r.1 r.0) }
{
    let end = word_end(bytes, at + 1);
    let word = Word::of(alloc, &bytes[at..end])?;
    Ok((word, end))
}

/// Takes the token, the comment or the blank at this place, and gives the place after it.
fn read_token(
    alloc: Global,
    held: &mut OpenLists,
    bytes: &[u8],
    at: usize,
) -> Result<usize, FormError>
    requires { at < length bytes.now }
    ensures bounds { IfOk result (λ next. (at < next) × (next ≤ length bytes.now)) }
    ensures ok { IfOk result (λ next. reading bytes.now at outside (stack_of held.old)
        ≡ reading bytes.now next outside (stack_of held.new)) }
    ensures err { IfErr result (λ e. TellsFormFault e (reading bytes.now at outside (stack_of held.old))) }
{
    match kind(bytes[at]) {
        ByteKind::Blank => Ok(at + 1),
        ByteKind::Semicolon => Ok(line_end(bytes, at + 1)),
        ByteKind::Opening => {
            held.open(at)?;
            Ok(at + 1)
        }
        ByteKind::Closing => {
            held.close(at)?;
            Ok(at + 1)
        }
        ByteKind::Quote => {
            let (text, next) = read_text(alloc, bytes, at + 1)?;
            held.add(Form::Text(text))?;
            Ok(next)
        }
        ByteKind::OfWord => {
            let (word, next) = read_word(alloc, bytes, at)?;
            held.add(Form::Word(word))?;
            Ok(next)
        }
        ByteKind::Other => Err(FormError::BadByte { at: at as u64 }),
    }
}

/// All forms of the bytes.
fn read_whole(alloc: Global, bytes: &[u8]) -> Result<Forms, FormError>
    ensures { Gives result (read_all bytes.now) }
{
    let (forms, _end) = read_piece(alloc, bytes, 0, bytes.len())?;
    Ok(forms)
}
