//! A run text that is read in parts, so that the forms of one part at a time take memory.
ghost use Rattle.std.specs.Prelude.{◌≡◌, ◌≢◌, ◌<◌, ◌≤◌, ◌++◌, ℕ, List, [], IfOk, IfSome, OnOk, length, take};
ghost use Rattle.tau_tree.specs.Sound.{Sound};
ghost use Rattle.tau_script.specs.Openings.{program_opening};
ghost use Rattle.tau_text.specs.Meaning.{IsRunInput};
ghost use Rattle.tau_text.specs.Inner.Partial.{AreLines, IsReadFrom};

use crate::marks::place_of_mark;
use crate::parts::read_parts;
use crate::{InputError, InputFault, RunText};
use std::alloc::{AllocError, Global};
use tau_sexpr::read_forms;
use tau_steps::add_steps;

/// How many bytes a part has at most: 64 KiB. One with a line that is longer has more.
const PART: usize = 65_536;

/// The line that ends the forms of a program.
const MARK: &[u8] = b"(trace)";

/// A run text of which a front was read: what its bytes mean, and whether `(report)` was met, behind which no more steps stand.
#[derive(Drop)]
struct PartialText {
    text: RunText,
    has_report: bool,
}

/// The program and the trace that the forms of an input mean (docs/formats.md, "Run text"), where a line `(trace)` ends the
/// program's forms and no form runs over the end of a part. `None` where the text has to be read as a whole: where that isn't
/// so, or where the text has a fault. Beside the program and the trace, the forms of the program and then those of one part
/// at a time take memory; want of it is the error.
pub(crate) fn read_by_parts(alloc: Global, bytes: &[u8]) -> Result<Option<RunText>, AllocError>
    ensures text { IfOk result (λ o. IfSome o (λ r. IsRunInput bytes.now r.program r.trace.run)) }
    ensures sound { IfOk result (λ o. IfSome o (λ r. Sound r.program)) }
    ensures opening { IfOk result (λ o. IfSome o (λ r. r.trace.run.opening ≡ program_opening r.program)) }
{
    let Some(end) = mark_end(bytes) else {
        return Ok(None);
    };
    let (head, steps) = bytes.split_at(end);
    match text_of(alloc, head, steps) {
        Ok(text) => Ok(Some(text)),
        Err(InputError::Fault { .. }) => Ok(None),
        Err(InputError::NoMemory) => Err(AllocError),
    }
}

/// Where the first line `(trace)` ends; `None` where there is none.
fn mark_end(bytes: &[u8]) -> Option<usize>
    ensures within { IfSome result (λ end. end ≤ length bytes.now) }
    ensures lines { IfSome result (λ end. AreLines (take end bytes.now)) }
{
    let mut start = 0;
    for (place, byte) in bytes.iter().enumerate() {
        if *byte == b'\n' {
            if &bytes[start..place] == MARK {
                return Some(place + 1);
            }
            start = place + 1;
        }
    }
    None
}

/// The program and the trace that the forms of a head up to and with `(trace)`, and those of the bytes behind it, mean. Which
/// fault an error has tells nothing: it is that of a part.
fn text_of(alloc: Global, head: &[u8], steps: &[u8]) -> Result<RunText, InputError>
    requires { AreLines head.now }
    ensures text { IfOk result (λ r. IsRunInput (head.now ++ steps.now) r.program r.trace.run) }
    ensures sound { IfOk result (λ r. Sound r.program) }
{
    let mut partial = PartialText::begin(alloc, head)?;
    partial.add_parts(alloc, steps)?;
    Ok(partial.text)
}

impl PartialText {
    /// The text of which the bytes up to and with `(trace)` were read.
    fn begin(alloc: Global, head: &[u8]) -> Result<PartialText, InputError>
        ensures { IfOk result (IsReadFrom head.now) }
    {
        let forms = read_forms(alloc, head)?;
        let items = forms.items();
        let mark = place_of_mark(items, b"trace");
        if items.len() - mark != 1 {
            return Err(InputFault::NoTrace.at(mark as u64));
        }
        let text = read_parts(alloc, &forms, mark)?;
        Ok(PartialText {
            text,
            has_report: false,
        })
    }

    /// Reads the bytes behind those that were read, all of them, part by part.
    fn add_parts(&mut self, alloc: Global, bytes: &[u8]) -> Result<(), InputError>
        ensures { (before : List ℕ) → AreLines before → IsReadFrom before self.old
            → OnOk result (IsReadFrom (before ++ bytes.now) self.new) }
    {
        let mut rest = bytes;
        while !rest.is_empty() {
            let (part, behind) = rest.split_at(part_len(rest));
            self.add_part(alloc, part)?;
            rest = behind;
        }
        Ok(())
    }

    /// Reads the part behind the bytes that were read: its steps are in the trace then, and its forms are dropped.
    fn add_part(&mut self, alloc: Global, part: &[u8]) -> Result<(), InputError>
        ensures { (before : List ℕ) → AreLines before → IsReadFrom before self.old
            → OnOk result (IsReadFrom (before ++ part.now) self.new) }
    {
        let forms = read_forms(alloc, part)?;
        if self.has_report {
            return Ok(());
        }
        let items = forms.items();
        let end = place_of_mark(items, b"report");
        add_steps(alloc, &mut self.text.trace, &items[..end])?;
        self.has_report = end < items.len();
        Ok(())
    }
}

/// How many bytes the next part has: up to and with the last line feed among so many as a part has at most, or else up to and
/// with the first one behind them, or all.
fn part_len(bytes: &[u8]) -> usize
    ensures within { result ≤ length bytes.now }
    ensures some { bytes.now ≢ [] → 0 < result }
    ensures lines { result < length bytes.now → AreLines (take result bytes.now) }
{
    if bytes.len() <= PART {
        return bytes.len();
    }
    let (front, behind) = bytes.split_at(PART);
    if let Some(place) = front.iter().rposition(|byte| *byte == b'\n') {
        return place + 1;
    }
    match behind.iter().position(|byte| *byte == b'\n') {
        Some(place) => PART + place + 1,
        None => bytes.len(),
    }
}
