//! The program of an input, whose forms are read some at a time: once for what they define, and then, where they weren't
//! kept, once more for the program. So of a text that is no program few forms take memory at once.
ghost use Rattle.std.specs.Prelude.{◌≡◌, ◌||◌, ◌++◌, nat_lt, List, [], IfOk, IfErr, OnOk};
ghost use Rattle.tau_sexpr.specs.Tree.{Tree};
ghost use Rattle.tau_sexpr.specs.Spelling.{IsSpelling};
ghost use Rattle.tau_sexpr.specs.Rest.{forms_from, behind};
ghost use Rattle.tau_tree.specs.Sound.{Sound};
ghost use Rattle.tau_forms.specs.Faults.{IsFault};
ghost use Rattle.tau_forms.specs.Readings.{HasTaken, ComesNext};
ghost use Rattle.tau_text.specs.Errors.{TellsInputFault};
ghost use Rattle.tau_text.specs.Faults.{HasFault, IsProgramFault};
ghost use Rattle.tau_text.specs.Meaning.{IsProgram};
ghost use Rattle.tau_text.specs.Inner.Surveyed.{joined, IsFront, IsSurvey, IsSurveyOf, IsOutlineOf, IsBegun, NoFault};

use crate::InputError;
use crate::front::Front;
use crate::marks::place_of_mark;
use std::alloc::{AllocError, Global};
use tau_forms::{Outline, ProgramBuilder, ProgramError};
use tau_sexpr::{Forms, read_some};
use tau_tree::Program;

/// What a first reading of an input finds: what its forms define as those of a program, and whether `(trace)` is among them.
#[derive(Drop)]
pub(crate) struct Survey {
    pub(crate) outline: Outline,
    pub(crate) marked: bool,
}

impl Survey {
    /// Before the first form.
    fn new(alloc: Global) -> Survey
        ensures { IsSurvey [] result }
    {
        Survey {
            outline: Outline::new(alloc),
            marked: false,
        }
    }

    /// Goes on behind the next forms. The error is want of memory.
    fn add(&mut self, forms: &Forms) -> Result<(), AllocError>
        ensures { OnOk result ((before : List Tree) → IsSurvey before self.old → IsSurvey (before ++ forms.now) self.new) }
    {
        let items = forms.items();
        self.outline.add(items)?;
        self.marked = or_marked(self.marked, place_of_mark(items, b"trace"), items.len());
        Ok(())
    }
}

/// The first reading of all forms of an input, with those of the front in which each is a list of a kind that programs
/// have. The error is the first fault of its bytes, or want of memory.
pub(crate) fn survey_of(alloc: Global, bytes: &[u8]) -> Result<(Survey, Front), InputError>
    ensures survey { IfOk result (λ r. IsSurveyOf bytes.now r.0) }
    ensures front { IfOk result (λ r. IsFront bytes.now r.1) }
    ensures fault { IfErr result (TellsInputFault (HasFault NoFault bytes.now)) }
{
    let mut survey = Survey::new(alloc);
    let mut front = Front::new(alloc);
    let mut at = 0;
    while at < bytes.len() {
        let (forms, next) = read_some(alloc, bytes, at)?;
        survey.add(&forms)?;
        if survey.outline.others() == 0 {
            front.keep(forms, at, next)?;
        }
        at = next;
    }
    Ok((survey, front))
}

/// The program of an input, of whose forms this is the outline, by those that were kept and a second reading of the others.
pub(crate) fn program_built(
    alloc: Global,
    bytes: &[u8],
    outline: Outline,
    front: Front,
) -> Result<Program, InputError>
    requires outline { IsOutlineOf bytes.now outline }
    requires front { IsFront bytes.now front }
    ensures program { IfOk result (IsProgram bytes.now) }
    ensures sound { IfOk result Sound }
    ensures fault { IfErr result (TellsInputFault (IsProgramFault bytes.now)) }
{
    let mut builder = outline.builder(alloc)?;
    add_pieces(alloc, front.pieces, &mut builder)?;
    add_rest(alloc, bytes, front.end, &mut builder)?;
    Ok(builder.finish()?)
}

/// Adds forms that were kept to the builder of a program. Each piece is dropped once it is added.
fn add_pieces(
    alloc: Global,
    pieces: Vec<Forms>,
    builder: &mut ProgramBuilder,
) -> Result<(), ProgramError>
    requires { ComesNext builder.old (joined pieces.items) }
    ensures taken { OnOk result ((ts before after : List Tree) → ts ≡ before ++ (joined pieces.items ++ after)
        → HasTaken ts before builder.old → HasTaken ts (before ++ joined pieces.items) builder.new) }
    ensures fault { IfErr result (λ e. (ts before after : List Tree) → ts ≡ before ++ (joined pieces.items ++ after)
        → HasTaken ts before builder.old → IsFault ts e) }
{
    for forms in pieces {
        builder.add(alloc, forms.items())?;
    }
    Ok(())
}

/// Adds the forms of an input from a place on, which are read some at a time, to the builder of its program.
fn add_rest(
    alloc: Global,
    bytes: &[u8],
    start: usize,
    builder: &mut ProgramBuilder,
) -> Result<(), InputError>
    requires { IsBegun bytes.now start builder.old }
    ensures taken { OnOk result ((ts front : List Tree) → IsSpelling bytes.now ts
        → forms_from bytes.now 0 ≡ behind front (forms_from bytes.now start)
        → HasTaken ts front builder.old → HasTaken ts ts builder.new) }
    ensures fault { IfErr result (TellsInputFault (IsProgramFault bytes.now)) }
{
    let mut at = start;
    while at < bytes.len() {
        let (forms, next) = read_some(alloc, bytes, at)?;
        builder.add(alloc, forms.items())?;
        at = next;
    }
    Ok(())
}

/// Whether a mark was met before, or stands at a place among so many forms.
fn or_marked(before: bool, place: usize, len: usize) -> bool
    ensures { result ≡ (before || nat_lt place len) }
{
    before || place < len
}
