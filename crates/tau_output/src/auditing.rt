//! The command `audit`.
ghost use Rattle.std.specs.Prelude.{◌≡◌, ◌++◌, IfOk, IfErr, OnOk};
ghost use Rattle.tau_text.specs.Errors.{TellsInputFault};
ghost use Rattle.tau_text.specs.Faults.{IsRunFault};
ghost use Rattle.tau_value.specs.Written.{name_written};
ghost use Rattle.tau_output.specs.Audits.{AuditsAs, IsAudited, broken_line as line_of_broken};
ghost use Rattle.tau_output.specs.Inner.Ends.{end_of_audit, line_of_audit};

use crate::outputs::or_no_memory;
use crate::{End, Output};
use std::alloc::{AllocError, Global};
use tau_past::{Audit, audit};
use tau_points::Point;
use tau_text::{InputError, read_run_text};
use tau_trace::Trace;
use tau_value::Names;

/// The line that tells whether each checkpoint of the run of a run text is safe, and otherwise what breaks the first that
/// isn't (docs/formats.md, "Command line").
pub(crate) fn audit_run(alloc: Global, bytes: &[u8]) -> Result<Output, InputError>
    ensures output { IfOk result (λ o. AuditsAs bytes.now o.end o.text.items) }
    ensures fault { IfErr result (TellsInputFault (IsRunFault bytes.now)) }
{
    let input = read_run_text(alloc, bytes)?;
    or_no_memory(audited(alloc, &input.trace))
}

/// The same of a trace. The error is want of memory.
fn audited(alloc: Global, trace: &Trace) -> Result<Output, AllocError>
    ensures { IfOk result (λ o. IsAudited trace.now.run o.end o.text.items) }
{
    let found = audit(alloc, trace)?;
    Ok(Output {
        text: line_of(alloc, &trace.opening().names, found)?,
        end: end_of(found),
    })
}

/// How an audit ends.
fn end_of(found: Audit) -> End
    ensures { result ≡ end_of_audit found }
{
    match found {
        Audit::Safe => End::Done,
        Audit::Broken {
            checkpoint,
            point,
            fall,
        } => End::Broken {
            checkpoint,
            point,
            fall,
        },
    }
}

/// The line of an audit, where the starts have these names.
fn line_of(alloc: Global, names: &Names, found: Audit) -> Result<Vec<u8>, AllocError>
    ensures { IfOk result (λ v. v.items ≡ line_of_audit names.now found) }
{
    match found {
        Audit::Safe => Vec::from_slice(alloc, b"safe\n"),
        Audit::Broken {
            checkpoint,
            point,
            fall,
        } => broken_line(alloc, names, checkpoint, point, fall),
    }
}

/// The line for a checkpoint that isn't safe.
fn broken_line(
    alloc: Global,
    names: &Names,
    checkpoint: u32,
    point: Point,
    fall: u32,
) -> Result<Vec<u8>, AllocError>
    ensures { IfOk result (λ v. v.items ≡ line_of_broken names.now checkpoint point fall) }
{
    let Point {
        who,
        interval,
        incarnation,
    } = point;
    let mut line = format!(in alloc; "broken {checkpoint} ")?.into_bytes();
    add_name(alloc, &mut line, names, who)?;
    let rest = format!(in alloc; " {interval} {incarnation} {fall}\n")?;
    line.extend_from_slice(rest.as_bytes())?;
    Ok(line)
}

/// Adds the name of a start, or the number of another transactor.
fn add_name(alloc: Global, line: &mut Vec<u8>, names: &Names, who: u32) -> Result<(), AllocError>
    ensures { OnOk result (line.new.items ≡ line.old.items ++ name_written names.now who) }
{
    match names.item(who as usize) {
        Some(name) => line.extend_from_slice(name.bytes()),
        None => line.extend_from_slice(who.to_string(alloc)?.as_bytes()),
    }
}
