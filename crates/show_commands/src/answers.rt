//! What commands write, and their statuses.
use crate::calls::still;
use crate::words::words_of;
use std::alloc::{AllocError, Global};
use tau_cli::{Status, number};
use tau_io::{SteadySink, SteadySource};

/// Adds how many lines a text has, and so many of the last ones.
pub(crate) fn add_last_lines(
    alloc: Global,
    text: &mut Vec<u8>,
    written: &[u8],
    last: usize,
) -> Result<(), AllocError> {
    let written = str::from_utf8(written).unwrap_or("");
    let count = written.lines().count();
    let mut shown = String::new(alloc);
    writeln!(shown, "; lines: {count}")?;
    for line in written.lines().skip(count.saturating_sub(last)) {
        writeln!(shown, "{line}")?;
    }
    text.extend_from_slice(shown.as_bytes())
}

/// Adds how many steps a run text has, and the last two.
pub(crate) fn add_last_steps(
    alloc: Global,
    text: &mut Vec<u8>,
    run: &[u8],
) -> Result<(), AllocError> {
    let run = str::from_utf8(run).unwrap_or("");
    let (_, steps) = run.split_once("(trace)\n").unwrap_or((run, ""));
    let (steps, _) = steps.split_once("(report)\n").unwrap_or((steps, ""));
    let mut shown = String::new(alloc);
    let count = steps.lines().count();
    writeln!(shown, "; {count} steps, and the last two are")?;
    for step in steps.lines().skip(count.saturating_sub(2)) {
        writeln!(shown, "{step}")?;
    }
    text.extend_from_slice(shown.as_bytes())
}

/// Adds the number of the status of `check` on a run text, and what it writes.
pub(crate) fn add_check(alloc: Global, text: &mut Vec<u8>, run: &[u8]) -> Result<(), AllocError> {
    let words = words_of(alloc, "check")?;
    let mut input = SteadySource::new(Vec::from_slice(alloc, run)?);
    let mut output = SteadySink::new(alloc);
    let status = still(alloc, &words, &mut input, &mut output);
    text.extend_from_slice(b"; check ")?;
    text.extend_from_slice(number(&status).to_string(alloc)?.as_bytes())?;
    text.push(b'\n')?;
    text.extend_from_slice(output.bytes())
}

/// Adds a line with the number of a status, and the line that the program prints for it.
pub(crate) fn add_status(
    alloc: Global,
    text: &mut Vec<u8>,
    status: Status,
) -> Result<(), AllocError> {
    text.extend_from_slice(b"; ")?;
    text.extend_from_slice(number(&status).to_string(alloc)?.as_bytes())?;
    if status != Status::Done {
        text.push(b' ')?;
        text.extend_from_slice(status.to_string(alloc)?.as_bytes())?;
    }
    text.push(b'\n')?;
    Ok(())
}
