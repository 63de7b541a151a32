//! Texts that are looked for in what commands write.
use std::alloc::{AllocError, Global};

/// Adds, for each line `;? TEXT` of an input, how many of the written lines hold the text, and the text.
pub(crate) fn add_counts(
    alloc: Global,
    text: &mut Vec<u8>,
    input: &[u8],
    written: &[u8],
) -> Result<(), AllocError> {
    let input = text_in(input);
    let written = text_in(written);
    for line in input.lines() {
        add_named(alloc, text, line, written)?;
    }
    Ok(())
}

/// Bytes as a text, or the empty one where they are none.
fn text_in(bytes: &[u8]) -> &str {
    str::from_utf8(bytes).unwrap_or("")
}

/// Adds how many of the written lines hold the text that a line names, if it names one.
fn add_named(
    alloc: Global,
    text: &mut Vec<u8>,
    line: &str,
    written: &str,
) -> Result<(), AllocError> {
    let (head, wanted) = line.split_once(";? ").unwrap_or((line, ""));
    if wanted.is_empty() || !head.is_empty() {
        return Ok(());
    }
    add_count(alloc, text, written, wanted)
}

/// Adds how many lines hold a text, and the text.
fn add_count(
    alloc: Global,
    text: &mut Vec<u8>,
    lines: &str,
    wanted: &str,
) -> Result<(), AllocError> {
    let count = lines.lines().filter(|line| line.contains(wanted)).count();
    text.extend_from_slice(format!(in alloc; "{count} {wanted}\n")?.as_bytes())
}
