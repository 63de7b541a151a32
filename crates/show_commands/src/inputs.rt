//! The inputs that sections spell.
use std::alloc::{AllocError, Global};

/// The input that a section spells: its bytes, where a line `@COUNT TEXT` stands for the text so many times, without line feeds. In such
/// a text `{}` is the number of the time, counted from 0, and two hexadecimal digits in braces are a byte.
pub(crate) fn input_of(alloc: Global, section: &[u8]) -> Result<Vec<u8>, AllocError> {
    let mut input = Vec::new(alloc);
    let mut rest = section;
    for _ in 0..section.len() {
        let Some((line, after)) = line_of(rest) else {
            break;
        };
        add_line(alloc, &mut input, line)?;
        rest = after;
    }
    input.extend_from_slice(rest)?;
    Ok(input)
}

/// The first line, without its line feed, and what follows it.
pub(crate) fn line_of(bytes: &[u8]) -> Option<(&[u8], &[u8])> {
    let end = bytes.iter().position(|byte| *byte == b'\n')?;
    Some((&bytes[..end], &bytes[end + 1..]))
}

/// Adds what a line spells.
fn add_line(alloc: Global, input: &mut Vec<u8>, line: &[u8]) -> Result<(), AllocError> {
    match repeated(line) {
        Some((count, text)) => add_times(alloc, input, count, text),
        None => {
            input.extend_from_slice(line)?;
            input.push(b'\n')?;
            Ok(())
        }
    }
}

/// The count and the text of a line `@COUNT TEXT`.
fn repeated(line: &[u8]) -> Option<(u32, &str)> {
    let line = str::from_utf8(line).unwrap_or("").strip_prefix("@")?;
    let (count, text) = line.split_once(" ")?;
    match count.parse() {
        Ok(count) => Some((count, text)),
        Err(_) => None,
    }
}

/// Adds a text so many times.
fn add_times(alloc: Global, input: &mut Vec<u8>, count: u32, text: &str) -> Result<(), AllocError> {
    for number in 0..count {
        add_time(alloc, input, text, number)?;
    }
    Ok(())
}

/// Adds the text for the time of this number.
fn add_time(alloc: Global, input: &mut Vec<u8>, text: &str, number: u32) -> Result<(), AllocError> {
    let mut rest = text;
    for _ in 0..text.len() {
        let Some((before, braced)) = rest.split_once("{") else {
            break;
        };
        let (inside, after) = braced.split_once("}").unwrap_or((braced, ""));
        input.extend_from_slice(before.as_bytes())?;
        add_inside(alloc, input, inside, number)?;
        rest = after;
    }
    input.extend_from_slice(rest.as_bytes())
}

/// Adds what stands for the inside of braces.
fn add_inside(
    alloc: Global,
    input: &mut Vec<u8>,
    inside: &str,
    number: u32,
) -> Result<(), AllocError> {
    match u8::from_str_radix(inside, 16) {
        Ok(byte) => {
            input.push(byte)?;
            Ok(())
        }
        Err(_) => input.extend_from_slice(number.to_string(alloc)?.as_bytes()),
    }
}
