//! Causes at length.
use crate::cause::{Cause, cause_word};
use crate::found::EVERY;
use crate::words::advice_on;
use std::alloc::{AllocError, Global};

/// What a cause means at length, with lines that are refused and lines that are taken, and what helps.
pub fn explanation(alloc: Global, cause: Cause) -> Result<Vec<u8>, AllocError> {
    let advice = advice_on(cause);
    let mut text = Vec::new(alloc);
    text.extend_from_slice(cause_word(cause))?;
    text.extend_from_slice(b": ")?;
    text.extend_from_slice(advice.means.as_bytes())?;
    text.extend_from_slice(b"\n\n")?;
    text.extend_from_slice(advice.more.as_bytes())?;
    text.extend_from_slice(b"\nRefused:\n")?;
    push_indented(&mut text, advice.wrong.as_bytes())?;
    text.extend_from_slice(b"\nTaken:\n")?;
    push_indented(&mut text, advice.right.as_bytes())?;
    text.extend_from_slice(b"\nWhat helps:\n")?;
    push_indented(&mut text, advice.helps.as_bytes())?;
    Ok(text)
}

/// Appends lines with four blanks before each.
fn push_indented(text: &mut Vec<u8>, lines: &[u8]) -> Result<(), AllocError> {
    for line in lines.split(|b| *b == b'\n') {
        if !line.is_empty() {
            text.extend_from_slice(b"    ")?;
            text.extend_from_slice(line)?;
            text.push(b'\n')?;
        }
    }
    Ok(())
}

/// All causes, each with what it means in a line.
pub fn list_of_causes(alloc: Global) -> Result<Vec<u8>, AllocError> {
    let mut text = Vec::new(alloc);
    for cause in &EVERY {
        let word = cause_word(*cause);
        text.extend_from_slice(word)?;
        for _ in word.len()..ALIGNED {
            text.push(b' ')?;
        }
        text.extend_from_slice(b"  ")?;
        text.extend_from_slice(advice_on(*cause).means.as_bytes())?;
        text.push(b'\n')?;
    }
    Ok(text)
}

/// Causes of at most so many bytes are filled up to it.
const ALIGNED: usize = 22;

/// The causes by their words alone, for one who asked for another.
pub fn known_causes_text(alloc: Global) -> Result<Vec<u8>, AllocError> {
    let mut text = Vec::from_slice(alloc, b"conj: --explain takes one of these causes:\n ")?;
    let mut column: usize = 1;
    let mut end: &[u8] = b"";
    for cause in &EVERY {
        let word = cause_word(*cause);
        text.extend_from_slice(end)?;
        column = column.saturating_add(word.len()).saturating_add(2);
        if column > WIDTH {
            text.extend_from_slice(b"\n ")?;
            column = word.len().saturating_add(3);
        }
        text.push(b' ')?;
        text.extend_from_slice(word)?;
        end = b",";
    }
    text.push(b'\n')?;
    Ok(text)
}

/// How many bytes a line has at most.
const WIDTH: usize = 78;
