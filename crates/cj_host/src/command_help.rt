//! The help of one command, which is part of the help of all.
use cj_advice::verb_name;
use cj_words::{Verb, is_known};
use std::alloc::{AllocError, Global};

/// What the help of all says of a command: how it is written, its own paragraph, and its options as they stand there.
pub fn command_help(alloc: Global, help: &str, verb: Verb) -> Result<Vec<u8>, AllocError> {
    let mut text = Vec::from_slice(alloc, b"Usage: conj ")?;
    text.extend_from_slice(verb_name(verb).as_bytes())?;
    text.extend_from_slice(directory_of(verb))?;
    text.extend_from_slice(b" [OPTIONS]\n\n")?;
    push_paragraph(&mut text, help.as_bytes(), verb_name(verb).as_bytes())?;
    text.extend_from_slice(b"\nOptions, in any order, each at most once:\n")?;
    push_options(&mut text, help.as_bytes(), verb)?;
    Ok(text)
}

fn directory_of(verb: Verb) -> &'static [u8] {
    match verb {
        Verb::Screen | Verb::Check | Verb::Generate | Verb::Rewrite | Verb::Thin | Verb::Rescreen =>
            b" DIR",
        Verb::Selfrun => b"",
    }
}

/// Appends the paragraph that begins with a word: the lines from there to the next empty one.
fn push_paragraph(text: &mut Vec<u8>, help: &[u8], word: &[u8]) -> Result<(), AllocError> {
    let mut inside = false;
    for line in help.split(|b| *b == b'\n') {
        inside = !line.is_empty() && (inside || begins_with(line, word));
        if inside {
            push_line(text, line)?;
        }
    }
    Ok(())
}

/// Whether the word and a blank stand first in the line.
fn begins_with(line: &[u8], word: &[u8]) -> bool {
    match line.strip_prefix(word) {
        Some([b' ', ..]) => true,
        _ => false,
    }
}

/// Appends the options of the command, each with the lines behind it.
fn push_options(text: &mut Vec<u8>, help: &[u8], verb: Verb) -> Result<(), AllocError> {
    let mut inside = false;
    for line in help.split(|b| *b == b'\n') {
        inside = match option_in(line) {
            Some(name) => is_known(name, verb),
            None => inside && line.starts_with(b"      "),
        };
        if inside {
            push_line(text, line)?;
        }
    }
    Ok(())
}

/// The option that a line begins to tell of.
fn option_in(line: &[u8]) -> Option<&[u8]> {
    let told = line.strip_prefix(b"  ")?;
    if told.starts_with(b"--") {
        told.split(|b| *b == b' ').next()
    } else {
        None
    }
}

fn push_line(text: &mut Vec<u8>, line: &[u8]) -> Result<(), AllocError> {
    text.extend_from_slice(line)?;
    text.push(b'\n')?;
    Ok(())
}
