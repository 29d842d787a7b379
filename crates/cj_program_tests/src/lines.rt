//! Command lines, and what is wrong with them.
use cj_base::Text;
use cj_words::{UsageFault, Word, read_command};
use std::alloc::{AllocError, Global};

/// The words of a command line that are separated by spaces.
pub fn words(alloc: Global, line: &str) -> Result<Vec<Word>, AllocError> {
    let mut words = Vec::new(alloc);
    for word in line.as_bytes().split(|b| *b == b' ') {
        words.push(Text::copy_of(alloc, word)?)?;
    }
    Ok(words)
}

/// What is wrong with a command line, where anything is.
fn fault(alloc: Global, line: &str) -> Result<Option<UsageFault>, AllocError> {
    let words = words(alloc, line)?;
    Ok(read_command(&words).err())
}

/// The fault of the words of a line that ends with an option, and a value that may hold spaces.
pub fn fault_of(
    alloc: Global,
    option: &str,
    value: &[u8],
) -> Result<Option<UsageFault>, AllocError> {
    let mut words = words(alloc, option)?;
    words.push(Text::copy_of(alloc, value)?)?;
    Ok(read_command(&words).err())
}

/// A name of this many letters.
pub fn name_of(alloc: Global, count: usize) -> Result<Vec<u8>, AllocError> {
    let mut name = Vec::new(alloc);
    for _ in 0..count {
        name.push(b'x')?;
    }
    Ok(name)
}

/// A command line, and what is wrong with it.
pub type Case<'a> = (&'a str, Option<UsageFault>);

/// The place of the first line with which something else is wrong.
pub fn first_wrong(alloc: Global, cases: &[Case]) -> Result<Option<usize>, AllocError> {
    for (place, (line, expected)) in cases.iter().enumerate() {
        if fault(alloc, line)? != *expected {
            return Ok(Some(place));
        }
    }
    Ok(None)
}
