//! What stands at a terminal behind the fault lines of several files.
ghost use Rattle.std.specs.Prelude.{IfOk};
ghost use Rattle.cj_advice.specs.Hints.{IsOfLines};

use crate::cause::{cause_of, cause_word};
use cj_status::Status;
use std::alloc::{AllocError, Global};

/// The lines that say to a person where the causes of several files are told at length, the first of which is that of the status, with their ends.
#[tactic(auto, using(crate::proofs::HintLemmas::ended))]
pub fn hint_on_files(alloc: Global, status: &Status) -> Result<Vec<u8>, AllocError>
    ensures { IfOk result (λ text. IsOfLines text.items) }
{
    let mut text = Vec::new(alloc);
    push_on_files(&mut text, status)?;
    text.push(b'\n')?;
    Ok(text)
}

/// Appends the lines, the end of the last one left out.
fn push_on_files(text: &mut Vec<u8>, status: &Status) -> Result<(), AllocError> {
    text.extend_from_slice(
        b"hint: these are the first faults of their files; mending one may show another",
    )?;
    if let Some(cause) = cause_of(status) {
        let word = cause_word(cause);
        text.extend_from_slice(b"\nhint: conj --explain \"")?;
        text.extend_from_slice(word)?;
        text.extend_from_slice(b"\" says what helps")?;
        if word.len() <= SHORT {
            text.extend_from_slice(b", and so for each")?;
        }
    }
    Ok(())
}

/// Behind a cause of at most so many bytes the line has room for all that it says.
const SHORT: usize = 22;
