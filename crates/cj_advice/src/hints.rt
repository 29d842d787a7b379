//! What stands behind a fault line at a terminal.
ghost use Rattle.std.specs.Prelude.{IfOk};
ghost use Rattle.cj_advice.specs.Hints.{IsOfLines};

use crate::cause::{Cause, file_reason, limit_cause};
use crate::headers::{hint_on_form, hint_on_header};
use crate::hint::Hint;
use crate::ranges::range_of;
use crate::slip_lines::push_slip;
use crate::slips::slip_in;
use crate::words::advice_on;
use cj_formats::{CertCause, CheckCause};
use cj_status::{CertificateCause, Status};
use cj_words::{UsageFault, Word};
use std::alloc::{AllocError, Global};

/// The lines that say to a person what is meant by the end of a run and what helps, with their ends. The words are those of the command
/// line, none where they could not be read.
#[tactic(auto, using(crate::proofs::HintLemmas::ended))]
pub fn hint_text(
    alloc: Global,
    status: &Status,
    words: Option<&[Word]>,
) -> Result<Vec<u8>, AllocError>
    ensures { IfOk result (λ text. IsOfLines text.items) }
{
    let mut text = Vec::new(alloc);
    push_on_status(&mut text, status, words)?;
    text.push(b'\n')?;
    Ok(text)
}

/// Appends the lines of a status, the end of the last one left out.
fn push_on_status(
    text: &mut Vec<u8>,
    status: &Status,
    words: Option<&[Word]>,
) -> Result<(), AllocError> {
    match status {
        Status::Ok => push_hint(text, DONE),
        Status::NotAccepted { line, cause } => push_hint(text, hint_on_refusal(*line, *cause)),
        Status::Usage(UsageFault::Words) => push_on_words(text, words),
        Status::Usage(UsageFault::Value { option }) => push_hint(text, range_of(*option)),
        Status::BadFile { cause, .. } => {
            push_hint(text, advice_on(Cause::File(file_reason(*cause))).hint())
        }
        Status::ReadFault => push_hint(text, advice_on(Cause::ReadFault).hint()),
        Status::WriteFault => push_hint(text, advice_on(Cause::WriteFault).hint()),
        Status::Limit(fault) => push_hint(text, advice_on(Cause::Limit(limit_cause(fault))).hint()),
        Status::OutOfMemory => push_hint(text, advice_on(Cause::OutOfMemory).hint()),
    }
}

/// What is meant by a certificate or a report that is refused at this line.
fn hint_on_refusal(line: u32, cause: CertificateCause) -> Hint {
    match cause {
        CertificateCause::Refused(CheckCause::Header) => hint_on_header(line),
        CertificateCause::Text(CertCause::Form) => hint_on_form(line),
        _ => advice_on(Cause::Certificate(cause)).hint(),
    }
}

fn push_on_words(text: &mut Vec<u8>, words: Option<&[Word]>) -> Result<(), AllocError> {
    let Some(words) = words else {
        return push_hint(text, NO_TEXT);
    };
    match slip_in(words) {
        Some(slip) => push_slip(text, slip),
        None => push_hint(text, advice_on(Cause::Words).hint()),
    }
}

const DONE: Hint = Hint {
    means: "all went well",
    helps: "nothing is left to do",
};

const NO_TEXT: Hint = Hint {
    means: "a word of the command line is not UTF-8",
    helps: "rename what it names, or go there and write . for the directory",
};

fn push_hint(text: &mut Vec<u8>, hint: Hint) -> Result<(), AllocError> {
    text.extend_from_slice(b"hint: ")?;
    text.extend_from_slice(hint.means.as_bytes())?;
    text.extend_from_slice(b"\nhint: ")?;
    text.extend_from_slice(hint.helps.as_bytes())
}
