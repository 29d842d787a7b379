//! In what a certificate differs from the case, as lines.
ghost use Rattle.std.specs.Prelude.{IfOk};
ghost use Rattle.cj_advice.specs.Hints.{IsOfLines};

use cj_base::Tick;
use cj_epoch::epoch_text;
use cj_io::{Difference, Differing};
use std::alloc::{AllocError, Global};

/// The two lines that say to a person what a certificate states and what the case has, with their ends.
#[tactic(auto, using(crate::proofs::HintLemmas::ended))]
pub fn difference_text(alloc: Global, difference: Difference) -> Result<Vec<u8>, AllocError>
    ensures { IfOk result (λ text. IsOfLines text.items) }
{
    let mut text = Vec::new(alloc);
    push_value(alloc, &mut text, difference.of, difference.stated)?;
    text.extend_from_slice(b" in the certificate,\n")?;
    push_value(alloc, &mut text, difference.of, difference.asked)?;
    text.extend_from_slice(b" here")?;
    text.push(b'\n')?;
    Ok(text)
}

fn push_value(
    alloc: Global,
    text: &mut Vec<u8>,
    of: Differing,
    value: u64,
) -> Result<(), AllocError> {
    text.extend_from_slice(b"hint: ")?;
    match of {
        Differing::Start => push_tick(text, b"the window begins ", value),
        Differing::Stop => push_tick(text, b"the window ends ", value),
        Differing::Threshold => {
            let said = format!(in alloc; "the threshold is {value} nm")?;
            text.extend_from_slice(said.as_bytes())
        }
        Differing::Objects => {
            let said = format!(in alloc; "the number of objects is {value}")?;
            text.extend_from_slice(said.as_bytes())
        }
        Differing::Size { object } => {
            let said = format!(in alloc; "the size of object {object} is {value} nm")?;
            text.extend_from_slice(said.as_bytes())
        }
    }
}

fn push_tick(text: &mut Vec<u8>, words: &[u8], micros: u64) -> Result<(), AllocError> {
    text.extend_from_slice(words)?;
    text.extend_from_slice(&epoch_text(Tick::nearest(micros)))
}
