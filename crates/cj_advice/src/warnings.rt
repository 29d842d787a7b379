//! What a person may not have meant, as a line.
ghost use Rattle.std.specs.Prelude.{IfOk, IsTrue, OnOk};
ghost use Rattle.std.specs.List.{list_all};
ghost use Rattle.cj_advice.specs.Warnings.{IsAppended, IsWarning, is_shown};

use cj_io::Warning;
use cj_status::push_name;
use std::alloc::{AllocError, Global};

/// The line that warns of so many things of a kind, of which this is the name of the first, with its end.
pub fn warning_text(
    alloc: Global,
    warning: Warning,
    count: u64,
    first: &[u8],
) -> Result<Vec<u8>, AllocError>
    ensures { IfOk result (λ text. IsWarning text.items) }
{
    let mut text = Vec::from_slice(alloc, b"conj: warning: ")?;
    text.extend_from_slice(words_of(warning))?;
    push_tally(alloc, &mut text, count, first)?;
    text.push(b'\n')?;
    Ok(text)
}

fn words_of(warning: Warning) -> &'static [u8]
    ensures { IsTrue (list_all is_shown result.now) }
{
    match warning {
        Warning::NoFiles => b"the directory has no file",
        Warning::NothingTaken => b"none of the files has a name that ends with the suffix",
        Warning::LeftOut => b"files that are not taken, though their names are nearly right",
        Warning::SameObject => b"files with the OBJECT_ID of a file before them",
        Warning::OutsideWindow => b"none of the objects has a state in the window",
        Warning::NoState => b"objects without a state in the window",
        Warning::StrangeSize => b"lines of the file of sizes that name no object",
        Warning::NoMessage => b"encounters without a message, for want of a covariance",
    }
}

/// Appends how many there are, and the name of the first, where there are any.
fn push_tally(alloc: Global, text: &mut Vec<u8>, count: u64, first: &[u8]) -> Result<(), AllocError>
    ensures { OnOk result (IsAppended text.old.items text.new.items) }
{
    if count == 0 {
        return Ok(());
    }
    let number = format!(in alloc; ": {count}, first ")?;
    text.extend_from_slice(number.as_bytes())?;
    push_name(text, first)
}
