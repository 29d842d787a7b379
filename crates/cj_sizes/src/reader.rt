//! Reading a file of sizes.
ghost use Rattle.std.specs.Prelude.{◌≡◌, ◌^◌, ◌<◌, [], IfOk, IfErr, List, MatchResult, length};
ghost use Rattle.cj_kvn.specs.Lines.{reading};
ghost use Rattle.cj_kvn.specs.declared.text_fault.TextFault.TheVariants.{Memory};
ghost use Rattle.cj_sizes.specs.Grammar.{Says};
ghost use Rattle.cj_sizes.specs.Reading as spec;
ghost use Rattle.cj_kvn.specs.Faults.{Gives};
ghost use Rattle.cj_sizes.specs.Sizes.{Size, sizes_of};

use crate::draft::SizesDraft;
use crate::fault::SizesFault;
use crate::size_line::SizeLine;
use cj_kvn::LineCursor;
use std::alloc::Global;

/// The sizes that the bytes of a file say, in the order of its lines.
///
/// # Errors
///
/// The first fault of the file, at its line.
pub fn read_sizes(alloc: Global, bytes: &[u8]) -> Result<Vec<SizeLine>, SizesFault>
    requires { length bytes.now < 2 ^ 32 }
    ensures value { Gives (λ v. sizes_of v.items) result (spec.reading bytes.now) }
    ensures says { IfOk result (λ v. Says bytes.now (sizes_of v.items)) }
    ensures accepts { (sizes : List Size) → Says bytes.now sizes → MatchResult result (λ v. sizes_of v.items ≡ sizes) (λ fault. fault ≡ Memory) }
{
    sizes_said(alloc, bytes)
}

/// What the lines of a file say. A line without a form comes before what is wrong with an earlier one.
fn sizes_said(alloc: Global, bytes: &[u8]) -> Result<Vec<SizeLine>, SizesFault>
    requires { length bytes.now < 2 ^ 32 }
    ensures { Gives (λ v. sizes_of v.items) result (spec.sizes_said [] (reading bytes.now)) }
{
    let mut draft = SizesDraft::new(alloc);
    let mut lines = LineCursor::new(bytes);
    while let Some(line) = lines.next_line()? {
        draft = match draft.with_line(alloc, bytes, line.kind) {
            Ok(next) => next,
            Err(refused) => {
                lines.check_rest()?;
                return Err(refused.at(line.number));
            }
        };
    }
    Ok(draft.into_sizes())
}
