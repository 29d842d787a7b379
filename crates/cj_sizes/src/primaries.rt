//! Reading a file of primaries.
ghost use Rattle.std.specs.Prelude.{◌≡◌, ◌^◌, ◌<◌, ◌≤◌, [], IfOk, List, MatchResult, ℕ, length, map};
ghost use Rattle.std.specs.Borrow.{Bor};
ghost use Rattle.cj_kvn.specs.Lines.{reading};
ghost use Rattle.cj_kvn.specs.declared.text_fault.TextFault.TheVariants.{Memory};
ghost use Rattle.cj_kvn.specs.Faults.{Gives, Tells};
ghost use Rattle.cj_kvn.specs.Fields.{fields};
ghost use Rattle.cj_kvn.specs.Ranges.{IsWithin, text_at};
ghost use Rattle.cj_sizes.specs.Primaries as spec;

use crate::primaries_draft::PrimariesDraft;
use cj_base::Text;
use cj_formats::PrimariesCause;
use cj_kvn::{LineCursor, Range32, TextFault, field};
use std::alloc::{AllocError, Global};
use std::collections::BTreeSet;

/// Why a file of primaries is not read.
pub type PrimariesFault = TextFault<PrimariesCause>;

/// The designators that the bytes of a file name as primaries, in the order of its lines, where objects have these designators.
///
/// # Errors
///
/// The first fault of the file, at its line.
pub fn read_primaries(
    alloc: Global,
    known: &[&[u8]],
    bytes: &[u8],
) -> Result<Vec<Text>, PrimariesFault>
    requires { length bytes.now < 2 ^ 32 }
    ensures value { Gives (λ v. v.items) result (spec.reading (map (λ (id : Bor (List ℕ)). id.now) known.now) bytes.now) }
    ensures says { IfOk result (λ v. spec.Says (map (λ (id : Bor (List ℕ)). id.now) known.now) bytes.now v.items) }
    ensures accepts { (ids : List (List ℕ)) → spec.Says (map (λ (id : Bor (List ℕ)). id.now) known.now) bytes.now ids
        → MatchResult result (λ v. v.items ≡ ids) (λ fault. fault ≡ Memory) }
{
    let known = set_of(alloc, known)?;
    ids_said(alloc, &known, bytes)
}

/// What the lines of a file name. A line without a form comes before what is wrong with an earlier one.
fn ids_said(
    alloc: Global,
    known: &BTreeSet<&[u8]>,
    bytes: &[u8],
) -> Result<Vec<Text>, PrimariesFault>
    requires { length bytes.now < 2 ^ 32 }
    ensures { (ids : List (List ℕ)) → spec.Holds known.now ids → Gives (λ v. v.items) result (spec.ids_said ids [] (reading bytes.now)) }
{
    let mut draft = PrimariesDraft::new(alloc);
    let mut lines = LineCursor::new(bytes);
    while let Some(line) = lines.next_line()? {
        draft = match draft.with_line(alloc, known, bytes, line.kind) {
            Ok(next) => next,
            Err(refused) => {
                lines.check_rest()?;
                return Err(refused.at(line.number));
            }
        };
    }
    Ok(draft.into_ids())
}

/// The one field of a row.
///
/// # Errors
///
/// `Form`.
pub(crate) fn id_said(bytes: &[u8], text: Range32) -> Result<&[u8], PrimariesCause>
    requires within { IsWithin bytes.now text }
    requires short { length bytes.now < 2 ^ 32 }
    ensures { Tells (λ (id : Bor (List ℕ)). id.now) result (spec.id_of_fields (fields (text_at bytes.now text))) }
{
    let Some(id) = field(bytes, text, 0) else {
        return Err(PrimariesCause::Form);
    };
    match field(bytes, text, 1) {
        None => Ok(id.text(bytes)),
        Some(_) => Err(PrimariesCause::Form),
    }
}

/// Designators as a set.
fn set_of<'a>(alloc: Global, ids: &[&'a [u8]]) -> Result<BTreeSet<&'a [u8]>, AllocError>
    ensures { IfOk result (λ set. spec.Holds set (map (λ (id : Bor (List ℕ)). id.now) ids.now)) }
{
    let mut set = BTreeSet::new(alloc);
    for id in ids {
        set.insert(*id)?;
    }
    Ok(set)
}

/// The designators of texts as a set.
fn set_of_texts(alloc: Global, texts: &[Text]) -> Result<BTreeSet<&[u8]>, AllocError>
    ensures { IfOk result (λ set. spec.Holds set texts.now) }
{
    let mut set = BTreeSet::new(alloc);
    for text in texts {
        set.insert(text.as_slice())?;
    }
    Ok(set)
}

/// Which of these designators are among those that are named.
pub fn are_named(alloc: Global, named: &[Text], ids: &[&[u8]]) -> Result<Vec<bool>, AllocError>
    ensures { IfOk result (λ marks. marks.items ≡ map (λ (id : Bor (List ℕ)). spec.has_id named.now id.now) ids.now) }
{
    let set = set_of_texts(alloc, named)?;
    let mut marks = Vec::with_capacity(alloc, ids.len())?;
    for id in ids {
        marks.push(set.contains(id))?;
    }
    Ok(marks)
}
