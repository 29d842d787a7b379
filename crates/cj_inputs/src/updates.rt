//! The files of a folder that are updates of others, and those that are not.
ghost use Rattle.std.specs.Prelude.{◌≡◌, ◌<◌, ◌≤◌, ◌^◌, length, not, filter, IfOk, All};
ghost use Rattle.cj_inputs.specs.InputFiles.{plain_apart};
ghost use Rattle.cj_inputs.specs.Updates as spec;

use crate::apart::Apart;
use crate::input_files::{Entry, is_taken, list_inputs};
use cj_io::Name;
use std::alloc::{AllocError, Global};

/// The files whose names end with the suffix and that are no updates, but for those apart, in byte order of names, equal names in the
/// folder's order.
#[tactic(auto, unfolding(crate::specs::Updates::base_of))]
pub fn list_base(
    alloc: Global,
    names: &[Name],
    suffix: &[u8],
    update: &[u8],
    apart: Apart<'_>,
) -> Result<Vec<Entry>, AllocError>
    requires { length names.now < 2 ^ 32 }
    ensures value { IfOk result (λ entries. entries.items ≡ spec.base_of suffix.now update.now (plain_apart apart.entry) names.now) }
    ensures few { IfOk result (λ entries. length entries.items ≤ length names.now) }
    ensures numbers { IfOk result (λ entries. All (λ entry. entry.number < length names.now) entries.items) }
{
    let mut base = list_inputs(alloc, names, suffix, apart)?;
    leave_base(&mut base, suffix, update, apart);
    Ok(base)
}

/// Leaves the files that are no updates.
fn leave_base(entries: &mut Vec<Entry>, suffix: &[u8], update: &[u8], apart: Apart<'_>)
    ensures { entries.new.items ≡ filter (λ entry. not (spec.is_update suffix.now update.now (plain_apart apart.entry) entry.name)) entries.old.items }
{
    entries.retain(|entry| !is_update(entry.name.as_slice(), suffix, update, apart));
}

/// The updates of files whose names end with the suffix: of each name the last one in the folder's order, in byte order of their own names.
#[tactic(auto, unfolding(crate::specs::Updates::updates_of))]
pub fn list_updates(
    alloc: Global,
    names: &[Name],
    suffix: &[u8],
    update: &[u8],
    apart: Apart<'_>,
) -> Result<Vec<Entry>, AllocError>
    requires { length names.now < 2 ^ 32 }
    ensures value { IfOk result (λ entries. entries.items ≡ spec.updates_of suffix.now update.now (plain_apart apart.entry) names.now) }
    ensures few { IfOk result (λ entries. length entries.items ≤ length names.now) }
    ensures numbers { IfOk result (λ entries. All (λ entry. entry.number < length names.now) entries.items) }
{
    let entries = list_inputs(alloc, names, update, apart)?;
    let last = last_updates(alloc, &entries, suffix, update)?;
    Ok(last)
}

/// Of files in order of names those that are updates and that no other of their name follows.
fn last_updates(
    alloc: Global,
    entries: &[Entry],
    suffix: &[u8],
    update: &[u8],
) -> Result<Vec<Entry>, AllocError>
    ensures { IfOk result (λ last. last.items ≡ spec.last_updates suffix.now update.now entries.now) }
{
    let mut last = Vec::new(alloc);
    let mut rest = entries;
    while let [entry, behind @ ..] = rest {
        if is_last_update(entry, behind, suffix, update) {
            let name = Name::copy_of(alloc, entry.name.as_slice())?;
            last.push(Entry {
                name,
                number: entry.number,
            })?;
        }
        rest = behind;
    }
    Ok(last)
}

/// Whether a file is an update of one that would be taken, and no other of its name follows.
fn is_last_update(entry: &Entry, behind: &[Entry], suffix: &[u8], update: &[u8]) -> bool
    ensures { result ≡ spec.is_last_update suffix.now update.now entry.now behind.now }
{
    updated_name(entry.name.as_slice(), update).ends_with(suffix) && ends_name(entry, behind)
}

/// Whether no file of the same name follows.
fn ends_name(entry: &Entry, behind: &[Entry]) -> bool
    ensures { result ≡ spec.ends_name entry.now behind.now }
{
    match behind {
        [] => true,
        [next, ..] => next.name.as_slice() != entry.name.as_slice(),
    }
}

/// Whether the file with this name is an update.
pub fn is_update(name: &[u8], suffix: &[u8], update: &[u8], apart: Apart<'_>) -> bool
    ensures { result ≡ spec.is_update suffix.now update.now (plain_apart apart.entry) name.now }
{
    is_taken(name, update, apart) && updated_name(name, update).ends_with(suffix)
}

/// The name that an update updates: what stands before the update suffix in its own.
pub fn updated_name<'n>(name: &'n [u8], update: &[u8]) -> &'n [u8]
    ensures { result.now ≡ spec.updated_name update.now name.now }
{
    &name[..name.len().saturating_sub(update.len())]
}
