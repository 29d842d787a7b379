//! The files of a folder that are taken.
ghost use Rattle.std.specs.Prelude.{◌≡◌, ◌<◌, ◌≤◌, ◌^◌, length, IfOk, All, nat_eq};
ghost use Rattle.std.specs.List.{ends_with};
ghost use Rattle.cj_inputs.specs.InputFiles as spec;

use crate::apart::Apart;
use cj_io::Name;
use std::alloc::{AllocError, Global};

/// A file of the folder: its name, and its number in the folder's order.
#[derive(PartialEq, Eq, PartialOrd, Ord, Drop)]
pub struct Entry {
    pub name: Name,
    pub number: u32,
}

/// The files whose names end with the suffix, but for those apart, in byte order of names, equal names in the folder's order.
pub fn list_inputs(
    alloc: Global,
    names: &[Name],
    suffix: &[u8],
    apart: Apart<'_>,
) -> Result<Vec<Entry>, AllocError>
    requires { length names.now < 2 ^ 32 }
    ensures value { IfOk result (λ entries. entries.items ≡ spec.inputs_of suffix.now (spec.plain_apart apart.entry) names.now) }
    ensures few { IfOk result (λ entries. length entries.items ≤ length names.now) }
    ensures numbers { IfOk result (λ entries. All (λ entry. entry.number < length names.now) entries.items) }
{
    let mut entries = entries(alloc, names, suffix, apart)?;
    entries.sort()?;
    Ok(entries)
}

fn entries(
    alloc: Global,
    names: &[Name],
    suffix: &[u8],
    apart: Apart<'_>,
) -> Result<Vec<Entry>, AllocError>
    requires { length names.now < 2 ^ 32 }
    ensures { IfOk result (λ entries. entries.items ≡ spec.entries_from suffix.now (spec.plain_apart apart.entry) 0 names.now) }
{
    let mut entries = Vec::new(alloc);
    let mut number = 0;
    for name in names {
        if is_taken(name.as_slice(), suffix, apart) {
            let name = Name::copy_of(alloc, name.as_slice())?;
            entries.push(Entry { name, number })?;
        }
        number += 1;
    }
    Ok(entries)
}

/// Whether the file with this name is taken as an ephemeris.
pub fn is_taken(name: &[u8], suffix: &[u8], apart: Apart<'_>) -> bool
    ensures { result ≡ spec.is_taken suffix.now (spec.plain_apart apart.entry) name.now }
{
    name.ends_with(suffix) && !apart.has(name)
}
