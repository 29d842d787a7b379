//! The radii of objects.
ghost use Rattle.std.specs.Prelude.{◌≡◌, ℕ, ◌<◌, ◌≤◌, true, IfOk, OnOk, All, List, length, map, slice_index_or, unwrap_or};
ghost use Rattle.std.specs.Borrow.{Bor};
ghost use Rattle.cj_sizes.specs.Limits.{MAX_RADIUS};
ghost use Rattle.cj_sizes.specs.Radii.{Holds, Takes, has_id, radius_in};
ghost use Rattle.cj_sizes.specs.Sizes as spec;
ghost use Rattle.cj_sizes.specs.Sizes.{sizes_of};

use crate::size_line::SizeLine;
use std::alloc::{AllocError, Global};
use std::collections::{BTreeMap, BTreeSet};

/// The radius of an object in nm: the one that is given for its designator, and 0 where none is.
pub fn radius_of(lines: &[SizeLine], id: &[u8]) -> u64
    ensures value { result ≡ spec.radius_of (sizes_of lines.now) id.now }
    ensures within { result ≤ MAX_RADIUS }
{
    match lines.iter().find(|line| line.id.as_slice() == id) {
        None => 0,
        Some(line) => line.radius,
    }
}

/// The radius of each of these objects, as of one alone.
pub fn radii_of(alloc: Global, lines: &[SizeLine], ids: &[&[u8]]) -> Result<Vec<u64>, AllocError>
    ensures value { IfOk result (λ radii. radii.items ≡ map (λ id. spec.radius_of (sizes_of lines.now) id.now) ids.now) }
    ensures within { IfOk result (λ radii. All (λ radius. radius ≤ MAX_RADIUS) radii.items) }
{
    let asked = ids_asked(alloc, ids)?;
    let given = radii_given(alloc, lines, &asked)?;
    let mut radii = Vec::with_capacity(alloc, ids.len())?;
    for id in ids {
        radii.push(radius_among(&given, id))?;
    }
    Ok(radii)
}

/// The radius that is given for a designator, and 0 where none is.
fn radius_among(given: &BTreeMap<&[u8], u64>, id: &[u8]) -> u64
    ensures { result ≡ unwrap_or (radius_in given.now id.now) 0 }
{
    given.get(id).copied().unwrap_or(0)
}

/// The designators of some objects, each once.
fn ids_asked<'i>(alloc: Global, ids: &[&'i [u8]]) -> Result<BTreeSet<&'i [u8]>, AllocError>
    ensures { IfOk result (λ asked. (k : ℕ) (d : Bor (List ℕ)) → k < length ids.now → has_id asked (slice_index_or ids.now k d).now ≡ true) }
{
    let mut asked = BTreeSet::new(alloc);
    for id in ids {
        asked.insert(*id)?;
    }
    Ok(asked)
}

/// The radii that are given for the designators that are asked for, each under its own.
fn radii_given<'l>(
    alloc: Global,
    lines: &'l [SizeLine],
    asked: &BTreeSet<&[u8]>,
) -> Result<BTreeMap<&'l [u8], u64>, AllocError>
    ensures { IfOk result (Holds asked.now (sizes_of lines.now)) }
{
    let mut given = BTreeMap::new(alloc);
    for line in lines {
        give(&mut given, asked, line.id.as_slice(), line.radius)?;
    }
    Ok(given)
}

/// Takes a radius where its designator is asked for, unless one is given for it already.
fn give<'l>(
    given: &mut BTreeMap<&'l [u8], u64>,
    asked: &BTreeSet<&[u8]>,
    id: &'l [u8],
    radius: u64,
) -> Result<(), AllocError>
    ensures { OnOk result (Takes asked.now given.old given.new id.now radius) }
{
    if !asked.contains(id) {
        return Ok(());
    }
    if given.contains_key(id) {
        return Ok(());
    }
    given.insert(id, radius)?;
    Ok(())
}
