ghost use Rattle.std.specs.Prelude.{◌≡◌, ◌≤◌, IfOk};
ghost use Rattle.cj_base.specs.Bounds.{MOST_MADE_OBJECTS};
ghost use Rattle.cj_gen.specs.Catalogues as spec;
ghost use Rattle.cj_gen.specs.Catalogues.{catalogue_of};
ghost use Rattle.cj_gen.specs.Orbits.{IsOrbit};
ghost use Rattle.cj_gen.specs.Texts.{oem_of};

use crate::draws::Draws;
use crate::figures::five;
use crate::orbit::Orbit;
use crate::text::oem_text;
use cj_io::{Bytes, FileBytes, Name};
use std::alloc::{AllocError, Global};

/// The ephemerides of so many objects on circular orbits, drawn from a seed, over so many minutes from the start of 2025.
#[tactic(auto, unfolding(crate::specs::Catalogues::catalogue_of))]
pub fn catalogue(
    alloc: Global,
    seed: u64,
    objects: u32,
    minutes: u32,
) -> Result<Vec<FileBytes>, AllocError>
    requires objects { objects ≤ MOST_MADE_OBJECTS }
    requires minutes { minutes ≤ 1440 }
    ensures { IfOk result (λ files. files.items ≡ catalogue_of seed objects minutes) }
{
    let mut draws = Draws::new(seed);
    let mut files = Vec::with_capacity(alloc, objects as usize)?;
    for before in 0..objects {
        let orbit = Orbit::drawn(&mut draws);
        files.push(file(alloc, before + 1, &orbit, minutes)?)?;
    }
    Ok(files)
}

/// The file of the object with this number.
fn file(alloc: Global, number: u32, orbit: &Orbit, minutes: u32) -> Result<FileBytes, AllocError>
    requires orbit { IsOrbit orbit.now }
    requires minutes { minutes ≤ 1440 }
    ensures name { IfOk result (λ file. file.name ≡ spec.file_name number) }
    ensures bytes { IfOk result (λ file. file.bytes ≡ oem_of number orbit.now minutes) }
{
    Ok(FileBytes {
        name: Name::copy_of(alloc, &file_name(number))?,
        bytes: Bytes::new(oem_text(alloc, number, orbit, minutes)?),
    })
}

fn file_name(number: u32) -> [u8; 12]
    ensures { result ≡ spec.file_name number }
{
    let [d1, d2, d3, d4, d5] = five(number);
    [b'G', b'E', b'N', d1, d2, d3, d4, d5, b'.', b'o', b'e', b'm']
}
