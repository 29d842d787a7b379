//! Whether the objects of a slot crowd. It is a guess, of which nothing is promised.
ghost use Rattle.std.specs.Prelude.{◌<◌};

use cj_case::{AxisBox, Measured};

/// A crowd has so many pairs of objects near each other.
const CROWD: usize = 250_000;

/// Space is cut into cubes with a side of so many nm, which is some 2,250 km.
const SIDE: u64 = 1 << 51;

/// So many cubes on each side of the center are numbered on each axis, and then anew.
const ALONG: u64 = 8;

/// The number on an axis of the cube with this coordinate.
fn along(at: i64) -> usize
    ensures { result < 16 }
{
    let cube = (at.unsigned_abs() / SIDE % ALONG) as usize;
    if at < 0 { cube + 8 } else { cube }
}

/// The number of the cube in which a box begins.
fn cube_of(area: &AxisBox) -> usize
    ensures { result < 4096 }
{
    (along(area.least.x) * 16 + along(area.least.y)) * 16 + along(area.least.z)
}

/// How many boxes begin in each cube.
#[derive(Drop)]
struct Cubes {
    begun: [usize; 4096],
    /// How many pairs of them begin in one cube.
    pairs: usize,
}

impl Cubes {
    fn new() -> Cubes {
        Cubes {
            begun: [0; 4096],
            pairs: 0,
        }
    }

    /// One box more.
    fn add(&mut self, area: &AxisBox) {
        let cube = cube_of(area);
        self.pairs = self.pairs.saturating_add(self.begun[cube]);
        self.begun[cube] = self.begun[cube].saturating_add(1);
    }
}

/// Whether there are as many pairs of boxes that begin in one cube as a crowd has.
pub fn is_crowd(boxes: &[Option<AxisBox>]) -> bool {
    let mut cubes = Cubes::new();
    for area in boxes {
        if let Some(area) = area {
            cubes.add(area);
        }
    }
    cubes.pairs >= CROWD
}

/// So many objects, or fewer, never crowd a slot whose pairs are given up slot by slot: their pairs fill no memory.
const OBJECTS_WITHOUT_CROWD: u32 = 20_000;

/// A slot whose pairs are given up has a crowd of so many pairs of objects near each other.
const SLOT_CROWD: usize = 200_000_000;

/// Whether objects that are measured crowd a slot so that the pairs of several such slots at once may fill memory.
pub fn is_crowded(measured: &Measured, slot: u32) -> bool {
    let boxes = &measured.boxes;
    let Ok(objects) = u32::try_from(boxes.objects()) else {
        return false;
    };
    if objects <= OBJECTS_WITHOUT_CROWD {
        return false;
    }
    let mut cubes = Cubes::new();
    for object in 0..objects {
        if let Some(Some(area)) = boxes.of_object(object).get(slot as usize) {
            cubes.add(area);
        }
    }
    cubes.pairs >= SLOT_CROWD
}
