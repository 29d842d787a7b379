ghost use Rattle.std.specs.Prelude.{◌≡◌, ◌<◌, ◌≤◌, ◌+◌, [], ◌++◌, flat_map, IfOk, OnOk};
ghost use Rattle.std.specs.List.{range_with_len};
ghost use Rattle.cj_kvn.specs.Entries.{line};
ghost use Rattle.cj_gen.specs.Orbits.{IsInSquare, IsOrbit, after_turns};
ghost use Rattle.cj_gen.specs.Texts as spec;
ghost use Rattle.cj_gen.specs.Texts.{covariance_text, ending_text, head_text, naming_text, node_line, oem_of};

use crate::figures::{five, push_place, push_rate};
use crate::orbit::Orbit;
use crate::plane::Point;
use cj_base::Tick;
use cj_epoch::epoch_text;
use std::alloc::{AllocError, Global};

/// The tick 2025-01-01T00:00:00.
const START: u64 = 1_735_689_600_000_000;

/// The microseconds of a minute.
const MINUTE: u64 = 60_000_000;

/// The ephemeris of the object with this number: a node for each minute.
#[tactic(auto, unfolding(crate::specs::Texts::oem_of))]
pub(crate) fn oem_text(
    alloc: Global,
    number: u32,
    orbit: &Orbit,
    minutes: u32,
) -> Result<Vec<u8>, AllocError>
    requires orbit { IsOrbit orbit.now }
    requires few { minutes ≤ 1440 }
    ensures { IfOk result (λ text. text.items ≡ oem_of number orbit.now minutes) }
{
    let mut text = Vec::with_capacity(alloc, 1024 + 128 * minutes as usize)?;
    push_head(&mut text, number, minutes)?;
    push_nodes(&mut text, orbit, minutes)?;
    push_covariance(&mut text)?;
    Ok(text)
}

#[tactic(auto, unfolding(crate::specs::Texts::head_text))]
fn push_head(text: &mut Vec<u8>, number: u32, minutes: u32) -> Result<(), AllocError>
    requires { minutes ≤ 1440 }
    ensures { OnOk result (text.new.items ≡ text.old.items ++ head_text number minutes) }
{
    push_naming(text, number)?;
    text.extend_from_slice(b"STOP_TIME = ")?;
    push_stamp(text, minutes)?;
    text.push(b'\n')?;
    push_ending(text)
}

/// Adds the metadata behind the last epoch.
fn push_ending(text: &mut Vec<u8>) -> Result<(), AllocError>
    ensures { OnOk result (text.new.items ≡ text.old.items ++ ending_text) }
{
    text.extend_from_slice(b"INTERPOLATION = HERMITE\nINTERPOLATION_DEGREE = 3\nMETA_STOP\n")
}

/// Adds the header, and the metadata up to the first epoch.
fn push_naming(text: &mut Vec<u8>, number: u32) -> Result<(), AllocError>
    ensures { OnOk result (text.new.items ≡ text.old.items ++ naming_text number) }
{
    let digits = five(number);
    text.extend_from_slice(
        b"CCSDS_OEM_VERS = 2.0\nCREATION_DATE = 2025-01-01T00:00:00\nORIGINATOR = CONJ\nMETA_START\nOBJECT_NAME = GEN ",
    )?;
    text.extend_from_slice(&digits)?;
    text.extend_from_slice(b"\nOBJECT_ID = GEN-")?;
    text.extend_from_slice(&digits)?;
    push_frame(text)
}

/// Adds the end of the designator's line, the frame and the first epoch.
fn push_frame(text: &mut Vec<u8>) -> Result<(), AllocError>
    ensures { OnOk result (text.new.items ≡ text.old.items ++ (line [] ++ spec.frame_text)) }
{
    text.extend_from_slice(
        b"\nCENTER_NAME = EARTH\nREF_FRAME = EME2000\nTIME_SYSTEM = UTC\nSTART_TIME = 2025-01-01T00:00:00\n",
    )
}

/// Adds a node for each minute.
fn push_nodes(text: &mut Vec<u8>, orbit: &Orbit, minutes: u32) -> Result<(), AllocError>
    requires orbit { IsOrbit orbit.now }
    requires few { minutes ≤ 1440 }
    ensures { OnOk result (text.new.items ≡ text.old.items ++ flat_map (node_line orbit.now) (range_with_len 0 (minutes + 1))) }
{
    let mut place = orbit.first;
    for minute in 0..minutes + 1 {
        push_node(text, orbit, minute, place)?;
        place = place.turned();
    }
    Ok(())
}

/// Adds the node at this minute, whose place is given before it is tilted.
#[tactic(auto, unfolding(crate::specs::Texts::node_line))]
fn push_node(text: &mut Vec<u8>, orbit: &Orbit, minute: u32, place: Point) -> Result<(), AllocError>
    requires few { minute ≤ 1440 }
    requires orbit { 0 < orbit.now.tilt.r }
    requires near { IsInSquare 10000000 place }
    requires there { place ≡ after_turns minute orbit.now.first }
    ensures { OnOk result (text.new.items ≡ text.old.items ++ node_line orbit.now minute) }
{
    push_stamp(text, minute)?;
    push_place(text, orbit.tilt.lifted(place))?;
    push_rate(text, orbit.tilt.lifted(place.rate()))?;
    text.push(b'\n')?;
    Ok(())
}

/// Adds the epoch so many minutes after the first node.
#[tactic(auto, unfolding(crate::specs::Texts::stamp))]
fn push_stamp(text: &mut Vec<u8>, minutes: u32) -> Result<(), AllocError>
    requires { minutes ≤ 1440 }
    ensures { OnOk result (text.new.items ≡ text.old.items ++ spec.stamp minutes) }
{
    let at = Tick {
        micros: START + u64::from(minutes) * MINUTE,
    };
    text.extend_from_slice(&epoch_text(at)[..19])
}

fn push_covariance(text: &mut Vec<u8>) -> Result<(), AllocError>
    ensures { OnOk result (text.new.items ≡ text.old.items ++ covariance_text) }
{
    text.extend_from_slice(
        b"COVARIANCE_START\nEPOCH = 2025-01-01T00:00:00\nCOV_REF_FRAME = RTN\n1E-4\n0 1E-4\n0 0 1E-4\n0 0 0 1E-10\n0 0 0 0 1E-10\n0 0 0 0 0 1E-10\nCOVARIANCE_STOP\n",
    )
}
