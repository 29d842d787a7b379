//! What an object is, and its state.
ghost use Rattle.std.specs.Prelude.{◌≡◌, ◌++◌, OnOk};
ghost use Rattle.cj_cdm.specs.Fields.{side_of_fields};
ghost use Rattle.cj_cdm.specs.Texts.{object_text, state_text};

use crate::designators::designator_of;
use crate::fields::SideFields;
use crate::printing::numbers::push_kilometres;
use cj_kvn::push_entry;
use cj_rtn::Vector;
use cj_track::frame_text;
use std::alloc::AllocError;

/// Adds what an object is, and where its ephemeris comes from.
#[tactic(auto, unfolding(crate::specs::Texts::object_text))]
pub(crate) fn push_object(
    text: &mut Vec<u8>,
    object: &[u8],
    side: &SideFields,
) -> Result<(), AllocError>
    ensures { OnOk result (text.new.items ≡ text.old.items ++ object_text object.now (side_of_fields side.now)) }
{
    let id = side.track.id.as_slice();
    push_entry(text, b"OBJECT", object)?;
    push_entry(text, b"OBJECT_DESIGNATOR", id)?;
    push_entry(text, b"CATALOG_NAME", b"OEM")?;
    push_entry(text, b"OBJECT_NAME", side.track.name.as_slice())?;
    push_entry(text, b"INTERNATIONAL_DESIGNATOR", designator_of(id))?;
    push_entry(text, b"EPHEMERIS_NAME", side.track.file.as_slice())?;
    push_entry(text, b"COVARIANCE_METHOD", b"CALCULATED")?;
    push_entry(text, b"MANEUVERABLE", b"N/A")?;
    push_entry(text, b"REF_FRAME", frame_text(side.track.frame))
}

/// Adds the state of an object.
#[tactic(auto, unfolding(crate::specs::Texts::state_text))]
pub(crate) fn push_state(text: &mut Vec<u8>, place: Vector, rate: Vector) -> Result<(), AllocError>
    ensures { OnOk result (text.new.items ≡ text.old.items ++ state_text place rate) }
{
    push_kilometres(text, b"X", place.x, b"km")?;
    push_kilometres(text, b"Y", place.y, b"km")?;
    push_kilometres(text, b"Z", place.z, b"km")?;
    push_kilometres(text, b"X_DOT", rate.x, b"km/s")?;
    push_kilometres(text, b"Y_DOT", rate.y, b"km/s")?;
    push_kilometres(text, b"Z_DOT", rate.z, b"km/s")
}
