//! One object of a message.
ghost use Rattle.std.specs.Prelude.{◌≡◌, ◌++◌, OnOk};
ghost use Rattle.cj_cdm.specs.Fields.{side_of_fields};
ghost use Rattle.cj_cdm.specs.Texts.{side_text};

use crate::fields::SideFields;
use crate::printing::covariance::push_covariance;
use crate::printing::object::{push_object, push_state};
use std::alloc::AllocError;

/// Adds one object, which is called by this word.
#[tactic(auto, unfolding(crate::specs::Texts::side_text))]
pub(crate) fn push_side(
    text: &mut Vec<u8>,
    object: &[u8],
    side: &SideFields,
) -> Result<(), AllocError>
    ensures { OnOk result (text.new.items ≡ text.old.items ++ side_text object.now (side_of_fields side.now)) }
{
    push_object(text, object, side)?;
    push_state(text, side.place, side.rate)?;
    push_covariance(text, side.matrix)
}
