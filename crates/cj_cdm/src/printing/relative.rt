//! The lines of a relative state.
ghost use Rattle.std.specs.Prelude.{◌≡◌, ◌++◌, OnOk};
ghost use Rattle.cj_cdm.specs.Relative.{IsRelative, relative_text};

use crate::printing::numbers::push_metres;
use cj_rtn::Rtn;
use std::alloc::AllocError;

/// Adds the six lines of a relative state.
#[tactic(auto, unfolding(crate::specs::Relative::relative_text))]
pub(crate) fn push_relative(text: &mut Vec<u8>, rtn: &Rtn) -> Result<(), AllocError>
    ensures text { OnOk result (text.new.items ≡ text.old.items ++ relative_text rtn.now) }
    // The values are such that they are read again.
    ensures fits { OnOk result (IsRelative rtn.now) }
{
    let place = rtn.place;
    push_metres(text, b"RELATIVE_POSITION_R", i128::from(place.r), b"m")?;
    push_metres(text, b"RELATIVE_POSITION_T", i128::from(place.t), b"m")?;
    push_metres(text, b"RELATIVE_POSITION_N", i128::from(place.n), b"m")?;
    let rate = rtn.rate;
    push_metres(text, b"RELATIVE_VELOCITY_R", i128::from(rate.r), b"m/s")?;
    push_metres(text, b"RELATIVE_VELOCITY_T", i128::from(rate.t), b"m/s")?;
    push_metres(text, b"RELATIVE_VELOCITY_N", i128::from(rate.n), b"m/s")
}
