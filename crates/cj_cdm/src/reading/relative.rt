//! The lines of a relative state.
ghost use Rattle.std.specs.Prelude.{◌≡◌, codes};
ghost use Rattle.cj_cdm.specs.Read.{plain_rest, told};
ghost use Rattle.cj_cdm.specs.Reading.{axis_values_said, perhaps, relative_said};

use crate::fault::CdmCause;
use crate::reading::rest::Rest;
use cj_kvn::LineFault;
use cj_rtn::{AxisValues, Rtn};

/// A relative state, where the next line is the first of one.
#[tactic(auto, unfolding(crate::specs::Reading::perhaps))]
pub(crate) fn read_relative_if_there(
    rest: &mut Rest<'_>,
) -> Result<Option<Rtn>, LineFault<CdmCause>>
    ensures { told (λ x. x) result rest.new ≡ perhaps (codes "RELATIVE_POSITION_R = ") relative_said (plain_rest rest.old) }
{
    if !rest.text.starts_with(b"RELATIVE_POSITION_R = ") {
        return Ok(None);
    }
    Ok(Some(read_relative(rest)?))
}

#[tactic(auto, unfolding(crate::specs::Reading::relative_said))]
fn read_relative(rest: &mut Rest<'_>) -> Result<Rtn, LineFault<CdmCause>>
    ensures { told (λ x. x) result rest.new ≡ relative_said (plain_rest rest.old) }
{
    let place = read_axis_values(
        b"RELATIVE_POSITION_R",
        b"RELATIVE_POSITION_T",
        b"RELATIVE_POSITION_N",
        b"m",
        rest,
    )?;
    let rate = read_axis_values(
        b"RELATIVE_VELOCITY_R",
        b"RELATIVE_VELOCITY_T",
        b"RELATIVE_VELOCITY_N",
        b"m/s",
        rest,
    )?;
    Ok(Rtn { place, rate })
}

/// Three values along axes in a unit, each with its key.
#[tactic(auto, unfolding(crate::specs::Reading::axis_values_said))]
fn read_axis_values<'a>(
    r_key: &[u8],
    t_key: &[u8],
    n_key: &[u8],
    unit: &[u8],
    rest: &mut Rest<'a>,
) -> Result<AxisValues, LineFault<CdmCause>>
    ensures { told (λ v. v) result rest.new ≡ axis_values_said r_key.now t_key.now n_key.now unit.now (plain_rest rest.old) }
{
    let r = rest.axis_value(r_key, unit)?;
    let t = rest.axis_value(t_key, unit)?;
    let n = rest.axis_value(n_key, unit)?;
    Ok(AxisValues { r, t, n })
}
