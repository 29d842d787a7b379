//! The lines of one object.
ghost use Rattle.std.specs.Prelude.{◌≡◌, map};
ghost use Rattle.cj_base.specs.Decimals.{number_of};
ghost use Rattle.cj_cdm.specs.Read.{plain_object, plain_rest, side_of_said, told};
ghost use Rattle.cj_cdm.specs.Reading.{elements_said, object_said, place_said, rate_said, side_said, source_said, vector_said};
ghost use Rattle.cj_cdm.specs.Texts.{elements};

use crate::elements::element_at;
use crate::fault::CdmCause;
use crate::reading::rest::Rest;
use crate::reading::said::{ObjectSaid, SideSaid};
use cj_base::Decimal;
use cj_kvn::LineFault;
use cj_rtn::Vector;

/// The lines of an object that is called by this word.
#[tactic(auto, unfolding(crate::specs::Reading::side_said))]
pub(crate) fn read_side<'a>(
    called: &[u8],
    rest: &mut Rest<'a>,
) -> Result<SideSaid<'a>, LineFault<CdmCause>>
    ensures { told side_of_said result rest.new ≡ side_said called.now (plain_rest rest.old) }
{
    let object = read_object(called, rest)?;
    let place = read_place(rest)?;
    let rate = read_rate(rest)?;
    let epoch = rest.epoch_behind(b"COMMENT COVARIANCE EPOCH ")?;
    let values = read_elements(rest)?;
    Ok(SideSaid {
        object,
        place,
        rate,
        epoch,
        values,
    })
}

#[tactic(auto, unfolding(crate::specs::Reading::object_said))]
fn read_object<'a>(
    called: &[u8],
    rest: &mut Rest<'a>,
) -> Result<ObjectSaid<'a>, LineFault<CdmCause>>
    ensures { told plain_object result rest.new ≡ object_said called.now (plain_rest rest.old) }
{
    rest.constant(b"OBJECT", called)?;
    let id = rest.label(b"OBJECT_DESIGNATOR")?;
    rest.constant(b"CATALOG_NAME", b"OEM")?;
    let name = rest.label(b"OBJECT_NAME")?;
    read_source(id, name, rest)
}

/// Where the ephemeris of an object with this number and name comes from, and what it says.
#[tactic(auto, unfolding(crate::specs::Reading::source_said))]
fn read_source<'a>(
    id: &'a [u8],
    name: &'a [u8],
    rest: &mut Rest<'a>,
) -> Result<ObjectSaid<'a>, LineFault<CdmCause>>
    ensures { told plain_object result rest.new ≡ source_said id.now name.now (plain_rest rest.old) }
{
    let designator = rest.designator(b"INTERNATIONAL_DESIGNATOR")?;
    let file = rest.label(b"EPHEMERIS_NAME")?;
    rest.constant(b"COVARIANCE_METHOD", b"CALCULATED")?;
    rest.constant(b"MANEUVERABLE", b"N/A")?;
    let frame = rest.frame(b"REF_FRAME")?;
    Ok(ObjectSaid {
        id,
        name,
        designator,
        file,
        frame,
    })
}

fn read_place(rest: &mut Rest<'_>) -> Result<Vector, LineFault<CdmCause>>
    ensures { told (λ v. v) result rest.new ≡ place_said (plain_rest rest.old) }
{
    read_vector(b"X", b"Y", b"Z", b"km", rest)
}

fn read_rate(rest: &mut Rest<'_>) -> Result<Vector, LineFault<CdmCause>>
    ensures { told (λ v. v) result rest.new ≡ rate_said (plain_rest rest.old) }
{
    read_vector(b"X_DOT", b"Y_DOT", b"Z_DOT", b"km/s", rest)
}

/// Three coordinates in a unit, each with its key.
#[tactic(auto, unfolding(crate::specs::Reading::vector_said))]
fn read_vector<'a>(
    x_key: &[u8],
    y_key: &[u8],
    z_key: &[u8],
    unit: &[u8],
    rest: &mut Rest<'a>,
) -> Result<Vector, LineFault<CdmCause>>
    ensures { told (λ v. v) result rest.new ≡ vector_said x_key.now y_key.now z_key.now unit.now (plain_rest rest.old) }
{
    let x = rest.kilometres(x_key, unit)?;
    let y = rest.kilometres(y_key, unit)?;
    let z = rest.kilometres(z_key, unit)?;
    Ok(Vector { x, y, z })
}

/// The elements of a covariance.
fn read_elements(rest: &mut Rest<'_>) -> Result<[Decimal; 21], LineFault<CdmCause>>
    ensures { told (λ values. map number_of values) result rest.new ≡ elements_said elements (plain_rest rest.old) }
{
    let mut values = [Decimal::ZERO; 21];
    for index in 0..21 {
        let element = element_at(index);
        values[index] = rest.element(element.key, element.unit)?;
    }
    Ok(values)
}
