//! The lines before the objects.
ghost use Rattle.std.specs.Prelude.{◌≡◌};
ghost use Rattle.cj_cdm.specs.Fields.{stamp_of};
ghost use Rattle.cj_cdm.specs.Read.{plain_front, plain_heading, plain_period, plain_rest, told};
ghost use Rattle.cj_cdm.specs.Reading.{front_said, heading_by, heading_said, period_said, stamp_said};

use crate::fault::CdmCause;
use crate::reading::rest::Rest;
use crate::reading::said::{FrontSaid, HeadingSaid, PeriodSaid};
use crate::stamp::Stamp;
use cj_kvn::LineFault;

#[tactic(auto, unfolding(crate::specs::Reading::heading_said))]
pub(crate) fn read_heading<'a>(rest: &mut Rest<'a>) -> Result<HeadingSaid<'a>, LineFault<CdmCause>>
    ensures { told plain_heading result rest.new ≡ heading_said (plain_rest rest.old) }
{
    let front = read_front(rest)?;
    let period = read_period(rest)?;
    Ok(heading_of(front, period))
}

/// What both say.
pub(crate) fn heading_of<'a>(front: FrontSaid<'a>, period: PeriodSaid) -> HeadingSaid<'a>
    ensures { plain_heading result ≡ heading_by (plain_front front.entry) (plain_period period) }
{
    HeadingSaid {
        stamp: front.stamp,
        tca: front.tca,
        miss: front.miss,
        start: period.start,
        stop: period.stop,
    }
}

/// The lines up to the miss distance.
#[tactic(auto, unfolding(crate::specs::Reading::front_said))]
pub(crate) fn read_front<'a>(rest: &mut Rest<'a>) -> Result<FrontSaid<'a>, LineFault<CdmCause>>
    ensures { told plain_front result rest.new ≡ front_said (plain_rest rest.old) }
{
    let stamp = read_stamp(rest)?;
    let tca = rest.epoch(b"TCA")?;
    let miss = rest.miss(b"MISS_DISTANCE")?;
    Ok(FrontSaid { stamp, tca, miss })
}

/// The lines of the screened window.
#[tactic(auto, unfolding(crate::specs::Reading::period_said))]
pub(crate) fn read_period(rest: &mut Rest<'_>) -> Result<PeriodSaid, LineFault<CdmCause>>
    ensures { told plain_period result rest.new ≡ period_said (plain_rest rest.old) }
{
    let start = rest.epoch(b"START_SCREEN_PERIOD")?;
    let stop = rest.epoch(b"STOP_SCREEN_PERIOD")?;
    Ok(PeriodSaid { start, stop })
}

#[tactic(auto, unfolding(crate::specs::Reading::stamp_said))]
fn read_stamp<'a>(rest: &mut Rest<'a>) -> Result<Stamp<'a>, LineFault<CdmCause>>
    ensures { told stamp_of result rest.new ≡ stamp_said (plain_rest rest.old) }
{
    rest.constant(b"CCSDS_CDM_VERS", b"1.0")?;
    let created = rest.epoch(b"CREATION_DATE")?;
    let originator = rest.originator(b"ORIGINATOR")?;
    let number = rest.id(b"MESSAGE_ID", originator)?;
    Ok(Stamp {
        created,
        originator,
        number,
    })
}
