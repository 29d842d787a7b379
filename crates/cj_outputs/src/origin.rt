use cj_base::Tick;
use cj_cdm::Stamp;
use cj_words::Screening;

/// When the messages of a run are made, by whom, and whether they tell the relative state.
#[derive(Clone, Copy, Debug)]
pub struct Origin<'a> {
    pub created: Tick,
    pub originator: &'a [u8],
    pub relative: bool,
}

impl<'a> Origin<'a> {
    ghost use Rattle.std.specs.Prelude.{◌≡◌};
    ghost use Rattle.cj_cdm.specs.Fields.{stamp_of};
    ghost use Rattle.cj_outputs.specs.Messages.{stamp_from};
    ghost use Rattle.cj_outputs.specs.Origins.{plain_origin};
    ghost use Rattle.cj_outputs.specs.Outcome.{origin_of};
    ghost use Rattle.cj_words.specs.Commands.{plain_screening};

    /// The origin of the messages of a screening that is made at this time.
    pub fn of(screening: &Screening<'a>, now: Tick) -> Origin<'a>
        ensures { plain_origin result ≡ origin_of now.micros (plain_screening screening.now) }
    {
        Origin {
            created: now,
            originator: screening.originator,
            relative: screening.rtn,
        }
    }

    /// The stamp of the message with this number.
    pub fn stamp(self, number: u32) -> Stamp<'a>
        ensures { stamp_of result ≡ stamp_from (plain_origin self.entry) number }
    {
        Stamp {
            created: self.created,
            originator: self.originator,
            number,
        }
    }
}
