//! Words and epochs of values.
ghost use Rattle.std.specs.Prelude.{◌≡◌, ◌^◌, ◌<◌, length};
ghost use Rattle.cj_kvn.specs.Faults.{Tells};
ghost use Rattle.cj_oem.specs.Words as words;
ghost use Rattle.cj_oem.specs.Metadata as spec;

use cj_base::Tick;
use cj_epoch::read_epoch;
use cj_formats::OemCause;

/// Whether a text is this word, without regard to the case of letters.
#[tactic(auto, unfolding(crate::specs::Words::is_word))]
pub(crate) fn is_word(word: &[u8], text: &[u8]) -> bool
    ensures { result ≡ words.is_word word.now text.now }
{
    text.eq_ignore_ascii_case(word)
}

/// The tick that an epoch says.
pub(crate) fn parse_epoch(text: &[u8]) -> Result<Tick, OemCause>
    ensures { Tells (λ t. t.micros) result (spec.parse_epoch text.now) }
{
    match read_epoch(text) {
        Ok(tick) => Ok(tick),
        Err(fault) => Err(OemCause::Epoch(fault)),
    }
}
