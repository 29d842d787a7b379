//! Taking the lines of a message off its front.
ghost use Rattle.std.specs.Prelude.{◌≡◌, ◌+◌, ◌<◌, ◌≤◌, ◌^◌, length, option_map, IfOk, IfSome};
ghost use Rattle.std.specs.List.{before_first};
ghost use Rattle.cj_cdm.specs.Read.{bytes_of, plain, plain_rest, told};
ghost use Rattle.cj_cdm.specs.Reading as spec;
ghost use Rattle.cj_base.specs.Bytes.{is_feed};
ghost use Rattle.cj_cdm.specs.Reading.{behind_feed};

use crate::fault::CdmCause;
use crate::reading::rest::Rest;
use crate::reading::values::{behind_front, place_of};
use cj_kvn::LineFault;

impl<'a> Rest<'a> {
    /// What stands behind this front in the next line.
    #[tactic(auto, unfolding(crate::specs::Reading::value_in))]
    pub(crate) fn behind(self, front: &[u8]) -> Result<&'a [u8], LineFault<CdmCause>>
        ensures value { plain bytes_of result ≡ spec.value_in front.now (plain_rest self.entry) }
        ensures long { IfOk result (λ value. length front.now + length value.now ≤ length self.entry.text.now) }
        ensures short { IfOk result (λ value. length value.now < 2 ^ 32) }
    {
        if self.text.is_empty() {
            return Err(self.fault(CdmCause::End));
        }
        match behind_front(front, line_of(self.text)) {
            Some(value) => Ok(value),
            None => Err(self.fault(CdmCause::Key)),
        }
    }

    /// What was read of the next line, where that is something. The line is taken then.
    #[tactic(auto, unfolding(crate::specs::Reading::taken, crate::specs::Reading::behind_line))]
    pub(crate) fn taken<T: Drop>(&mut self, said: Option<T>) -> Result<T, LineFault<CdmCause>>
        requires { 2 ≤ length self.old.text.now }
        ensures { told (λ x. x) result self.new ≡ spec.taken (plain_rest self.old) said }
    {
        let Some(found) = said else {
            return Err(self.fault(CdmCause::Value));
        };
        match behind_line(self.text) {
            Some(text) => {
                let line = self.line + 1;
                *self = Rest { text, line };
                Ok(found)
            }
            None => Err(LineFault {
                line: self.line + 1,
                cause: CdmCause::End,
            }),
        }
    }

    /// Nothing, where nothing is left.
    pub(crate) fn end(self) -> Result<(), LineFault<CdmCause>>
        ensures { result ≡ spec.ended (tt, plain_rest self.entry) }
    {
        if !self.text.is_empty() {
            return Err(self.fault(CdmCause::End));
        }
        Ok(())
    }

    /// A fault of the next line.
    pub(crate) fn fault(self, cause: CdmCause) -> LineFault<CdmCause>
        ensures line { result.line ≡ self.entry.line }
        ensures cause { result.cause ≡ cause }
    {
        LineFault {
            line: self.line,
            cause,
        }
    }
}

/// The first line, without its end.
fn line_of(text: &[u8]) -> &[u8]
    ensures { result.now ≡ before_first is_feed text.now }
{
    match place_of(text, b'\n') {
        Some(at) => &text[..at],
        None => text,
    }
}

/// What stands behind the first line, where that has an end.
fn behind_line(text: &[u8]) -> Option<&[u8]>
    ensures value { option_map bytes_of result ≡ behind_feed text.now }
    ensures shorter { IfSome result (λ behind. length behind.now < length text.now) }
{
    let at = place_of(text, b'\n')?;
    Some(&text[at + 1..])
}
