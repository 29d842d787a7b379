//! The lines of a message, by what their values are.
ghost use Rattle.std.specs.Prelude.{◌≡◌, ◌≤◌, ◌<◌, ◌^◌, ◌++◌, codes, length, IfOk};
ghost use Rattle.cj_base.specs.Decimals.{number_of};
ghost use Rattle.cj_cdm.specs.Read.{bytes_of, plain, plain_rest, told};
ghost use Rattle.cj_cdm.specs.Reading.{entry_said, line_said, value_in};
ghost use Rattle.cj_cdm.specs.Values.{axis_value_said, constant_said, designator_said, element_said, epoch_said, frame_said, id_said, kilometres_said, label_said, miss_said, originator_said};

use crate::fault::CdmCause;
use crate::reading::figures::{axis_value, element, id, kilometres, miss};
use crate::reading::rest::Rest;
use crate::reading::values::{behind_front, constant, designator, epoch, frame, label, originator};
use cj_base::{Decimal, Tick};
use cj_kvn::LineFault;
use cj_track::Frame;

impl<'a> Rest<'a> {
    /// The value of the next line, which has this key.
    fn value(self, key: &[u8]) -> Result<&'a [u8], LineFault<CdmCause>>
        ensures value { plain bytes_of result ≡ value_in (key.now ++ codes " = ") (plain_rest self.entry) }
        ensures long { IfOk result (λ _. 2 ≤ length self.entry.text.now) }
        ensures short { IfOk result (λ value. length value.now < 2 ^ 32) }
    {
        match behind_front(b" = ", self.behind(key)?) {
            Some(value) => Ok(value),
            None => Err(self.fault(CdmCause::Key)),
        }
    }

    /// A key with this value.
    pub(crate) fn constant(
        &mut self,
        key: &[u8],
        expected: &[u8],
    ) -> Result<(), LineFault<CdmCause>>
        ensures { told (λ x. x) result self.new ≡ entry_said key.now (constant_said expected.now) (plain_rest self.old) }
    {
        let value = self.value(key)?;
        self.taken(constant(expected, value))
    }

    pub(crate) fn epoch(&mut self, key: &[u8]) -> Result<Tick, LineFault<CdmCause>>
        ensures { told (λ t. t.micros) result self.new ≡ entry_said key.now epoch_said (plain_rest self.old) }
    {
        let value = self.value(key)?;
        self.taken(epoch(value))
    }

    /// An epoch behind this front.
    pub(crate) fn epoch_behind(&mut self, front: &[u8]) -> Result<Tick, LineFault<CdmCause>>
        requires { 2 ≤ length front.now }
        ensures { told (λ t. t.micros) result self.new ≡ line_said front.now epoch_said (plain_rest self.old) }
    {
        let value = self.behind(front)?;
        self.taken(epoch(value))
    }

    pub(crate) fn originator(&mut self, key: &[u8]) -> Result<&'a [u8], LineFault<CdmCause>>
        ensures { told bytes_of result self.new ≡ entry_said key.now originator_said (plain_rest self.old) }
    {
        let value = self.value(key)?;
        self.taken(originator(value))
    }

    /// The id of a message of this originator.
    pub(crate) fn id(&mut self, key: &[u8], originator: &[u8]) -> Result<u32, LineFault<CdmCause>>
        ensures { told (λ x. x) result self.new ≡ entry_said key.now (id_said originator.now) (plain_rest self.old) }
    {
        let value = self.value(key)?;
        self.taken(id(originator, value))
    }

    pub(crate) fn miss(&mut self, key: &[u8]) -> Result<u64, LineFault<CdmCause>>
        ensures { told (λ x. x) result self.new ≡ entry_said key.now miss_said (plain_rest self.old) }
    {
        let value = self.value(key)?;
        self.taken(miss(value))
    }

    pub(crate) fn label(&mut self, key: &[u8]) -> Result<&'a [u8], LineFault<CdmCause>>
        ensures { told bytes_of result self.new ≡ entry_said key.now label_said (plain_rest self.old) }
    {
        let value = self.value(key)?;
        self.taken(label(value))
    }

    pub(crate) fn designator(&mut self, key: &[u8]) -> Result<&'a [u8], LineFault<CdmCause>>
        ensures { told bytes_of result self.new ≡ entry_said key.now designator_said (plain_rest self.old) }
    {
        let value = self.value(key)?;
        self.taken(designator(value))
    }

    pub(crate) fn frame(&mut self, key: &[u8]) -> Result<Frame, LineFault<CdmCause>>
        ensures { told (λ x. x) result self.new ≡ entry_said key.now frame_said (plain_rest self.old) }
    {
        let value = self.value(key)?;
        self.taken(frame(value))
    }

    pub(crate) fn kilometres(
        &mut self,
        key: &[u8],
        unit: &[u8],
    ) -> Result<i128, LineFault<CdmCause>>
        ensures { told (λ x. x) result self.new ≡ entry_said key.now (kilometres_said unit.now) (plain_rest self.old) }
    {
        let value = self.value(key)?;
        self.taken(kilometres(unit, value))
    }

    /// A value along an axis.
    pub(crate) fn axis_value(&mut self, key: &[u8], unit: &[u8]) -> Result<i64, LineFault<CdmCause>>
        ensures { told (λ x. x) result self.new ≡ entry_said key.now (axis_value_said unit.now) (plain_rest self.old) }
    {
        let value = self.value(key)?;
        self.taken(axis_value(unit, value))
    }

    /// An element of a covariance.
    pub(crate) fn element(
        &mut self,
        key: &[u8],
        unit: &[u8],
    ) -> Result<Decimal, LineFault<CdmCause>>
        ensures { told number_of result self.new ≡ entry_said key.now (element_said unit.now) (plain_rest self.old) }
    {
        let value = self.value(key)?;
        self.taken(element(unit, value))
    }
}
