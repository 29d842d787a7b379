//! Reading a message.
ghost use Rattle.std.specs.Prelude.{◌≡◌, ◌<◌, ◌^◌, length, IfOk, IfSome, Ok, Option};
ghost use Rattle.cj_cdm.specs.Fits.{Fits};
ghost use Rattle.cj_cdm.specs.Messages.{PlainMessage};
ghost use Rattle.cj_kvn.specs.Faults.{Gives};
ghost use Rattle.cj_cdm.specs.Read.{message_of_said, plain, plain_cdm, plain_read, plain_side, read_of_said, side_of_said};
ghost use Rattle.cj_cdm.specs.Reading as spec;
ghost use Rattle.cj_cdm.specs.Relative.{IsRelative, text_with};
ghost use Rattle.cj_cdm.specs.Texts.{text_of};

mod entries;
mod figures;
mod heading;
mod object;
mod relative;
mod rest;
mod said;
mod taking;
mod values;

use crate::cdm::{Cdm, Side};
use crate::fault::{CdmCause, CdmFault};
use cj_base::Text;
use cj_kvn::LineFault;
use cj_rtn::Rtn;
use heading::{heading_of, read_front, read_heading, read_period};
use object::read_side;
use relative::read_relative_if_there;
use rest::Rest;
use said::{MessageSaid, SideSaid};
use std::alloc::{AllocError, Global};
pub(crate) use values::place_of;

/// The message that a text is, which has exactly the form in which messages are written.
///
/// # Errors
///
/// The first line that is not of this form: `Key` where it does not begin with the key in its place, else `Value`; `End` where the
/// text ends early or goes on.
pub fn read_cdm(alloc: Global, bytes: &[u8]) -> Result<Cdm, CdmFault>
    requires { length bytes.now < 2 ^ 32 }
    ensures value { Gives plain_cdm result (spec.reading bytes.now) }
    // What is read is the text of the message, to the byte.
    ensures only { IfOk result (λ c. (bytes.now ≡ text_of (plain_cdm c)) × Fits (plain_cdm c)) }
    ensures again { (m : PlainMessage) → Fits m → bytes.now ≡ text_of m → Gives plain_cdm result (Ok m) }
{
    let said = said_by(bytes)?;
    Ok(message_of(alloc, &said)?)
}

/// The message that a text is, and the relative state that it tells, where there are lines of one behind the miss distance.
///
/// # Errors
///
/// As those of `read_cdm`, where the lines of a relative state are in place exactly where line 7 begins with the key of their first.
pub fn read_message(alloc: Global, bytes: &[u8]) -> Result<(Cdm, Option<Rtn>), CdmFault>
    requires { length bytes.now < 2 ^ 32 }
    ensures value { Gives plain_read result (spec.reading_with bytes.now) }
    // What is read is the text of the message with the relative state, to the byte.
    ensures only { IfOk result (λ read. (bytes.now ≡ text_with read.1 (plain_cdm read.0)) × Fits (plain_cdm read.0) × IfSome read.1 IsRelative) }
    ensures again { (m : PlainMessage) (x : Option Rtn) → Fits m → IfSome x IsRelative → bytes.now ≡ text_with x m → Gives plain_read result (Ok (m, x)) }
{
    let (said, relative) = said_with(bytes)?;
    Ok((message_of(alloc, &said)?, relative))
}

/// What a message says, lent by its text.
#[tactic(auto, unfolding(crate::specs::Reading::reading, crate::specs::Reading::message_said))]
fn said_by(bytes: &[u8]) -> Result<MessageSaid<'_>, LineFault<CdmCause>>
    requires { length bytes.now < 2 ^ 32 }
    ensures { plain message_of_said result ≡ spec.reading bytes.now }
{
    let mut rest = Rest {
        text: bytes,
        line: 1,
    };
    let heading = read_heading(&mut rest)?;
    let first = read_side(b"OBJECT1", &mut rest)?;
    let second = read_side(b"OBJECT2", &mut rest)?;
    rest.end()?;
    Ok(MessageSaid {
        heading,
        first,
        second,
    })
}

/// The same with the relative state that the message tells, where it tells one.
#[tactic(auto, unfolding(crate::specs::Reading::reading_with, crate::specs::Reading::message_with_said))]
fn said_with(bytes: &[u8]) -> Result<(MessageSaid<'_>, Option<Rtn>), LineFault<CdmCause>>
    requires { length bytes.now < 2 ^ 32 }
    ensures { plain read_of_said result ≡ spec.reading_with bytes.now }
{
    let mut rest = Rest {
        text: bytes,
        line: 1,
    };
    let front = read_front(&mut rest)?;
    let relative = read_relative_if_there(&mut rest)?;
    let period = read_period(&mut rest)?;
    let first = read_side(b"OBJECT1", &mut rest)?;
    let second = read_side(b"OBJECT2", &mut rest)?;
    rest.end()?;
    let said = MessageSaid {
        heading: heading_of(front, period),
        first,
        second,
    };
    Ok((said, relative))
}

/// A message of its own.
fn message_of(alloc: Global, said: &MessageSaid) -> Result<Cdm, AllocError>
    ensures { IfOk result (λ c. plain_cdm c ≡ message_of_said said.now) }
{
    let originator = Text::copy_of(alloc, said.heading.stamp.originator)?;
    match sides_of(alloc, said) {
        Ok((first, second)) => Ok(Cdm {
            created: said.heading.stamp.created,
            originator,
            number: said.heading.stamp.number,
            tca: said.heading.tca,
            miss: said.heading.miss,
            start: said.heading.start,
            stop: said.heading.stop,
            first,
            second,
        }),
        Err(error) => {
            drop(originator);
            Err(error)
        }
    }
}

/// Both objects of a message.
fn sides_of(alloc: Global, said: &MessageSaid) -> Result<(Side, Side), AllocError>
    ensures first { IfOk result (λ sides. plain_side sides.0 ≡ side_of_said said.now.first) }
    ensures second { IfOk result (λ sides. plain_side sides.1 ≡ side_of_said said.now.second) }
{
    let first = side_of(alloc, &said.first)?;
    match side_of(alloc, &said.second) {
        Ok(second) => Ok((first, second)),
        Err(error) => {
            drop(first);
            Err(error)
        }
    }
}

fn side_of(alloc: Global, said: &SideSaid) -> Result<Side, AllocError>
    ensures { IfOk result (λ s. plain_side s ≡ side_of_said said.now) }
{
    let object = &said.object;
    let (id, name) = copies_of(alloc, object.id, object.name)?;
    match copies_of(alloc, object.designator, object.file) {
        Ok((designator, file)) => Ok(Side {
            id,
            name,
            designator,
            file,
            frame: object.frame,
            place: said.place,
            rate: said.rate,
            epoch: said.epoch,
            values: said.values,
        }),
        Err(error) => {
            drop(id);
            drop(name);
            Err(error)
        }
    }
}

/// Copies of two texts.
fn copies_of(alloc: Global, one: &[u8], other: &[u8]) -> Result<(Text, Text), AllocError>
    ensures one { IfOk result (λ texts. texts.0 ≡ one.now) }
    ensures other { IfOk result (λ texts. texts.1 ≡ other.now) }
{
    let first = Text::copy_of(alloc, one)?;
    match Text::copy_of(alloc, other) {
        Ok(second) => Ok((first, second)),
        Err(error) => {
            drop(first);
            Err(error)
        }
    }
}
