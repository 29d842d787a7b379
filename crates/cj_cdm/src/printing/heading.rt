//! The lines of a message that stand before its objects.
ghost use Rattle.std.specs.Prelude.{◌≡◌, ◌++◌, codes, OnOk};
ghost use Rattle.cj_cdm.specs.Fields.{message_of_fields};
ghost use Rattle.cj_cdm.specs.Texts as spec;
ghost use Rattle.cj_kvn.specs.Entries.{entry};
ghost use Rattle.cj_cdm.specs.Texts.{front_text, heading_text, period_text};

use crate::fields::MessageFields;
use crate::printing::numbers::{number_text, push_metres};
use cj_epoch::epoch_text;
use cj_kvn::push_entry;
use std::alloc::AllocError;

/// Adds the lines of a message that stand before its objects.
#[tactic(auto, unfolding(crate::specs::Texts::heading_text))]
pub(crate) fn push_heading(text: &mut Vec<u8>, fields: &MessageFields) -> Result<(), AllocError>
    ensures { OnOk result (text.new.items ≡ text.old.items ++ heading_text (message_of_fields fields.now)) }
{
    push_front(text, fields)?;
    push_period(text, fields)
}

/// Adds the lines up to the miss distance.
#[tactic(auto, unfolding(crate::specs::Texts::front_text))]
fn push_front(text: &mut Vec<u8>, fields: &MessageFields) -> Result<(), AllocError>
    ensures { OnOk result (text.new.items ≡ text.old.items ++ front_text (message_of_fields fields.now)) }
{
    push_entry(text, b"CCSDS_CDM_VERS", b"1.0")?;
    push_entry(text, b"CREATION_DATE", &epoch_text(fields.stamp.created))?;
    push_entry(text, b"ORIGINATOR", fields.stamp.originator)?;
    push_id(text, fields.stamp.originator, fields.stamp.number)?;
    push_entry(text, b"TCA", &epoch_text(fields.tca))?;
    push_metres(text, b"MISS_DISTANCE", i128::from(fields.miss), b"m")
}

/// Adds the lines of the screened window.
#[tactic(auto, unfolding(crate::specs::Texts::period_text))]
fn push_period(text: &mut Vec<u8>, fields: &MessageFields) -> Result<(), AllocError>
    ensures { OnOk result (text.new.items ≡ text.old.items ++ period_text (message_of_fields fields.now)) }
{
    push_entry(
        text,
        b"START_SCREEN_PERIOD",
        &epoch_text(fields.window.first),
    )?;
    push_entry(text, b"STOP_SCREEN_PERIOD", &epoch_text(fields.window.last))
}

/// Adds the id of a message.
fn push_id(text: &mut Vec<u8>, originator: &[u8], number: u32) -> Result<(), AllocError>
    ensures { OnOk result (text.new.items ≡ text.old.items
        ++ entry (codes "MESSAGE_ID") (originator.now ++ codes "_" ++ spec.number_text number)) }
{
    text.extend_from_slice(b"MESSAGE_ID = ")?;
    text.extend_from_slice(originator)?;
    text.push(b'_')?;
    text.extend_from_slice(&number_text(number))?;
    text.push(b'\n')?;
    Ok(())
}
