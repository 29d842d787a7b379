//! The text of a message.
ghost use Rattle.std.specs.Prelude.{◌≡◌, ◌++◌, OnOk};
ghost use Rattle.cj_cdm.specs.Fields.{message_of_fields};
ghost use Rattle.cj_cdm.specs.Texts.{text_of};

mod covariance;
mod heading;
mod numbers;
mod object;
mod relative;
mod side;

use crate::fields::MessageFields;
use heading::push_heading;
pub(crate) use numbers::{fixed_text, number_text};
pub(crate) use relative::push_relative;
use side::push_side;
use std::alloc::AllocError;

/// Adds a message.
#[tactic(auto, unfolding(crate::specs::Texts::text_of))]
pub(crate) fn push_message(text: &mut Vec<u8>, fields: &MessageFields) -> Result<(), AllocError>
    ensures { OnOk result (text.new.items ≡ text.old.items ++ text_of (message_of_fields fields.now)) }
{
    push_heading(text, fields)?;
    push_side(text, b"OBJECT1", &fields.first)?;
    push_side(text, b"OBJECT2", &fields.second)
}
