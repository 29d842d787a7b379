//! The message of an encounter.
use crate::building::fields_of;
use crate::covariance_index::CovarianceIndex;
use crate::fields::MessageFields;
use crate::printing::push_message;
use crate::stamp::Stamp;
use cj_base::Tick;
use cj_case::Pair;
use std::alloc::{AllocError, Global};

impl<'p> CovarianceIndex<'p> {
    ghost use Rattle.std.specs.Prelude.{◌≡◌, ◌≤◌, IfOk, IfSome, Ok, Some, is_some, option_map};
    ghost use Rattle.std.specs.List.{count_by};
    ghost use Rattle.cj_base.specs.Bytes.{is_feed};
    ghost use Rattle.cj_case.specs.Problems.{plain_problem};
    ghost use Rattle.cj_cdm.specs.Building.{have_covariances, message_of, object_covariance};
    ghost use Rattle.cj_cdm.specs.Fields.{stamp_of};
    ghost use Rattle.cj_cdm.specs.Fits.{HasNames};
    ghost use Rattle.cj_cdm.specs.Messages.{PlainMessage};
    ghost use Rattle.cj_cdm.specs.Reading.{reading};
    ghost use Rattle.cj_cdm.specs.Texts.{text_of};

    /// The message of a pair of objects: its closest approach is at the tick `tca`, and `miss` nm is the upper bound of the distance
    /// there. There is none where one of the objects has no state at that tick, or its segment has no covariance.
    pub fn message(
        &self,
        alloc: Global,
        pair: Pair,
        tca: Tick,
        miss: u64,
        stamp: Stamp,
    ) -> Result<Option<Vec<u8>>, AllocError>
        ensures text { IfOk result (λ text. option_map (λ t. t.items) text
            ≡ option_map text_of (message_of (plain_problem self.now) pair.a pair.b tca.micros miss (stamp_of stamp.entry))) }
        ensures some { IfOk result (λ text. is_some text ≡ have_covariances (plain_problem self.now) pair.a pair.b tca.micros) }
        // It has the lines up to the miss distance, and more.
        ensures lines { IfOk result (λ text. IfSome text (λ t. 6 ≤ count_by is_feed t.items)) }
        // The text is read again as the message, where what the message has from outside is of its form.
        ensures again { IfOk result (λ text. IfSome text (λ t. (m : PlainMessage)
            → message_of (plain_problem self.now) pair.a pair.b tca.micros miss (stamp_of stamp.entry) ≡ Some m → HasNames m → reading t.items ≡ Ok m)) }
    {
        let Some(fields) = fields_of(self, pair, tca, miss, stamp) else {
            return Ok(None);
        };
        let mut text = Vec::with_capacity(alloc, usual_length(&fields))?;
        push_message(&mut text, &fields)?;
        Ok(Some(text))
    }

    /// Whether there is a message of a pair whose closest approach is at the tick `tca`: both objects have a covariance there.
    pub fn has_message(&self, pair: Pair, tca: Tick) -> bool
        ensures { result ≡ have_covariances (plain_problem self.now) pair.a pair.b tca.micros }
    {
        self.has_covariance(pair.a, tca) && self.has_covariance(pair.b, tca)
    }

    fn has_covariance(&self, object: u32, at: Tick) -> bool
        ensures { result ≡ is_some (object_covariance (plain_problem self.now) object at.micros) }
    {
        self.at(object, at).is_some()
    }
}

/// Room for the text of a message, whose lines are short but for the names.
fn usual_length(fields: &MessageFields) -> usize {
    let names = fields.stamp.originator.len().saturating_mul(2);
    names.saturating_add(4096)
}
