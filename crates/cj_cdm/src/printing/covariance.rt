//! The covariance of an object.
ghost use Rattle.std.specs.Prelude.{◌≡◌, ◌++◌, codes, length, map, All, OnOk};
ghost use Rattle.cj_epoch.specs.Written.{epoch_of};
ghost use Rattle.cj_base.specs.Decimals.{IsReadable, number_of};
ghost use Rattle.cj_cdm.specs.Building.{in_square_metres};
ghost use Rattle.cj_kvn.specs.Entries.{line};
ghost use Rattle.cj_cdm.specs.Texts.{covariance_text, elements, elements_text};

use crate::elements::element_at;
use crate::printing::numbers::push_element;
use cj_base::{Decimal, Tick};
use cj_epoch::epoch_text;
use cj_kvn::push_line;
use cj_track::Matrix;
use std::alloc::AllocError;

/// Adds a covariance in km and km/s, in m and m/s.
#[tactic(auto, unfolding(crate::specs::Texts::covariance_text))]
pub(crate) fn push_covariance(text: &mut Vec<u8>, matrix: &Matrix) -> Result<(), AllocError>
    ensures { OnOk result (text.new.items ≡ text.old.items
        ++ covariance_text matrix.now.at.micros (map in_square_metres (map number_of matrix.now.values))) }
{
    push_comment(text, matrix.at)?;
    push_elements(text, &matrix.values)
}

/// Adds the comment with the epoch of a covariance.
fn push_comment(text: &mut Vec<u8>, epoch: Tick) -> Result<(), AllocError>
    ensures { OnOk result (text.new.items ≡ text.old.items
        ++ line (codes "COMMENT COVARIANCE EPOCH " ++ epoch_of epoch.micros)) }
{
    text.extend_from_slice(b"COMMENT COVARIANCE EPOCH ")?;
    push_line(text, &epoch_text(epoch))
}

/// Adds the elements of a covariance.
fn push_elements(text: &mut Vec<u8>, values: &[Decimal]) -> Result<(), AllocError>
    requires whole { length values.now ≡ 21 }
    requires readable { All (λ d. IsReadable (number_of d)) values.now }
    ensures { OnOk result (text.new.items ≡ text.old.items
        ++ elements_text elements (map in_square_metres (map number_of values.now))) }
{
    for (index, value) in values.iter().enumerate() {
        let element = element_at(index);
        push_element(text, element.key, *value, element.unit)?;
    }
    Ok(())
}
