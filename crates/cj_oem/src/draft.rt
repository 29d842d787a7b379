//! A matrix that is being read.
ghost use Rattle.std.specs.Prelude.{◌≡◌, ◌≤◌};
ghost use Rattle.std.specs.List.{All};
ghost use Rattle.cj_base.specs.Decimals.{IsReadable, number_of};

use crate::figures::decimal_said;
use crate::row_fields::{field_text, has_fields};
use crate::word::is_word;
use cj_base::{Decimal, Tick};
use cj_formats::OemCause;
use cj_kvn::Range32;
use cj_track::Matrix;

/// A matrix that is being read: its epoch, whether its frame was given and is RTN, how many of its six rows were read, and their
/// values, row by row.
#[derive(Clone, Copy)]
pub(crate) struct CovarianceDraft {
    pub(crate) at: Tick,
    pub(crate) framed: bool,
    pub(crate) rtn: bool,
    pub(crate) rows: u32,
    pub(crate) values: [Decimal; 21],
    pub(crate) ghost few: { rows ≤ 6 },
    pub(crate) ghost readable: { All (λ d. IsReadable (number_of d)) values },
}

impl CovarianceDraft {
    ghost use Rattle.std.specs.Prelude.{◌≡◌, ◌^◌, ◌<◌, length, Some};
    ghost use Rattle.cj_kvn.specs.Fields.{fields};
    ghost use Rattle.cj_kvn.specs.Ranges.{IsWithin, text_at};
    ghost use Rattle.cj_kvn.specs.Faults.{Tells};
    ghost use Rattle.cj_oem.specs.CovarianceRows as spec;
    ghost use Rattle.cj_oem.specs.Drafts.{begun, draft_of};
    ghost use Rattle.cj_track.specs.Tracks.{plain_matrix};

    /// A matrix of which only the epoch was read.
    pub(crate) fn new(at: Tick) -> CovarianceDraft
        ensures { draft_of result ≡ begun at.micros }
    {
        let values = [Decimal::ZERO; 21];
        CovarianceDraft {
            at,
            framed: false,
            rtn: false,
            rows: 0,
            values,
        }
    }

    /// The matrix with its frame, which is given once and before the first row.
    pub(crate) fn with_frame(self, value: &[u8]) -> Result<CovarianceDraft, OemCause>
        ensures { Tells draft_of result (spec.with_frame (Some (draft_of self)) value.now) }
    {
        if self.framed || 0 < self.rows {
            return Err(OemCause::MatrixForm);
        }
        let values = self.values;
        Ok(CovarianceDraft {
            at: self.at,
            framed: true,
            rtn: is_word(b"RTN", value),
            rows: self.rows,
            values,
        })
    }

    /// The matrix with its next row.
    pub(crate) fn with_row(self, bytes: &[u8], text: Range32) -> Result<CovarianceDraft, OemCause>
        requires within { IsWithin bytes.now text }
        requires short { length bytes.now < 2 ^ 32 }
        ensures { Tells draft_of result (spec.with_fields (Some (draft_of self)) (fields (text_at bytes.now text))) }
    {
        if self.rows == 6 || !has_fields(bytes, text, self.rows + 1) {
            return Err(OemCause::MatrixForm);
        }
        let mut values = self.values;
        let first = (self.rows * (self.rows + 1) / 2) as usize;
        let past = first + self.rows as usize + 1;
        read_numbers(bytes, text, &mut values[first..past])?;
        Ok(CovarianceDraft {
            at: self.at,
            framed: self.framed,
            rtn: self.rtn,
            rows: self.rows + 1,
            values,
        })
    }

    /// The whole matrix.
    pub(crate) fn matrix(self) -> Matrix
        requires { self.rows ≡ 6 }
        ensures { plain_matrix result ≡ record { at = (draft_of self).at; values = (draft_of self).values } }
    {
        let values = self.values;
        Matrix {
            at: self.at,
            values,
        }
    }
}

ghost use Rattle.std.specs.Prelude.{◌^◌, ◌<◌, length, map, IfOk};
ghost use Rattle.cj_kvn.specs.Fields.{fields};
ghost use Rattle.cj_kvn.specs.Ranges.{IsWithin, text_at};
ghost use Rattle.cj_kvn.specs.Faults.{Tells};
ghost use Rattle.cj_oem.specs.CovarianceRows.{numbers_said};

/// Writes the numbers of a row, which has as many fields as there are places.
fn read_numbers(bytes: &[u8], text: Range32, places: &mut [Decimal]) -> Result<(), OemCause>
    requires within { IsWithin bytes.now text }
    requires short { length bytes.now < 2 ^ 32 }
    requires count { length (fields (text_at bytes.now text)) ≡ length places.old }
    requires few { length places.old ≤ 6 }
    ensures value { Tells (λ _. map number_of places.new) result (numbers_said (fields (text_at bytes.now text))) }
    ensures readable { IfOk result (λ _. All (λ d. IsReadable (number_of d)) places.new) }
{
    for (index, place) in places.iter_mut().enumerate() {
        *place = decimal_said(field_text(bytes, text, index as u32))?;
    }
    Ok(())
}
