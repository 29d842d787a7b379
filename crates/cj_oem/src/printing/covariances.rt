//! The covariances of a segment.
ghost use Rattle.std.specs.Prelude.{◌≡◌, ◌+◌, ◌≤◌, ◌∷◌, ◌++◌, length, map, flat_map, All, OnOk};
ghost use Rattle.cj_base.specs.Decimals.{IsReadable, number_of};
ghost use Rattle.cj_kvn.specs.Decimals.{decimal_text_of};
ghost use Rattle.cj_oem.specs.Canonical.{covariance_text, covariances_text, matrix_row, numbers_text};
ghost use Rattle.cj_track.specs.Tracks.{plain_matrix};

use cj_base::Decimal;
use cj_epoch::epoch_text;
use cj_kvn::{decimal_text, push_entry, push_line};
use cj_track::Matrix;
use std::alloc::AllocError;

/// Adds the covariances between their marks, where there are any.
pub(crate) fn push_covariances(text: &mut Vec<u8>, matrices: &[Matrix]) -> Result<(), AllocError>
    ensures text { OnOk result (text.new.items ≡ text.old.items ++ covariances_text (map plain_matrix matrices.now)) }
    ensures kept { OnOk result (All (λ m. length m.values ≡ 21) matrices.now) }
{
    if matrices.is_empty() {
        return Ok(());
    }
    push_line(text, b"COVARIANCE_START")?;
    push_matrices(text, matrices)?;
    push_line(text, b"COVARIANCE_STOP")
}

fn push_matrices(text: &mut Vec<u8>, matrices: &[Matrix]) -> Result<(), AllocError>
    ensures text { OnOk result (text.new.items ≡ text.old.items ++ flat_map covariance_text (map plain_matrix matrices.now)) }
    ensures kept { OnOk result (All (λ m. length m.values ≡ 21) matrices.now) }
{
    for matrix in matrices {
        push_matrix(text, matrix)?;
    }
    Ok(())
}

/// Adds a covariance: its epoch, its frame, its six rows.
fn push_matrix(text: &mut Vec<u8>, matrix: &Matrix) -> Result<(), AllocError>
    ensures text { OnOk result (text.new.items ≡ text.old.items ++ covariance_text (plain_matrix matrix.now)) }
    ensures kept { length matrix.now.values ≡ 21 }
{
    push_entry(text, b"EPOCH", &epoch_text(matrix.at))?;
    push_entry(text, b"COV_REF_FRAME", b"RTN")?;
    push_row(text, matrix, 0, 1)?;
    push_row(text, matrix, 1, 2)?;
    push_row(text, matrix, 3, 3)?;
    push_row(text, matrix, 6, 4)?;
    push_row(text, matrix, 10, 5)?;
    push_row(text, matrix, 15, 6)
}

/// Adds so many numbers of a matrix, from this one on, as its next row.
fn push_row(
    text: &mut Vec<u8>,
    matrix: &Matrix,
    start: usize,
    count: usize,
) -> Result<(), AllocError>
    requires { start + count ≤ 21 }
    ensures { OnOk result (text.new.items ≡ text.old.items ++ matrix_row start count (plain_matrix matrix.now).values) }
{
    push_numbers(text, &matrix.values[start..start + count])?;
    text.push(b'\n')?;
    Ok(())
}

/// Adds numbers with a space between.
fn push_numbers(text: &mut Vec<u8>, numbers: &[Decimal]) -> Result<(), AllocError>
    requires { All (λ d. IsReadable (number_of d)) numbers.now }
    ensures { OnOk result (text.new.items ≡ text.old.items ++ numbers_text (map number_of numbers.now)) }
{
    let [first, others @ ..] = numbers else {
        return Ok(());
    };
    push_decimal(text, *first)?;
    push_others(text, others)
}

/// Adds numbers with a space before each.
fn push_others(text: &mut Vec<u8>, others: &[Decimal]) -> Result<(), AllocError>
    requires { All (λ d. IsReadable (number_of d)) others.now }
    ensures { OnOk result (text.new.items ≡ text.old.items
        ++ flat_map (λ n. 32 ∷ decimal_text_of n) (map number_of others.now)) }
{
    for other in others {
        text.push(b' ')?;
        push_decimal(text, *other)?;
    }
    Ok(())
}

fn push_decimal(text: &mut Vec<u8>, number: Decimal) -> Result<(), AllocError>
    requires { IsReadable (number_of number) }
    ensures { OnOk result (text.new.items ≡ text.old.items ++ decimal_text_of (number_of number)) }
{
    text.extend_from_slice(&decimal_text(number))
}
