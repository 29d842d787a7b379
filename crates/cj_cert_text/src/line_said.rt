//! What a line says behind others.
ghost use Rattle.std.specs.Prelude.{◌≡◌};
ghost use Rattle.cj_cert_text.specs.Lines as spec;
ghost use Rattle.cj_cert_text.specs.Ranks as ranks;
ghost use Rattle.cj_cert_text.specs.Readers.{Tells, plain_line};

use crate::cert_line::CertLine;
use crate::line_text::said;
use crate::rank::Rank;
use crate::words::Words;
use cj_formats::{CertCause, CertFormat};

/// What a line says behind a line of that kind, or first of all.
///
/// # Errors
///
/// `End` behind the last line, `Form` where it is none of the lines that may stand there, `Range` where a number is out of its range.
#[tactic(auto, unfolding(crate::specs::Lines::line_said))]
pub(crate) fn line_said(
    format: CertFormat,
    before: Option<Rank>,
    text: &[u8],
) -> Result<CertLine, CertCause>
    ensures { Tells plain_line result (spec.line_said format before text.now) }
{
    if has_ended(before) {
        return Err(CertCause::End);
    }
    let Some((word, words)) = Words::of(text).first() else {
        return Err(CertCause::Form);
    };
    match Rank::of_word(word) {
        Some(rank) if rank.may_follow(before) => said(format, rank, words),
        _ => Err(CertCause::Form),
    }
}

/// Whether the last line was there.
pub(crate) fn has_ended(before: Option<Rank>) -> bool
    ensures { result ≡ ranks.has_ended before }
{
    before == Some(Rank::End)
}
