//! Reading the text of a certificate.
ghost use Rattle.std.specs.Prelude.{◌≡◌, ◌-◌, ◌^◌, ◌<◌, ◌≤◌, [], IfOk, IfNone, IfSome, Ok, Err, length, true};
ghost use Rattle.cj_cert.specs.Certificates.{PlainCertificate, line_count, plain_certificate};
ghost use Rattle.cj_brief.specs.Certificates as brief;
ghost use Rattle.cj_brief.specs.Certificates.{PlainBrief, plain_brief};
ghost use Rattle.cj_cert_text.specs.Fits.{Fits, FitsInBrief};
ghost use Rattle.cj_cert_text.specs.Readers.{Gives, plain_draft};
ghost use Rattle.cj_cert_text.specs.Ranks as ranks;
ghost use Rattle.cj_cert_text.specs.Reading as spec;
ghost use Rattle.cj_cert_text.specs.Reading.{PlainSaid};
ghost use Rattle.cj_cert_text.specs.Texts.{brief_text, text_of};

use crate::draft::CertificateDraft;
use crate::fault::CertFault;
use crate::line_said::{has_ended, line_said};
use crate::rank::Rank;
use crate::words::split_at_byte;
use cj_brief::BriefCertificate;
use cj_cert::Certificate;
use cj_formats::{CertCause, CertFormat, CertVersion};
use std::alloc::Global;

/// The certificate in full that a text says, of the first version or of the second.
///
/// # Errors
///
/// The first fault of the text, at its line.
pub fn read_cert(alloc: Global, bytes: &[u8]) -> Result<Certificate, CertFault>
    requires { length bytes.now < 2 ^ 32 }
    ensures value { Gives plain_certificate result (spec.reading bytes.now) }
    // What is read is the text of the certificate, and so is printed again to the byte.
    ensures only { IfOk result (λ c. (bytes.now ≡ text_of (plain_certificate c)) × Fits (plain_certificate c)) }
    ensures again { (c : PlainCertificate) → Fits c → bytes.now ≡ text_of c → Gives plain_certificate result (Ok c) }
    ensures few { IfOk result (λ c. line_count (plain_certificate c) ≤ length bytes.now) }
{
    let version = version_of(bytes);
    let draft = read_lines(alloc, CertFormat::Full(version), bytes)?;
    Ok(draft.into_certificate(version))
}

/// The certificate in brief that a text says, which is one of version 3.
///
/// # Errors
///
/// The first fault of the text, at its line.
pub fn read_brief(alloc: Global, bytes: &[u8]) -> Result<BriefCertificate, CertFault>
    requires { length bytes.now < 2 ^ 32 }
    ensures value { Gives plain_brief result (spec.reading_in_brief bytes.now) }
    // What is read is the text of the certificate, and so is printed again to the byte.
    ensures only { IfOk result (λ c. (bytes.now ≡ brief_text (plain_brief c)) × FitsInBrief (plain_brief c)) }
    ensures again { (c : PlainBrief) → FitsInBrief c → bytes.now ≡ brief_text c → Gives plain_brief result (Ok c) }
    ensures few { IfOk result (λ c. brief.line_count (plain_brief c) ≤ length bytes.now) }
{
    let draft = read_lines(alloc, CertFormat::Brief, bytes)?;
    Ok(draft.into_brief())
}

/// What the lines of a text in this format say together.
fn read_lines(
    alloc: Global,
    format: CertFormat,
    bytes: &[u8],
) -> Result<CertificateDraft, CertFault>
    requires { length bytes.now < 2 ^ 32 }
    ensures { Gives plain_draft result (spec.lines_said format bytes.now) }
{
    let mut draft = CertificateDraft::new(alloc);
    let mut before = None;
    let mut number = 1;
    let mut rest = bytes;
    while let Some((text, behind)) = split_at_byte(rest, b'\n') {
        let line = match line_said(format, before, text) {
            Ok(line) => line,
            Err(cause) => return Err(CertFault::At {
                line: number,
                cause,
            }),
        };
        draft.take(line)?;
        before = Some(line.rank());
        number += 1;
        rest = behind;
    }
    match end_fault(format, before, number, rest) {
        None => Ok(draft),
        Some(fault) => Err(fault),
    }
}

/// What is wrong with a text behind its last LF: the rest would be the line of this number.
fn end_fault(
    format: CertFormat,
    before: Option<Rank>,
    number: u32,
    rest: &[u8],
) -> Option<CertFault>
    requires { number < 2 ^ 32 - 1 }
    ensures none { IfNone result ((rest.now ≡ []) × (ranks.has_ended before ≡ true)) }
    ensures some { IfSome result (λ fault. (c : PlainSaid) → Gives plain_draft (Err fault) (spec.behind_lines format number before c rest.now)) }
{
    if rest.is_empty() {
        if has_ended(before) {
            return None;
        }
        return Some(CertFault::At {
            line: number,
            cause: CertCause::End,
        });
    }
    match line_said(format, before, rest) {
        Ok(_) => Some(CertFault::At {
            line: number + 1,
            cause: CertCause::End,
        }),
        Err(cause) => Some(CertFault::At {
            line: number,
            cause,
        }),
    }
}

/// The version that a text has, if it is a certificate in full.
fn version_of(bytes: &[u8]) -> CertVersion
    ensures { result ≡ spec.version_of bytes.now }
{
    if bytes.starts_with(b"CONJ-CERT 2") {
        CertVersion::Two
    } else {
        CertVersion::One
    }
}
