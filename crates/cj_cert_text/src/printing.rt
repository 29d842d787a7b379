//! The text of a certificate.
ghost use Rattle.std.specs.Prelude.{◌≡◌, ◌++◌, [], IfOk, OnOk, codes, flat_map};
ghost use Rattle.cj_io.specs.Parts.{joined};
ghost use Rattle.cj_cert.specs.Certificates.{plain_certificate};
ghost use Rattle.cj_brief.specs.Certificates.{plain_brief};
ghost use Rattle.cj_cert_text.specs.Texts.{brief_text as the_brief_text, first_lines_in, primary_text, row, text_of};

use crate::printed_line::number_of;
use crate::printed_parts::push_lines;
use crate::rows::push_row;
use cj_base::Window;
use cj_brief::BriefCertificate;
use cj_cert::Certificate;
use cj_formats::{CertFormat, CertVersion};
use cj_io::join_parts;
use std::alloc::{AllocError, Global};
use std::thread::Threads;

/// The text of a certificate, by its version.
pub fn cert_text<R: Threads + Sync>(
    rt: &R,
    alloc: Global,
    cert: &Certificate,
    workers: u32,
) -> Result<Vec<u8>, AllocError>
    ensures { IfOk result (λ text. text.items ≡ text_of (plain_certificate cert.now)) }
{
    let parts = cert_parts(rt, alloc, cert, workers)?;
    join_parts(alloc, &parts)
}

/// The same text in parts, which as many threads as there are workers make together.
pub fn cert_parts<R: Threads + Sync>(
    rt: &R,
    alloc: Global,
    cert: &Certificate,
    workers: u32,
) -> Result<Vec<Vec<u8>>, AllocError>
    ensures { IfOk result (λ parts. joined parts.items ≡ text_of (plain_certificate cert.now)) }
{
    let version = cert.version;
    let mut parts = Vec::new(alloc);
    let format = CertFormat::Full(version);
    let front = head(alloc, format, cert.window, cert.threshold, cert.objects)?;
    parts.push(front)?;
    push_lines(rt, alloc, &mut parts, version, &cert.sizes, workers)?;
    push_lines(rt, alloc, &mut parts, version, &cert.shells, workers)?;
    push_lines(rt, alloc, &mut parts, version, &cert.boxes, workers)?;
    push_lines(rt, alloc, &mut parts, version, &cert.cells, workers)?;
    let back = end(alloc)?;
    parts.push(back)?;
    Ok(parts)
}

/// The text of a certificate in brief.
pub fn brief_text<R: Threads + Sync>(
    rt: &R,
    alloc: Global,
    cert: &BriefCertificate,
    workers: u32,
) -> Result<Vec<u8>, AllocError>
    ensures { IfOk result (λ text. text.items ≡ the_brief_text (plain_brief cert.now)) }
{
    let made = brief_parts(rt, alloc, cert, workers)?;
    join_parts(alloc, &made)
}

/// The same text in parts, which as many threads as there are workers make together.
pub fn brief_parts<R: Threads + Sync>(
    rt: &R,
    alloc: Global,
    cert: &BriefCertificate,
    workers: u32,
) -> Result<Vec<Vec<u8>>, AllocError>
    ensures { IfOk result (λ parts. joined parts.items ≡ the_brief_text (plain_brief cert.now)) }
{
    // Sizes, shells and cells stand as in version 2.
    let version = CertVersion::Two;
    let mut parts = Vec::new(alloc);
    let front = head(
        alloc,
        CertFormat::Brief,
        cert.window,
        cert.threshold,
        cert.objects,
    )?;
    parts.push(front)?;
    push_lines(rt, alloc, &mut parts, version, &cert.sizes, workers)?;
    let mut primaries = Vec::new(alloc);
    push_primaries(&mut primaries, &cert.primaries)?;
    parts.push(primaries)?;
    push_lines(rt, alloc, &mut parts, version, &cert.shells, workers)?;
    push_lines(rt, alloc, &mut parts, version, &cert.cells, workers)?;
    let back = end(alloc)?;
    parts.push(back)?;
    Ok(parts)
}

/// Adds the lines of primaries.
pub(crate) fn push_primaries(text: &mut Vec<u8>, primaries: &[u32]) -> Result<(), AllocError>
    ensures { OnOk result (text.new.items ≡ text.old.items ++ flat_map primary_text primaries.now) }
{
    for object in primaries {
        push_primary(text, *object)?;
    }
    Ok(())
}

/// Adds the line of a primary.
fn push_primary(text: &mut Vec<u8>, object: u32) -> Result<(), AllocError>
    ensures { OnOk result (text.new.items ≡ text.old.items ++ primary_text object) }
{
    push_row(text, b"PRIMARY", &[number_of(object)])
}

/// The first four lines.
pub(crate) fn head(
    alloc: Global,
    format: CertFormat,
    window: Window,
    threshold: u64,
    objects: u32,
) -> Result<Vec<u8>, AllocError>
    ensures { IfOk result (λ text. text.items ≡ first_lines_in format window.first.micros window.last.micros threshold objects) }
{
    let first = i128::from(window.first.micros);
    let last = i128::from(window.last.micros);
    let mut text = Vec::new(alloc);
    push_row(&mut text, b"CONJ-CERT", &[i128::from(format.number())])?;
    push_row(&mut text, b"WINDOW", &[first, last])?;
    push_row(&mut text, b"THRESHOLD", &[i128::from(threshold)])?;
    push_row(&mut text, b"OBJECTS", &[i128::from(objects)])?;
    Ok(text)
}

/// The last line.
pub(crate) fn end(alloc: Global) -> Result<Vec<u8>, AllocError>
    ensures { IfOk result (λ text. text.items ≡ row (codes "END") []) }
{
    let mut text = Vec::new(alloc);
    push_row(&mut text, b"END", &[])?;
    Ok(text)
}
