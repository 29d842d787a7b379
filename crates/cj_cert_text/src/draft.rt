use crate::cert_line::CertLine;
use cj_base::{Tick, Window};
use cj_brief::BriefCertificate;
use cj_cert::{BoxLine, CellLine, Certificate, ShellLine, SizeOfLine};
use cj_formats::CertVersion;
use std::alloc::{AllocError, Global};

/// What the lines so far say. What is not told yet is as in the certificate of an empty folder.
#[derive(Drop)]
pub(crate) struct CertificateDraft {
    window: Window,
    threshold: u64,
    objects: u32,
    sizes: Vec<SizeOfLine>,
    primaries: Vec<u32>,
    shells: Vec<ShellLine>,
    boxes: Vec<BoxLine>,
    cells: Vec<CellLine>,
}

impl CertificateDraft {
    ghost use Rattle.std.specs.Prelude.{◌≡◌, OnOk, true};
    ghost use Rattle.cj_cert.specs.Certificates.{plain_certificate};
    ghost use Rattle.cj_brief.specs.Certificates.{plain_brief};
    ghost use Rattle.cj_cert_text.specs.Readers.{plain_draft, plain_line};
    ghost use Rattle.cj_cert_text.specs.Reading.{in_brief, in_version, nothing_said, with_line};
    ghost use Rattle.cj_cert.specs.Versions.{is_of_version};

    pub(crate) fn new(alloc: Global) -> CertificateDraft
        ensures { plain_draft result ≡ nothing_said }
    {
        CertificateDraft {
            window: Window {
                first: Tick::FIRST,
                last: Tick::FIRST,
            },
            threshold: 0,
            objects: 0,
            sizes: Vec::new(alloc),
            primaries: Vec::new(alloc),
            shells: Vec::new(alloc),
            boxes: Vec::new(alloc),
            cells: Vec::new(alloc),
        }
    }

    /// Takes what a further line says.
    pub(crate) fn take(&mut self, line: CertLine) -> Result<(), AllocError>
        ensures { OnOk result (plain_draft self.new ≡ with_line (plain_draft self.old) (plain_line line)) }
    {
        match line {
            CertLine::Heading | CertLine::End => {}
            CertLine::Window(window) => self.window = window,
            CertLine::Threshold(threshold) => self.threshold = threshold,
            CertLine::Objects(objects) => self.objects = objects,
            CertLine::Size(size) => self.sizes.push(size)?,
            CertLine::Primary(object) => self.primaries.push(object)?,
            CertLine::Shell(shell) => self.shells.push(shell)?,
            CertLine::Box(area) => self.boxes.push(area)?,
            CertLine::Cell(cell) => self.cells.push(cell)?,
        }
        Ok(())
    }

    /// What all lines said, as a certificate in full.
    pub(crate) fn into_certificate(self, version: CertVersion) -> Certificate
        requires { is_of_version version self.sizes.items self.boxes.items ≡ true }
        ensures { plain_certificate result ≡ in_version version (plain_draft self) }
    {
        Certificate {
            version,
            window: self.window,
            threshold: self.threshold,
            objects: self.objects,
            sizes: self.sizes,
            shells: self.shells,
            boxes: self.boxes,
            cells: self.cells,
        }
    }

    /// What all lines but those of boxes said, as a certificate in brief.
    pub(crate) fn into_brief(self) -> BriefCertificate
        ensures { plain_brief result ≡ in_brief (plain_draft self) }
    {
        BriefCertificate {
            window: self.window,
            threshold: self.threshold,
            objects: self.objects,
            sizes: self.sizes,
            primaries: self.primaries,
            shells: self.shells,
            cells: self.cells,
        }
    }
}
