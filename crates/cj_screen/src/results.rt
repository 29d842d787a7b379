use cj_inputs::LoneTracks;
use cj_io::FileBytes;
use cj_outputs::{AnyCertificate, Changes, Findings, Origin};
use cj_words::Thinning;

/// What a run is to put. From here on it can fail only for want of memory or in a write.
#[derive(Drop)]
pub enum Results<'w> {
    /// What is found in the files that are screened, with the origin of its messages.
    Screened(Findings, Origin<'w>),
    /// The certificate that was to be checked is accepted.
    Checked,
    /// The files of a made-up catalogue.
    Made(Vec<FileBytes>),
    /// What is found in a made-up catalogue, whose certificate is accepted.
    Selfrun(Findings),
    /// A certificate that was accepted, one in full in version 2.
    Rewritten(AnyCertificate),
    /// The tracks that are to be put with fewer nodes.
    Thinned(LoneTracks, Thinning<'w>),
    /// What is found of the pairs that are not unchanged, of files that are screened again.
    Changed(Changes),
}
