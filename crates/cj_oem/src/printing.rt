//! The canonical text of a track.
ghost use Rattle.std.specs.Prelude.{◌≡◌, ◌+◌, ◌^◌, ◌<◌, ◌++◌, length, false, All, IfOk, Ok, OnOk};
ghost use Rattle.cj_oem.specs.Canonical.{header_text, segment_text, text_of};
ghost use Rattle.cj_track.specs.Nodes.{AreNodes};
ghost use Rattle.cj_oem.specs.Reading.{reading};
ghost use Rattle.cj_track.specs.Tracks.{plain_segment, plain_track};

mod covariances;
mod figures;
mod metadata;
mod nodes;

use cj_kvn::push_entry;
use cj_track::{Segment, Track};
use covariances::push_covariances;
use metadata::push_metadata;
use nodes::push_nodes;
use std::alloc::{AllocError, Global};

/// The track as a file: places in km and rates in km/s with twelve decimals, epochs with six, one space between the fields of
/// a row, LF behind each line.
pub fn oem_text(alloc: Global, track: &Track) -> Result<Vec<u8>, AllocError>
    ensures value { IfOk result (λ text. text.items ≡ text_of (plain_track track.now)) }
    // What is printed is read again.
    ensures again { IfOk result (λ text. length text.items + 1 < 2 ^ 32
        → reading track.now.file text.items false ≡ Ok (plain_track track.now)) }
{
    let segments = track.segments.as_slice();
    let mut text = Vec::with_capacity(alloc, usual_length(segments))?;
    push_header(&mut text)?;
    for segment in segments {
        push_segment(&mut text, track, segment)?;
    }
    Ok(text)
}

/// How many bytes the text of the segments has where names are short, and a header.
fn usual_length(segments: &[Segment]) -> usize {
    let mut length: usize = 512;
    for segment in segments {
        let nodes = segment.nodes.as_slice().len().saturating_mul(160);
        let matrices = segment.matrices.as_slice().len().saturating_mul(512);
        length = length
            .saturating_add(512)
            .saturating_add(nodes)
            .saturating_add(matrices);
    }
    length
}

#[tactic(auto, unfolding(crate::specs::Canonical::header_text))]
fn push_header(text: &mut Vec<u8>) -> Result<(), AllocError>
    ensures { OnOk result (text.new.items ≡ text.old.items ++ header_text) }
{
    push_entry(text, b"CCSDS_OEM_VERS", b"2.0")?;
    push_entry(text, b"CREATION_DATE", b"1972-01-01T00:00:00.000000")?;
    push_entry(text, b"ORIGINATOR", b"CONJ")
}

/// Adds a segment: its metadata, its nodes, its covariances.
#[tactic(auto, unfolding(crate::specs::Canonical::segment_text))]
fn push_segment(text: &mut Vec<u8>, track: &Track, segment: &Segment) -> Result<(), AllocError>
    ensures text { OnOk result (text.new.items ≡ text.old.items ++ segment_text (plain_track track.now) (plain_segment segment.now)) }
    ensures nodes { OnOk result (AreNodes segment.now.nodes) }
    ensures matrices { OnOk result (All (λ m. length m.values ≡ 21) segment.now.matrices) }
{
    push_metadata(text, track, segment)?;
    push_nodes(text, segment.nodes.as_slice())?;
    push_covariances(text, segment.matrices.as_slice())
}
