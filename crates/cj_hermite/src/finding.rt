//! The pieces of a track: which one a tick falls into, the one with a number, and the segment in which it lies.
ghost use Rattle.std.specs.Prelude.{◌≡◌, ℕ, ◌+◌, ◌^◌, ◌<◌, ◌≤◌, length, Some, IfSome, IsSomeAnd, option_map, slice_get, slice_index_or};
ghost use Rattle.cj_track.specs.Nodes.{IsStep, AreNodes};
ghost use Rattle.cj_track.specs.Segments.{AreSegments, starts_from};
ghost use Rattle.cj_track.specs.Tracks.{plain_node, plain_segment, plain_track};
ghost use Rattle.cj_hermite.specs.Interpolant.{curve_of};
ghost use Rattle.cj_hermite.specs.Pieces.{pieces_of_segment, pieces_of, piece_holding, piece_at, curve_of_piece};
ghost use Rattle.cj_hermite.specs.PiecesOfTracks.{Covers, Spans, IsInSegment, first_state, last_state, piece_with};
ghost use Rattle.cj_hermite.specs.Searches.{IsLastStarted, IsPlace};

use crate::found_pieces::FoundPiece;
use crate::hints::Hint;
use crate::pieces::Piece;
use crate::searches::{last_begun_from, last_reached_from, last_started};
use cj_base::Tick;
use cj_track::{Node, Segment, Track};

/// The piece in which a track is at a tick, or none where it has no state. The hint and what follows it are looked at first.
pub fn find(track: &Track, at: Tick, hint: Hint) -> Option<FoundPiece>
    ensures value { option_map (λ found. found.index) result ≡ piece_at (plain_track track.now) at.micros }
    ensures place { IfSome result (IsPlace track.now.segments) }
    ensures exists { IfSome result (λ found. found.index < length (pieces_of (plain_track track.now))) }
    ensures piece { IfSome result (λ found. slice_get (pieces_of (plain_track track.now)) found.index ≡ piece_holding (plain_track track.now) at.micros) }
    ensures covered { IfSome result (λ found. IsSomeAnd (piece_holding (plain_track track.now) at.micros) (Covers at.micros)) }

    // No later tick has an earlier piece.
    ensures later { IfSome result (λ found. (m number : ℕ) → at.micros ≤ m → piece_at (plain_track track.now) m ≡ Some number → found.index ≤ number) }
{
    let segments = track.segments.as_slice();
    let number = last_begun_from(segments, at, hint.segment)?;
    let segment = &segments[number];
    if segment.last.micros < at.micros {
        return None;
    }
    let start = track.segments.starts()[number];
    let node = last_reached_from(segment.nodes.as_slice(), at, hint.node) as u32;
    Some(FoundPiece {
        index: start + node,
        segment: number as u32,
        node,
    })
}

/// The number of the piece at a tick, or none where the track has no state.
pub fn piece_at(track: &Track, at: Tick) -> Option<u32>
    ensures value { result ≡ piece_at (plain_track track.now) at.micros }
    ensures exists { IfSome result (λ index. index < length (pieces_of (plain_track track.now))) }
    ensures piece { IfSome result (λ index. slice_get (pieces_of (plain_track track.now)) index ≡ piece_holding (plain_track track.now) at.micros) }
    ensures covered { IfSome result (λ index. IsSomeAnd (piece_holding (plain_track track.now) at.micros) (Covers at.micros)) }

    // No later tick has an earlier piece.
    ensures later { IfSome result (λ index. (m number : ℕ) → at.micros ≤ m → piece_at (plain_track track.now) m ≡ Some number → index ≤ number) }
{
    let found = find(track, at, Hint::default())?;
    Some(found.index)
}

/// The piece with this number.
pub fn piece(track: &Track, index: u32) -> Piece
    requires { index < length (pieces_of (plain_track track.now)) }
    ensures nodes { IsSomeAnd (slice_get (pieces_of (plain_track track.now)) index) (Spans result) }
    ensures curve { IsSomeAnd (slice_get (pieces_of (plain_track track.now)) index) (λ x. curve_of result ≡ curve_of_piece x) }
{
    found_piece(track, by_number(track, index))
}

/// Where the piece with this number is.
pub fn by_number(track: &Track, index: u32) -> FoundPiece
    requires { index < length (pieces_of (plain_track track.now)) }
    ensures same { result.index ≡ index }
    ensures place { IsPlace track.now.segments result }
{
    let segment = segment_number(track, index);
    let start = track.segments.starts()[segment];
    FoundPiece {
        index,
        segment: segment as u32,
        node: index - start,
    }
}

/// The piece that was found.
pub fn found_piece(track: &Track, found: FoundPiece) -> Piece
    requires { IsPlace track.now.segments found }
    ensures nodes { IsSomeAnd (slice_get (pieces_of (plain_track track.now)) found.index) (Spans result) }
    ensures curve { IsSomeAnd (slice_get (pieces_of (plain_track track.now)) found.index) (λ x. curve_of result ≡ curve_of_piece x) }
{
    piece_of(found_segment(track, found), found.node as usize)
}

/// The segment in which a piece was found.
pub fn found_segment(track: &Track, found: FoundPiece) -> &Segment
    requires { IsPlace track.now.segments found }
    ensures is { result.now ≡ slice_index_or track.now.segments found.segment result.now }
    ensures within { found.node + 1 < length result.now.nodes }
    ensures kept { AreSegments track.now.segments }
{
    &track.segments.as_slice()[found.segment as usize]
}

/// The piece of a segment with this number, counted from the segment's first.
pub fn piece_of(segment: &Segment, number: usize) -> Piece
    requires { number + 1 < length segment.now.nodes }
    ensures value { slice_get (pieces_of_segment (plain_segment segment.now)) number ≡ Some (piece_with segment.now.first.micros segment.now.last.micros result) }
    ensures nodes { AreNodes segment.now.nodes }
{
    let nodes = segment.nodes.as_slice();
    between(nodes[number], nodes[number + 1])
}

/// The piece between two neighbouring nodes.
fn between(from: Node, to: Node) -> Piece
    requires { IsStep from to }
    ensures from { first_state result ≡ plain_node from }
    ensures to { last_state result ≡ plain_node to }
{
    Piece {
        t0: from.at,
        t1: to.at,
        p0: from.p,
        v0: from.v,
        p1: to.p,
        v1: to.v,
    }
}

/// The number of the segment in which the piece with this number lies.
pub fn segment_of(track: &Track, index: u32) -> u32
    requires { index < length (pieces_of (plain_track track.now)) }
    ensures { IsInSegment (plain_track track.now) index result }
{
    segment_number(track, index) as u32
}

fn segment_number(track: &Track, index: u32) -> usize
    requires { index < length (pieces_of (plain_track track.now)) }
    ensures exists { result < length track.now.segments }
    ensures fits { result < 2 ^ 32 }
    ensures last { IsLastStarted index (starts_from 0 track.now.segments) result }
{
    last_started(track.segments.starts(), index)
}
