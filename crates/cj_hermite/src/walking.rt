//! The runs of ticks at which a track is at one piece, one after another.
ghost use Rattle.std.specs.Prelude.{◌≡◌, ◌≢◌, ℕ, ◌<◌, ◌≤◌, IfSome, IsSomeAnd, MatchOption, Some, option_map, slice_get};
ghost use Rattle.cj_track.specs.Segments.{AreInOrder};
ghost use Rattle.cj_track.specs.Tracks.{plain_track};
ghost use Rattle.cj_hermite.specs.Interpolant.{curve_of};
ghost use Rattle.cj_hermite.specs.Pieces.{pieces_of, piece_holding, piece_at, curve_of_piece};
ghost use Rattle.cj_hermite.specs.PiecesOfTracks.{Spans};
ghost use Rattle.cj_hermite.specs.Searches.{IsPlace};
ghost use Rattle.cj_hermite.specs.Walks.{AreEnded, HasNoMore, IsNextState, HasNone, IsNextRun};

use crate::cutting::cut_found;
use crate::finding::{find, found_piece};
use crate::found_pieces::FoundPiece;
use crate::hints::Hint;
use crate::runs::PieceRun;
use cj_base::{Tick, Window};
use cj_track::{Segment, Track};

/// How many segments end before a tick.
fn ended(segments: &[Segment], at: Tick) -> usize
    requires { AreInOrder segments.now }
    ensures { AreEnded at.micros segments.now result }
{
    segments.partition_point(|segment| segment.last.micros < at.micros)
}

/// The first tick from `from` on at which a track has a state.
fn next_state(track: &Track, from: Tick) -> Option<Tick>
    ensures { MatchOption result (HasNoMore (plain_track track.now) from.micros) (λ at. IsNextState (plain_track track.now) from.micros at.micros) }
{
    let segments = track.segments.as_slice();
    let ended = ended(segments, from);
    if ended == segments.len() {
        return None;
    }
    Some(segments[ended].first.later(from))
}

/// The piece at the first tick from `from` on at which a track has a state, and that tick.
fn next_found(track: &Track, from: Tick, hint: Hint) -> Option<(Tick, FoundPiece)>
    ensures state { MatchOption result (HasNoMore (plain_track track.now) from.micros) (λ next. IsNextState (plain_track track.now) from.micros next.0.micros) }
    ensures place { IfSome result (λ next. IsPlace track.now.segments next.1) }
    ensures number { IfSome result (λ next. piece_at (plain_track track.now) next.0.micros ≡ Some next.1.index) }
    ensures later { IfSome result (λ next. (m number : ℕ) → next.0.micros ≤ m → piece_at (plain_track track.now) m ≡ Some number → next.1.index ≤ number) }
{
    if let Some(found) = find(track, from, hint) {
        return Some((from, found));
    }
    let first = next_state(track, from)?;
    let found = find(track, first, hint)?;
    Some((first, found))
}

/// The first run of ticks at one piece, of those from `from` to `last`, with the piece and its number. The hint then says where it is.
pub fn run_from(track: &Track, from: Tick, last: Tick, hint: &mut Hint) -> Option<PieceRun>
    ensures run { MatchOption result (HasNone (plain_track track.now) from.micros last.micros) (λ run. IsNextRun (plain_track track.now) from.micros last.micros run.ticks) }
    ensures after { IfSome result (λ run. from.micros ≤ run.ticks.first.micros) }
    // Where it ends before the last tick, its piece is not used again.
    ensures ended { IfSome result (λ run. run.ticks.last.micros < last.micros → (m : ℕ) → run.ticks.last.micros < m
        → piece_at (plain_track track.now) m ≢ piece_at (plain_track track.now) run.ticks.last.micros) }
    ensures number { IfSome result (λ run. piece_at (plain_track track.now) run.ticks.last.micros ≡ Some run.index) }
    // No later tick has an earlier piece.
    ensures later { IfSome result (λ run. (m number : ℕ) → run.ticks.last.micros ≤ m → piece_at (plain_track track.now) m ≡ Some number → run.index ≤ number) }
    ensures nodes { IfSome result (λ run. IsSomeAnd (slice_get (pieces_of (plain_track track.now)) run.index) (Spans run.piece)) }
    ensures curve { IfSome result (λ run. IsSomeAnd (slice_get (pieces_of (plain_track track.now)) run.index) (λ x. curve_of run.piece ≡ curve_of_piece x)) }
    // At each of its ticks the track is at the piece.
    ensures piece { IfSome result (λ run. (m : ℕ) → run.ticks.first.micros ≤ m → m ≤ run.ticks.last.micros
        → option_map curve_of_piece (piece_holding (plain_track track.now) m) ≡ Some (curve_of run.piece)) }
{
    let (first, found) = next_found(track, from, *hint)?;
    *hint = found.hint();
    if last.micros < first.micros {
        return None;
    }
    let ticks = cut_found(track, found, Window { first, last })?;
    Some(PieceRun {
        ticks,
        index: found.index,
        piece: found_piece(track, found),
    })
}

/// The first run of ticks at one piece, of those from `from` to `last`.
pub fn next_run(track: &Track, from: Tick, last: Tick) -> Option<Window>
    ensures run { MatchOption result (HasNone (plain_track track.now) from.micros last.micros) (IsNextRun (plain_track track.now) from.micros last.micros) }
    ensures after { IfSome result (λ run. from.micros ≤ run.first.micros) }
    // Where it ends before the last tick, its piece is not used again.
    ensures ended { IfSome result (λ run. run.last.micros < last.micros → (m : ℕ) → run.last.micros < m
        → piece_at (plain_track track.now) m ≢ piece_at (plain_track track.now) run.last.micros) }
{
    let mut hint = Hint::default();
    let run = run_from(track, from, last, &mut hint)?;
    Some(run.ticks)
}
