//! The run of ticks at which a piece is the one to be used.
ghost use Rattle.std.specs.Prelude.{◌≡◌, ◌≢◌, ℕ, ◌<◌, ◌↔◌, length, IfNone, IfSome, IsSomeAnd, IsTrue, slice_get, Some};
ghost use Rattle.cj_track.specs.Tracks.{plain_track};
ghost use Rattle.cj_hermite.specs.Pieces.{pieces_of, piece_at};
ghost use Rattle.cj_hermite.specs.PiecesOfTracks.{Covers, CoversBoth};
ghost use Rattle.cj_hermite.specs.Runs.{Holds, IsOfPiece, IsRun};
ghost use Rattle.cj_hermite.specs.Searches.{IsPlace};

use crate::finding::{by_number, find, found_segment, piece_of};
use crate::found_pieces::FoundPiece;
use cj_base::{Tick, Window};
use cj_track::Track;

/// The ticks of the range at which this is the piece: one run, or none.
pub fn cut(track: &Track, index: u32, range: Window) -> Option<Window>
    requires { index < length (pieces_of (plain_track track.now)) }
    ensures none { IfNone result ((m : ℕ) → ¬ IsOfPiece (plain_track track.now) index range m) }
    ensures run { IfSome result (IsRun (plain_track track.now) index range) }
    ensures covered { IfSome result (λ run. IsSomeAnd (slice_get (pieces_of (plain_track track.now)) index) (CoversBoth run.first.micros run.last.micros)) }
    // A run that ends before the range does is the piece's last.
    ensures ended { IfSome result (λ run. run.last.micros < range.last.micros → (m : ℕ) → run.last.micros < m → piece_at (plain_track track.now) m ≢ Some index) }
{
    cut_found(track, by_number(track, index), range)
}

/// The same for a piece that was found.
pub fn cut_found(track: &Track, found: FoundPiece, range: Window) -> Option<Window>
    requires { IsPlace track.now.segments found }
    ensures none { IfNone result ((m : ℕ) → ¬ IsOfPiece (plain_track track.now) found.index range m) }
    ensures run { IfSome result (IsRun (plain_track track.now) found.index range) }
    ensures covered { IfSome result (λ run. IsSomeAnd (slice_get (pieces_of (plain_track track.now)) found.index) (CoversBoth run.first.micros run.last.micros)) }
    ensures ended { IfSome result (λ run. run.last.micros < range.last.micros → (m : ℕ) → run.last.micros < m → piece_at (plain_track track.now) m ≢ Some found.index) }
{
    let covered = covered(track, found);
    let first = covered.first.later(range.first);
    let last = covered.last.earlier(range.last);
    if last.micros < first.micros {
        return None;
    }
    if is_at(track, last, found) {
        return Some(Window { first, last });
    }
    // The last tick belongs to a later piece.
    if last.micros == first.micros {
        return None;
    }
    let last = Tick {
        micros: last.micros - 1,
    };
    Some(Window { first, last })
}

/// Whether the track is at the piece that was found.
fn is_at(track: &Track, at: Tick, found: FoundPiece) -> bool
    ensures { IsTrue result ↔ piece_at (plain_track track.now) at.micros ≡ Some found.index }
{
    match find(track, at, found.hint()) {
        Some(other) => other.index == found.index,
        None => false,
    }
}

/// The ticks between the nodes of the piece, within its useable span. All but the last are its own.
fn covered(track: &Track, found: FoundPiece) -> Window
    requires { IsPlace track.now.segments found }
    ensures ticks { IsSomeAnd (slice_get (pieces_of (plain_track track.now)) found.index) (λ x. (m : ℕ) → Holds result m ↔ Covers m x) }
    ensures own { (m : ℕ) → Holds result m → m < result.last.micros → piece_at (plain_track track.now) m ≡ Some found.index }
{
    let segment = found_segment(track, found);
    let piece = piece_of(segment, found.node as usize);
    Window {
        first: piece.t0.later(segment.first),
        last: piece.t1.earlier(segment.last),
    }
}
