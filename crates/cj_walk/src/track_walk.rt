//! A walk along a track, once for its shell and for its boxes: a part that lies within one slot has one hull for both.
ghost use Rattle.std.specs.Prelude.{◌≡◌, ◌+◌, ◌^◌, ◌∷◌, ◌<◌, ◌≤◌, IfNone, IfSome, IsFalse, IsTrue};
ghost use Rattle.cj_track.specs.Tracks.{plain_track};
ghost use Rattle.cj_hermite.specs.Walks.{HasNone};
ghost use Rattle.cj_bezier.specs.Gaps.{terms_of};
ghost use Rattle.cj_bezier.specs.Hulls.{axes_of};
ghost use Rattle.cj_bezier.specs.Parts.{AreInTime, hulls_of};
ghost use Rattle.cj_bezier.specs.Shells.{IsOuter};
ghost use Rattle.cj_walk.specs.JoinedGaps.{IsGapRound};
ghost use Rattle.cj_walk.specs.TrackWalks.{IsWalk};

use crate::joined_gaps::join_gaps;
use cj_base::{Tick, Window};
use cj_bezier::{Gap, Guide, Part, gap_origin, next_part};
use cj_track::Track;

/// A walk along a track in a window, from part to part. It is at a part, which is the first one from a tick on.
#[derive(Clone, Copy)]
pub struct TrackWalk<'t> {
    pub track: &'t Track,
    pub window: Window,
    from: Tick,
    part: Part,
    /// The gap round those of all parts so far against the origin.
    gap: Gap,
    guide: Guide,
}

impl<'t> TrackWalk<'t> {
    /// A walk at the first part, or none where the track has no state in the window.
    pub fn new(track: &'t Track, window: Window) -> Option<Self>
        ensures none { IfNone result (HasNone (plain_track track.now) window.first.micros window.last.micros) }
        ensures some { IfSome result (λ walk. ¬ HasNone (plain_track track.now) window.first.micros window.last.micros) }
        ensures track { IfSome result (λ walk. walk.track.now ≡ track.now) }
        ensures window { IfSome result (λ walk. walk.window ≡ window) }
        ensures walks { IfSome result IsWalk }
    {
        let mut guide = Guide::new();
        let part = next_part(track, window.first, window.last, &mut guide)?;
        let gap = gap_origin(&part.hull);
        Some(TrackWalk {
            track,
            window,
            from: window.first,
            part,
            gap,
            guide,
        })
    }

    /// Goes on to the next part. False where there is none.
    fn advance(&mut self) -> bool
        requires { IsWalk self.old }
        ensures further { IsTrue result → self.old.part.last.micros < self.new.part.last.micros }
        ensures ended { IsFalse result → HasNone (plain_track self.new.track.now) (self.new.part.last.micros + 1) self.new.window.last.micros }
        ensures track { self.new.track.now ≡ self.old.track.now }
        ensures window { self.new.window ≡ self.old.window }
        ensures walks { IsWalk self.new }
    {
        if self.window.last.micros <= self.part.last.micros {
            return false;
        }
        let from = Tick {
            micros: self.part.last.micros + 1,
        };
        let Some(part) = next_part(self.track, from, self.window.last, &mut self.guide) else {
            return false;
        };
        self.gap = join_gaps(self.gap, &gap_origin(&part.hull));
        self.from = from;
        self.part = part;
        true
    }

    /// Goes on to the part that holds a tick, or to the first one behind it.
    fn go_to(&mut self, at: Tick)
        requires { IsWalk self.old }
        ensures track { self.new.track.now ≡ self.old.track.now }
        ensures window { self.new.window ≡ self.old.window }
        ensures walks { IsWalk self.new }
    {
        while self.part.last.micros < at.micros {
            if !self.advance() {
                return;
            }
        }
    }

    /// The first part of the track from one tick to another, to which the walk goes on.
    pub fn part_in(&mut self, from: Tick, last: Tick) -> Option<Part>
        requires walks { IsWalk self.old }
        requires inside { last.micros ≤ self.old.window.last.micros }

        // There is none exactly where the track has no state.
        ensures none { IfNone result (HasNone (plain_track self.old.track.now) from.micros last.micros) }

        // The hulls from the tick on are this part's and those from the tick behind it on.
        ensures hulls { IfSome result (λ part. hulls_of (plain_track self.old.track.now) from.micros last.micros
            ≡ axes_of part.hull.points ∷ hulls_of (plain_track self.old.track.now) (part.last.micros + 1) last.micros) }
        ensures later { IfSome result (λ part. from.micros ≤ part.last.micros) }
        ensures within { IfSome result (λ part. part.last.micros ≤ last.micros) }

        // A track's pieces come in order of time.
        ensures time { IfSome result (λ part. AreInTime (plain_track self.old.track.now) from.micros part.last.micros) }

        ensures track { self.new.track.now ≡ self.old.track.now }
        ensures window { self.new.window ≡ self.old.window }
        ensures walks { IsWalk self.new }
    {
        self.go_to(from);
        if self.from.micros == from.micros && self.part.last.micros <= last.micros {
            return Some(self.part);
        }
        next_part(self.track, from, last, &mut self.guide)
    }

    /// The gap round those of all parts in the window against the origin. The walk goes on to its end.
    pub fn gap_of_all(&mut self) -> Gap
        requires { IsWalk self.old }
        ensures round { IsGapRound (hulls_of (plain_track self.old.track.now) self.old.window.first.micros self.old.window.last.micros) (terms_of result.terms) }
        ensures time { AreInTime (plain_track self.old.track.now) self.old.window.first.micros self.old.window.last.micros }
        ensures some { ¬ HasNone (plain_track self.old.track.now) self.old.window.first.micros self.old.window.last.micros }
        ensures bounded { IsOuter (terms_of result.terms) (10 ^ 18) }
    {
        while self.advance() {}
        self.gap
    }
}
