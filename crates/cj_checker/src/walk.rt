//! A walk along a track, once for the object's shell and for its boxes: a part that lies within one slot has one hull for both.
ghost use Rattle.std.specs.Prelude.{◌≡◌, ◌+◌, ◌∷◌, ◌<◌, ◌≤◌, IfNone, IfSome, IsFalse, IsTrue};
ghost use Rattle.std.specs.List.{list_all};
ghost use Rattle.cj_track.specs.Tracks.{plain_track};
ghost use Rattle.cj_hermite.specs.Walks.{HasNone};
ghost use Rattle.cj_bezier.specs.Hulls.{axes_of};
ghost use Rattle.cj_bezier.specs.Parts.{hulls_of};
ghost use Rattle.cj_checker.specs.Tests.{shows_radii as shows};
ghost use Rattle.cj_checker.specs.Walks.{IsWalk};

use crate::bound::shows_radii;
use crate::course::Course;
use cj_base::Tick;
use cj_bezier::{Guide, Part, next_part};

/// Where a walk is: at a part of the track in the window, which is the first one from a tick on.
#[derive(Clone, Copy)]
pub(crate) struct Walk {
    from: Tick,
    part: Part,
    /// Whether each hull so far shows the radii of the shell.
    shown: bool,
    guide: Guide,
}

impl Walk {
    /// A walk at the first part, or none where the track has no state in the window.
    pub(crate) fn new(course: &Course) -> Option<Self>
        ensures none { IfNone result (HasNone (plain_track course.now.track.now)
            course.now.problem.now.window.first.micros course.now.problem.now.window.last.micros) }
        ensures some { IfSome result (λ walk. ¬ HasNone (plain_track course.now.track.now)
            course.now.problem.now.window.first.micros course.now.problem.now.window.last.micros) }
        ensures walks { IfSome result (IsWalk course.now) }
    {
        let window = course.problem.window;
        let mut guide = Guide::new();
        let part = next_part(course.track, window.first, window.last, &mut guide)?;
        let shown = shows_radii(course.shell, &part.hull);
        Some(Walk {
            from: window.first,
            part,
            shown,
            guide,
        })
    }

    /// Goes on to the next part. False where there is none.
    fn advance(&mut self, course: &Course) -> bool
        requires { IsWalk course.now self.old }
        ensures walks { IsWalk course.now self.new }
        ensures further { IsTrue result → self.old.part.last.micros < self.new.part.last.micros }
        ensures ended { IsFalse result → HasNone (plain_track course.now.track.now)
            (self.new.part.last.micros + 1) course.now.problem.now.window.last.micros }
    {
        let last = course.problem.window.last;
        if last.micros <= self.part.last.micros {
            return false;
        }
        let from = Tick {
            micros: self.part.last.micros + 1,
        };
        let Some(part) = next_part(course.track, from, last, &mut self.guide) else {
            return false;
        };
        self.shown = self.shown && shows_radii(course.shell, &part.hull);
        self.from = from;
        self.part = part;
        true
    }

    /// Goes on to the part that holds a tick, or to the first one behind it.
    fn go_to(&mut self, course: &Course, at: Tick)
        requires { IsWalk course.now self.old }
        ensures { IsWalk course.now self.new }
    {
        while self.part.last.micros < at.micros {
            if !self.advance(course) {
                return;
            }
        }
    }

    /// The first part of the track from one tick to another, to which the walk goes on.
    pub(crate) fn part_in(&mut self, course: &Course, from: Tick, last: Tick) -> Option<Part>
        requires walks { IsWalk course.now self.old }
        requires inside { last.micros ≤ course.now.problem.now.window.last.micros }
        ensures none { IfNone result (HasNone (plain_track course.now.track.now) from.micros last.micros) }
        ensures later { IfSome result (λ part. from.micros ≤ part.last.micros) }
        ensures within { IfSome result (λ part. part.last.micros ≤ last.micros) }
        ensures hulls { IfSome result (λ part. hulls_of (plain_track course.now.track.now) from.micros last.micros
            ≡ axes_of part.hull.points ∷ hulls_of (plain_track course.now.track.now) (part.last.micros + 1) last.micros) }
        ensures walks { IsWalk course.now self.new }
    {
        self.go_to(course, from);
        if self.from.micros == from.micros && self.part.last.micros <= last.micros {
            return Some(self.part);
        }
        next_part(course.track, from, last, &mut self.guide)
    }

    /// Whether all hulls of the track in the window show the radii of the shell. The walk goes on to its end.
    pub(crate) fn shows_all(&mut self, course: &Course) -> bool
        requires { IsWalk course.now self.old }
        ensures { result ≡ list_all (shows course.now.shell) (hulls_of (plain_track course.now.track.now)
            course.now.problem.now.window.first.micros course.now.problem.now.window.last.micros) }
    {
        while self.shown {
            if !self.advance(course) {
                return self.shown;
            }
        }
        false
    }
}
