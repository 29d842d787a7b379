//! Objects that are at one piece over all ticks of a slot. The piece made ready and its hull are made once for all roots of the object there.
ghost use Rattle.std.specs.Prelude.{◌≡◌, ℕ, ◌^◌, ◌<◌, ◌≤◌, All, IfOk, IfSome, IsTrue, Some, length};
ghost use Rattle.cj_case.specs.PlainProblems.{PlainProblem};
ghost use Rattle.cj_case.specs.Problems.{plain_problem};
ghost use Rattle.cj_hermite.specs.Interpolant.{Curve, IsOver, curve_of};
ghost use Rattle.cj_hermite.specs.ObjectsAtTicks.{curve_at};
ghost use Rattle.cj_hermite.specs.Whole.{IsWhole};
ghost use Rattle.cj_bezier.specs.Hulls.{axes_of, hull_axes};
ghost use Rattle.cj_bezier.specs.Verdicts.{cell_verdict};
ghost use Rattle.cj_brief_checker.specs.Cuts.{IsCut, IsWholeRoot};

use crate::judged_root::JudgedRoot;
use cj_base::{Tick, Window};
use cj_bezier::{Hull, Verdict, gap, hull_ready, verdict};
use cj_case::{Pair, Problem};
use cj_checker::Root;
use cj_hermite::{Hint, Piece, Ready, ready, run_from};
use cj_interval::Divisor;
use std::alloc::{AllocError, Global};
use std::marker::Model;

/// How long the pieces of most tracks are: a minute of ticks.
const USUAL_SPAN: u64 = 60_000_000;

/// The piece of an object over ticks at which it is at no other, made ready, and its hull over them.
#[derive(Clone, Copy)]
pub(crate) struct Cut {
    pub object: u32,
    pub ticks: Window,
    pub ready: Ready,
    pub hull: Hull,
}

impl Cut {
    /// Whether it is that of an object over these ticks.
    fn is_of(&self, object: u32, ticks: Window) -> bool
        ensures object { IsTrue result → self.now.object ≡ object }
        ensures first { IsTrue result → self.now.ticks.first.micros ≡ ticks.first.micros }
        ensures last { IsTrue result → self.now.ticks.last.micros ≡ ticks.last.micros }
    {
        self.object == object && self.ticks.first == ticks.first && self.ticks.last == ticks.last
    }
}

/// Where a track with a state a minute from the first tick of the window on is at a tick.
fn usual_place(problem: &Problem, at: Tick) -> Hint {
    let before = at.micros.saturating_sub(problem.window.first.micros);
    Hint {
        segment: 0,
        node: (before / USUAL_SPAN) as u32,
    }
}

/// The cut of an object over ticks, none where it is not at one piece at all of them.
fn cut_over(problem: &Problem, object: u32, ticks: Window) -> Option<Cut>
    requires { ticks.first.micros ≤ ticks.last.micros }
    ensures { IfSome result (IsCut (plain_problem problem.now)) }
{
    let track = problem.tracks.as_slice().get(object as usize)?;
    let mut hint = usual_place(problem, ticks.first);
    let run = run_from(track, ticks.first, ticks.last, &mut hint)?;
    if run.ticks.first == ticks.first && run.ticks.last == ticks.last {
        Some(cut_of(object, ticks, &run.piece))
    } else {
        None
    }
}

/// The cut of an object over ticks at which it is at this piece.
fn cut_of(object: u32, ticks: Window, piece: &Piece) -> Cut
    requires order { ticks.first.micros ≤ ticks.last.micros }
    requires over { IsOver (curve_of piece.now) ticks.first.micros ticks.last.micros }
    ensures { (case : PlainProblem) → IsWhole case object ticks.first.micros ticks.last.micros
        → curve_at case object ticks.first.micros ≡ Some (curve_of piece.now) → IsCut case result }
{
    let made = ready(piece, &Divisor::new(USUAL_SPAN));
    Cut {
        object,
        ticks,
        ready: made,
        hull: hull_ready(&made, ticks.first, ticks.last),
    }
}

/// The verdict on two pieces over some ticks, by their hulls over them, against a length in nm.
#[tactic(auto, unfolding(cj_bezier::specs::Verdicts::cell_verdict))]
fn verdict_by(a: &Hull, b: &Hull, thr: u64) -> Verdict
    requires least { 10 ^ 9 ≤ thr }
    requires most { thr ≤ 10 ^ 16 }
    ensures { (c d : Curve) (first last : ℕ) → axes_of a.now.points ≡ hull_axes c first last → axes_of b.now.points ≡ hull_axes d first last
        → result ≡ cell_verdict c d thr first last }
{
    verdict(&gap(a, b), thr)
}

/// What is known of an object.
#[derive(Clone, Copy)]
enum Seen {
    Nothing,
    /// No cut of it is kept.
    Uncut,
    /// Where its cut is kept.
    Cut(usize),
}

/// Makes the cut of an object over ticks, where it is at one piece at all of them, keeps it behind the others, and says where.
fn keep_cut(problem: &Problem, object: u32, ticks: Window, kept: &mut Vec<Cut>) -> Seen
    requires order { ticks.first.micros ≤ ticks.last.micros }
    requires cuts { All (IsCut (plain_problem problem.now)) kept.old.items }
    ensures { All (IsCut (plain_problem problem.now)) kept.new.items }
{
    let place = kept.len();
    match cut_over(problem, object, ticks) {
        None => Seen::Uncut,
        Some(cut) => match kept.push(cut) {
            Ok(()) => Seen::Cut(place),
            Err(_) => Seen::Uncut,
        },
    }
}

/// The cuts of objects over the ticks of a slot. Its type keeps that they are cuts of the problem.
#[derive(Drop)]
pub(crate) struct Cuts<'p> {
    problem: &'p Problem,
    /// What is known of each object.
    seen: Vec<Seen>,
    kept: Vec<Cut>,
}

impl<'p> Model for Cuts<'p> {
    ghost use Rattle.std.specs.Prelude.{All};
    ghost use Rattle.cj_case.specs.declared.problem.Problem.{Problem};
    ghost use Rattle.cj_case.specs.Problems.{plain_problem};
    ghost use Rattle.cj_brief_checker.specs.Cuts.{IsCut};

    ghost Value = { Problem };

    ghost view = { λ l. l.problem.now };

    ghost invariant = { λ l. All (IsCut (plain_problem l.problem.now)) l.kept.items };
}

impl<'p> Cuts<'p> {
    /// None yet, of a problem.
    pub(crate) fn new(alloc: Global, problem: &'p Problem) -> Result<Self, AllocError>
        ensures { IfOk result (λ cuts. cuts ≡ problem.now) }
    {
        let objects = problem.tracks.as_slice().len();
        Ok(Cuts {
            problem,
            seen: vec![in alloc; Seen::Nothing; objects]?,
            kept: Vec::with_capacity(alloc, objects)?,
        })
    }

    /// Makes the cut of an object over ticks, where it is at one piece at all of them. It looks at an object once.
    fn look(&mut self, object: u32, ticks: Window)
        requires { ticks.first.micros ≤ ticks.last.micros }
        ensures { self.new ≡ self.old }
    {
        let place = object as usize;
        if place >= self.seen.len() {
            return;
        }
        if let Seen::Nothing = self.seen[place] {
            self.seen[place] = keep_cut(self.problem, object, ticks, &mut self.kept);
        }
    }

    /// The cut of an object over these ticks, where it is kept.
    fn cut(&self, object: u32, ticks: Window) -> Option<&Cut>
        ensures cut { IfSome result (λ cut. IsCut (plain_problem self.now) cut.now) }
        ensures object { IfSome result (λ cut. cut.now.object ≡ object) }
        ensures first { IfSome result (λ cut. cut.now.ticks.first.micros ≡ ticks.first.micros) }
        ensures last { IfSome result (λ cut. cut.now.ticks.last.micros ≡ ticks.last.micros) }
    {
        let Seen::Cut(place) = *self.seen.get(object as usize)? else {
            return None;
        };
        let cut = self.kept.get(place)?;
        if cut.is_of(object, ticks) {
            Some(cut)
        } else {
            None
        }
    }

    /// The one root of a pair over ticks of a slot, with the verdict on all of them, where each of both objects is at one piece there.
    pub(crate) fn root(&mut self, pair: Pair, ticks: Window) -> Option<JudgedRoot>
        requires order { ticks.first.micros ≤ ticks.last.micros }
        requires exists { pair.b < length self.old.tracks }
        ensures same { self.new ≡ self.old }
        ensures root { IfSome result (IsWholeRoot (plain_problem self.old) pair ticks) }
    {
        self.look(pair.a, ticks);
        self.look(pair.b, ticks);
        self.root_by(pair, ticks)
    }

    /// The same by the cuts that are kept.
    fn root_by(&self, pair: Pair, ticks: Window) -> Option<JudgedRoot>
        requires order { ticks.first.micros ≤ ticks.last.micros }
        requires exists { pair.b < length self.now.tracks }
        ensures { IfSome result (IsWholeRoot (plain_problem self.now) pair ticks) }
    {
        let a = self.cut(pair.a, ticks)?;
        let b = self.cut(pair.b, ticks)?;
        let thr = self.problem.pair_threshold(pair);
        let verdict = verdict_by(&a.hull, &b.hull, thr);
        let (first, second) = (a.ready, b.ready);
        let root = Root {
            pair,
            ticks,
            thr,
            first,
            second,
        };
        Some(JudgedRoot { root, verdict })
    }
}
