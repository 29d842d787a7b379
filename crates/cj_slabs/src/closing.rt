//! The leaves of many roots of a problem, one after another.
ghost use Rattle.std.specs.Prelude.{◌≡◌, ℕ, ◌+◌, ◌^◌, ◌<◌, ◌≤◌, IfOk, IfSome, IsTrue, OnOk, IsErrOf, [], ◌∷◌, length, vec_len};
ghost use Rattle.cj_case.specs.Cells.{plain_cell};
ghost use Rattle.cj_case.specs.Leaves.{plain_leaf};
ghost use Rattle.cj_case.specs.Problems.{plain_problem};
ghost use Rattle.cj_hermite.specs.Interpolant.{Curve};
ghost use Rattle.cj_hermite.specs.Roots.{KeepPieces};
ghost use Rattle.cj_hermite.specs.Whole.{IsWhole};
ghost use Rattle.cj_bezier.specs.Hulls.{axes_of, hull_axes};
ghost use Rattle.cj_bezier.specs.RootLeaves.{kind_between, leaves_of_root, Describe};
ghost use Rattle.cj_cells.specs.Cells.{added_leaves};
ghost use Rattle.cj_slabs.specs.Cuts.{IsClosedAs, IsCut};

use crate::cutting::{Cut, cut_at, cut_over};
use cj_base::{Tick, Window};
use cj_bezier::{Hull, Verdict, gap, verdict};
use cj_case::{Cell, Kind, Leaf, Pair, Problem};
use cj_cells::{RefineError, refine};
use cj_hermite::Hint;
use std::alloc::{AllocError, Global};
use std::marker::Model;

/// When an object was looked at last, by a slot's first tick, and where it then was.
#[derive(Clone, Copy, Default)]
struct Look {
    at: Option<Tick>,
    hint: Hint,
}

/// Refines many cells of a problem in turn, for less where an object is over the same ticks as in its last cell: then its hull is there already. Its
/// type keeps that what it has made are cuts of the problem.
#[derive(Drop)]
pub struct Cuts<'p> {
    problem: &'p Problem,
    /// The last cut of each object.
    kept: Vec<Option<Cut>>,
    /// The last look at each object.
    looks: Vec<Look>,
}

impl<'p> Model for Cuts<'p> {
    ghost use Rattle.std.specs.Prelude.{IfSome, All};
    ghost use Rattle.cj_case.specs.declared.problem.Problem.{Problem};
    ghost use Rattle.cj_case.specs.Problems.{plain_problem};
    ghost use Rattle.cj_slabs.specs.Cuts.{IsCut};

    ghost Value = { Problem };

    ghost view = { λ l. l.problem.now };

    ghost invariant = { λ l. All (λ cut. IfSome cut (IsCut (plain_problem l.problem.now))) l.kept.items };
}

impl<'p> Cuts<'p> {
    /// Refines cells of a problem.
    pub fn new(alloc: Global, problem: &'p Problem) -> Result<Self, AllocError>
        ensures { IfOk result (λ cuts. cuts ≡ problem.now) }
    {
        let objects = problem.tracks.as_slice().len();
        let kept = vec![in alloc; None; objects]?;
        let looks = vec![in alloc; Look::default(); objects]?;
        Ok(Cuts {
            problem,
            kept,
            looks,
        })
    }

    /// Whether each object of a pair is at one piece over ticks of a slot.
    pub fn are_whole(&mut self, pair: Pair, ticks: Window) -> bool
        requires { ticks.first.micros ≤ ticks.last.micros }
        ensures same { self.new ≡ self.old }
        ensures whole { IsTrue result → KeepPieces (plain_problem self.old) pair.a pair.b ticks.first.micros ticks.last.micros }
    {
        self.is_whole(pair.a, ticks) && self.is_whole(pair.b, ticks)
    }

    /// Whether an object is at one piece over ticks of a slot. Its cut over them is then kept, unless that was made already and given up for another.
    fn is_whole(&mut self, object: u32, ticks: Window) -> bool
        requires { ticks.first.micros ≤ ticks.last.micros }
        ensures same { self.new ≡ self.old }
        ensures whole { IsTrue result → IsWhole (plain_problem self.old) object ticks.first.micros ticks.last.micros }
    {
        if self.has(object, ticks) {
            return true;
        }
        self.look(object, ticks);
        self.has(object, ticks)
    }

    /// Whether the last cut of an object is over these ticks.
    fn has(&self, object: u32, ticks: Window) -> bool
        ensures { IsTrue result → IsWhole (plain_problem self.now) object ticks.first.micros ticks.last.micros }
    {
        self.cut(object, ticks.first, ticks.last).is_some()
    }

    /// Makes the cut of an object over ticks of a slot, where it is at one piece at all of them. It looks once at a slot.
    fn look(&mut self, object: u32, ticks: Window)
        requires { ticks.first.micros ≤ ticks.last.micros }
        ensures { self.new ≡ self.old }
    {
        let place = object as usize;
        if place >= self.looks.len()
            || place >= self.kept.len()
            || self.looks[place].at == Some(ticks.first)
        {
            return;
        }
        let mut hint = self.looks[place].hint;
        let cut = cut_over(self.problem, object, ticks, &mut hint);
        self.looks[place] = Look {
            at: Some(ticks.first),
            hint,
        };
        if cut.is_some() {
            self.kept[place] = cut;
        }
    }

    /// Appends the leaves of a cell whose ticks have the same two pieces.
    pub fn refine(
        &mut self,
        alloc: Global,
        cell: Cell,
        limit: u64,
        leaves: &mut Vec<Leaf>,
    ) -> Result<(), RefineError>
        requires pieces { KeepPieces (plain_problem self.old) cell.pair.a cell.pair.b cell.first.micros cell.last.micros }
        requires room { vec_len leaves.old ≤ limit }
        ensures same { self.new ≡ self.old }
        ensures ok { OnOk result (added_leaves leaves.old.items leaves.new.items ≡ leaves_of_root (plain_problem self.old) (plain_cell cell)) }
        ensures within { OnOk result (vec_len leaves.new ≤ limit) }
        ensures too_many { IsErrOf result RefineError.TooMany
            → limit < vec_len leaves.old + length (leaves_of_root (plain_problem self.old) (plain_cell cell)) }
        ensures leaves { Describe (plain_problem self.old) (plain_cell cell) (leaves_of_root (plain_problem self.old) (plain_cell cell)) }
    {
        self.keep(cell.pair.a, cell.first, cell.last);
        self.keep(cell.pair.b, cell.first, cell.last);
        match self.kind(cell) {
            Some(kind) => push(Leaf { cell, kind }, limit, leaves),
            None => refine(alloc, self.problem, cell, limit, leaves),
        }
    }

    /// Makes the cut of an object over ticks at which it is at one piece, where that is not its last one.
    fn keep(&mut self, object: u32, first: Tick, last: Tick)
        requires order { first.micros ≤ last.micros }
        requires whole { IsWhole (plain_problem self.old) object first.micros last.micros }
        ensures { self.new ≡ self.old }
    {
        let place = object as usize;
        if self.cut(object, first, last).is_none() && place < self.kept.len() {
            self.kept[place] = Some(cut_at(self.problem, object, first, last));
        }
    }

    /// The cut of an object over these ticks, where it is the object's last one.
    fn cut(&self, object: u32, first: Tick, last: Tick) -> Option<&Cut>
        ensures cut { IfSome result (λ cut. IsCut (plain_problem self.now) cut.now) }
        ensures object { IfSome result (λ cut. cut.now.object ≡ object) }
        ensures first { IfSome result (λ cut. cut.now.first.micros ≡ first.micros) }
        ensures last { IfSome result (λ cut. cut.now.last.micros ≡ last.micros) }
    {
        let cut = self.kept.get(object as usize)?.as_ref()?;
        if cut.is_of(object, first, last) {
            Some(cut)
        } else {
            None
        }
    }

    /// The kind of a cell whose ticks have the same two pieces, where both objects' cuts are there, and it is of one kind.
    fn kind(&self, cell: Cell) -> Option<Kind>
        requires { KeepPieces (plain_problem self.now) cell.pair.a cell.pair.b cell.first.micros cell.last.micros }
        ensures { IfSome result (IsClosedAs (plain_problem self.now) (plain_cell cell)) }
    {
        let a = self.cut(cell.pair.a, cell.first, cell.last)?;
        let b = self.cut(cell.pair.b, cell.first, cell.last)?;
        kind_by(&a.hull, &b.hull, self.problem.pair_threshold(cell.pair))
    }
}

/// The kind of two interpolants over ticks, by their hulls over them; none where the ticks are to be halved.
#[tactic(auto, unfolding(cj_bezier::specs::RootLeaves::kind_between))]
fn kind_by(a: &Hull, b: &Hull, thr: u64) -> Option<Kind>
    requires least { 10 ^ 9 ≤ thr }
    requires most { thr ≤ 10 ^ 16 }
    ensures { (c d : Curve) (first last : ℕ) → axes_of a.now.points ≡ hull_axes c first last → axes_of b.now.points ≡ hull_axes d first last
        → result ≡ kind_between c d thr first last }
{
    match verdict(&gap(a, b), thr) {
        Verdict::Far => Some(Kind::Far),
        Verdict::Near => Some(Kind::Near),
        Verdict::Undecided => Some(Kind::Undecided),
        Verdict::Split => None,
    }
}

/// Appends a leaf.
fn push(leaf: Leaf, limit: u64, leaves: &mut Vec<Leaf>) -> Result<(), RefineError>
    requires { vec_len leaves.old ≤ limit }
    ensures ok { OnOk result (added_leaves leaves.old.items leaves.new.items ≡ plain_leaf leaf ∷ []) }
    ensures within { OnOk result (vec_len leaves.new ≤ limit) }
    ensures too_many { IsErrOf result RefineError.TooMany → limit < vec_len leaves.old + 1 }
{
    if leaves.len() as u64 >= limit {
        return Err(RefineError::TooMany);
    }
    leaves.push(leaf)?;
    Ok(())
}
